//! What a directory keeps through every command.
ghost use Rattle.std.specs.Prelude.{ℕ, List};
ghost use Rattle.ds_base.specs.declared.names.PageId.{PageId};
ghost use Rattle.cache_structure.specs.Directory.{
  Directory,
  empty_directory,
  after_read,
  after_write,
  after_unregister,
  after_castout_read,
  after_castout_done,
  after_fail,
  after_lose,
  after_rebuilt,
};
ghost use Rattle.cache_structure.specs.Sound.{IsSound};

/// No page has two entries, and there are no more entries than there is room for, at the beginning and after each command.
pub fn keeps_entries_apart()
    ensures empty { (size frames : ℕ) → IsSound (empty_directory size frames) }
    ensures read { (d : Directory) (member : ℕ) (id : PageId) (index : ℕ) → IsSound d → IsSound (after_read d member id index) }
    ensures write { (d : Directory) (member : ℕ) (id : PageId) (index : ℕ) (bytes : List ℕ) → IsSound d → IsSound (after_write d member id index bytes) }
    ensures unregister { (d : Directory) (member index : ℕ) → IsSound d → IsSound (after_unregister d member index) }
    ensures castout_read { (d : Directory) (member : ℕ) (id : PageId) → IsSound d → IsSound (after_castout_read d member id) }
    ensures castout_done { (d : Directory) (member : ℕ) (id : PageId) → IsSound d → IsSound (after_castout_done d member id) }
    ensures fail { (d : Directory) (member : ℕ) → IsSound d → IsSound (after_fail d member) }
    ensures lose { (d : Directory) → IsSound d → IsSound (after_lose d) }
    ensures rebuilt { (d : Directory) → IsSound d → IsSound (after_rebuilt d) }
{}
