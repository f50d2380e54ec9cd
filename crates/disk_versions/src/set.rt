ghost use Rattle.std.specs.Prelude.{◌≡◌, ◌≤◌, ◌^◌};
ghost use Rattle.disk_versions.specs.Placing.{count_with};

use ds_base::PageId;

/// What is found of the pages of a disk.
#[derive(Clone, Copy, Debug, PartialEq, Eq)]
pub enum Placing {
    /// Each page may stand there; so many aren't all zeros.
    All { pages: u64 },
    /// The first page that may not.
    Unplaced { id: PageId },
}

/// The count with one page more, if it isn't all zeros.
pub fn count_with(pages: u64, is_written: bool) -> u64
    requires { pages ≤ 2 ^ 32 }
    ensures { result ≡ count_with pages is_written }
{
    if is_written { pages + 1 } else { pages }
}
