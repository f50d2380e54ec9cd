//! The last page of each page set that records change.

ghost use Rattle.std.specs.Prelude.{◌≡◌, ℕ, ◌≤◌, get_or};
ghost use Rattle.std.specs.List.{AllByRecursion};
ghost use Rattle.ds_model.specs.RecordBytes.{IsAllowed, PatchIsAllowed, page_sets};
ghost use Rattle.page_chain.specs.Chains.{changes_of};
ghost use Rattle.redone_pages.specs.Lasts.{last_with, AreRaised};

use ds_base::PageId;
use log_record::{Body, LogRecord};
use page_format::Patch;
use page_redo::page_changed;

/// The numbers of last pages by their page sets, from 1 on.
pub type Lasts = [u32; 129];

fn raise(lasts: &mut Lasts, id: PageId)
    requires { id.set ≤ page_sets }
    ensures { (set : ℕ) → get_or lasts.new set 0 ≡ last_with set (get_or lasts.old set 0) id }
{
    let set = id.set as usize;
    if lasts[set] < id.number {
        lasts[set] = id.number;
    }
}

fn raise_patches(lasts: &mut Lasts, patches: &[Patch])
    requires { AllByRecursion PatchIsAllowed patches.now }
    ensures { AreRaised patches.now lasts.old lasts.new }
{
    for patch in patches {
        raise(lasts, patch.page);
    }
}

/// Raises the numbers to those of the pages that the record changes.
pub fn raise_record(lasts: &mut Lasts, it: &LogRecord)
    requires { IsAllowed it.now }
    ensures { AreRaised (changes_of it.now.body) lasts.old lasts.new }
{
    match &it.body {
        Body::RowChange { change } | Body::Compensation { change, .. } => {
            raise(lasts, page_changed(change))
        }
        Body::System { patches } => raise_patches(lasts, patches.as_slice()),
        Body::Commit | Body::Ended | Body::Checkpoint { .. } | Body::RestartEnd => {}
    }
}
