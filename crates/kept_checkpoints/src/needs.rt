ghost use Rattle.std.specs.Prelude.{◌≡◌, ◌++◌, map, OnOk, IfOk};
ghost use Rattle.page_redo.specs.Pages.{pages_of};
ghost use Rattle.kept_checkpoints.specs.Needs.{need_of, NeedsAreMet, NeedsTell};

use ds_base::{Lrsn, NoMemory, PageId, Sequence};
use ds_model::LogRecord;
use page_redo::pages_of;
use std::alloc::Global;

/// What a record that a restart doesn't read again needs of a page that it changes.
#[derive(Clone, Copy, Debug, PartialEq, Eq)]
pub struct Need {
    pub page: PageId,
    /// The record's number: the page's may not be lower.
    pub lrsn: Lrsn,
    /// Whether a row change of the record's transaction is open, which may not be.
    pub is_open: bool,
}

fn add_pages(
    needs: &mut Sequence<Need>,
    pages: &[PageId],
    lrsn: Lrsn,
    is_open: bool,
) -> Result<(), NoMemory>
    ensures { OnOk result (needs.new ≡ needs.old ++ map (need_of is_open lrsn) pages.now) }
{
    for page in pages {
        needs.push(Need {
            page: *page,
            lrsn,
            is_open,
        })?;
    }
    Ok(())
}

/// What the record needs of the pages that it changes, where a row change of its transaction is open or none is.
pub fn needs_with(alloc: Global, it: &LogRecord, is_open: bool) -> Result<Sequence<Need>, NoMemory>
    ensures { IfOk result (λ needs. needs ≡ map (need_of is_open it.now.lrsn) (pages_of it.now)) }
{
    let mut needs = Sequence::new(alloc);
    let pages = pages_of(alloc, it)?;
    add_pages(&mut needs, pages.as_slice(), it.lrsn, is_open)?;
    Ok(needs)
}

/// The seventh clause of a sound disk holds exactly where all offsets fit and the pages meet all needs.
pub fn needs_laws()
    ensures met { NeedsAreMet }
    ensures tell { NeedsTell }
{}
