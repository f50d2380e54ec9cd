ghost use Rattle.std.specs.Prelude.{◌≡◌, ◌≤◌, replicate, IfOk, OnOk, OnErr};
ghost use Rattle.member_marks.specs.State.{with_trans};
ghost use Rattle.member_marks.specs.Rollbacks.{may_adopt, after_adopt, with_room_of};
ghost use Rattle.member_effects.specs.Given.{is_stable as is_page_stable};
ghost use Rattle.member_resources.specs.Held.{IsNew, zeros, with_marks};

use ds_base::{Lrsn, MemberId, NoMemory, Sizes};
use ds_model::RowChange;
use member_effects::{Cast, is_stable};
use member_marks::{Change, Marks, Refused};
use page_format::Page;
use std::alloc::Global;
use std::marker::Model;

/// What a member holds: its marks, the bytes of its frames, and the page that it casts out.
#[derive(Drop)]
pub struct Resources {
    pub(crate) marks: Marks,
    pub(crate) pages: Vec<Page>,
    /// The page that was read to be cast out, and its bytes.
    pub(crate) cast: Option<Cast>,
    pub(crate) buffer: Page,
    /// Takes the bytes that nobody needs.
    pub(crate) spare: Page,
    /// How many pages of rows a table may have.
    pub(crate) limit: u32,
}

impl Model for Resources {
    ghost use Rattle.member_resources.specs.Held.{Held};

    ghost Value = { Held };

    ghost view = { λ r. record { marks = r.marks; pages = r.pages.items; cast = r.cast; buffer = r.buffer; spare = r.spare; limit = r.limit } };
}

fn zero_pages(alloc: Global, frames: u16) -> Result<Vec<Page>, NoMemory>
    ensures { IfOk result (λ pages. pages.items ≡ replicate frames zeros) }
{
    let mut pages = Vec::new(alloc);
    for _ in 0..frames {
        pages.push(Page::zero(alloc)?)?;
    }
    Ok(pages)
}

impl Resources {
    /// Nothing is held. The sizes are those of the group, with a lock entry and a frame at least.
    pub fn new(alloc: Global, member: MemberId, sizes: &Sizes) -> Result<Resources, NoMemory>
        requires { (1 ≤ sizes.now.locks) × (1 ≤ sizes.now.pool) }
        ensures { IfOk result (λ resources. IsNew member sizes.now resources) }
    {
        Ok(Resources {
            marks: Marks::new(alloc, member, sizes.agents, sizes.locks, sizes.pool)?,
            pages: zero_pages(alloc, sizes.pool)?,
            cast: None,
            buffer: Page::zero(alloc)?,
            spare: Page::zero(alloc)?,
            limit: sizes.pages,
        })
    }

    pub fn marks(&self) -> &Marks
        ensures { result.now ≡ self.now.marks }
    {
        &self.marks
    }

    /// Whether the last change of the page in the frame stands in the log.
    pub fn is_stable(&self, frame: u16) -> bool
        ensures { result ≡ is_page_stable self.now.marks self.now.pages frame }
    {
        is_stable(&self.marks, self.pages.as_slice(), frame)
    }

    /// The transaction that the last event has refused. It is told once.
    pub fn take_refused(&mut self) -> Option<Refused>
        ensures told { result ≡ self.old.marks.trans.refused }
        ensures after { self.new ≡ with_marks self.old (with_trans self.old.marks (record self.old.marks.trans { refused = None })) }
    {
        self.marks.take_refused()
    }

    /// The number of the decided transaction that has come to its end in the last event. It is told once.
    pub fn take_answered(&mut self) -> Option<u32>
        ensures told { result ≡ self.old.marks.trans.answered }
        ensures after { self.new ≡ with_marks self.old (with_trans self.old.marks (record self.old.marks.trans { answered = None })) }
    {
        self.marks.take_answered()
    }

    /// Adds a rollback that a restart of the member left, by its first number, which waits for this failed member: with the
    /// changes that stand, the oldest first, and those that were taken back, as `Marks::adopt` does.
    pub fn adopt(
        &mut self,
        id: Lrsn,
        by: MemberId,
        changes: Vec<Change>,
        undone: &[RowChange],
    ) -> Result<bool, NoMemory>
        ensures told { IfOk result (λ adopted. adopted ≡ may_adopt self.old.marks id changes.items) }
        ensures after { OnOk result (self.new ≡ with_marks self.old (with_room_of (after_adopt self.old.marks id by changes.items undone.now) self.new.marks)) }
        ensures err { OnErr result (self.new ≡ with_marks self.old (with_room_of self.old.marks self.new.marks)) }
    {
        self.marks.adopt(id, by, changes, undone)
    }
}
