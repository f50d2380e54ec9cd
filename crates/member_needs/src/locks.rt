//! Locks that are claimed, and queries about them.

ghost use Rattle.std.specs.Prelude.{◌≡◌};
ghost use Rattle.member_marks.specs.Claims.{is_for_agents};
ghost use Rattle.member_needs.specs.Locks.{is_x, is_joined, slot_test, agent_test, page_test, claim_test, obtain_need, grant_need, is_page_claimed, ask_need, answers_need, answer_need};

use ds_base::MemberId;
use list_structure::Asker;
use lock_names::{Mode, Name, covers};
use member_intents::{Command, Sent, Test, cell_slot};
use member_marks::{Marks, Owner};

/// Whether agents claim the name.
fn is_of_slot(name: &Name) -> bool
    ensures { result ≡ is_for_agents name.now }
{
    matches!(name, Name::Space(_) | Name::Row(..))
}

fn is_x(mode: Mode) -> bool
    ensures { result ≡ is_x mode }
{
    matches!(mode, Mode::X)
}

// Whether the mode covers what the owner holds.
fn is_joined(held: Option<Mode>, mode: Mode) -> bool
    ensures { result ≡ is_joined held mode }
{
    match held {
        Some(held) => covers(mode, held),
        None => true,
    }
}

fn test_slot(marks: &Marks, slot: u8, name: &Name, mode: Mode) -> Result<(), Test>
    ensures { result ≡ slot_test marks.now slot name.now mode }
{
    if !marks.is_forward(slot) {
        return Err(Test::NotForward);
    }
    if !is_joined(marks.holds(&Owner::Slot(slot), name), mode) {
        return Err(Test::NotJoined);
    }
    Ok(())
}

// Table spaces and rows are claimed by the transactions of slots alone.
fn test_agent(marks: &Marks, owner: &Owner, name: &Name, mode: Mode) -> Result<(), Test>
    ensures { result ≡ agent_test marks.now owner.now name.now mode }
{
    match owner {
        Owner::Slot(slot) => test_slot(marks, *slot, name, mode),
        Owner::Rollback(_) => Err(Test::NotOfSlot),
    }
}

fn test_page(marks: &Marks, name: &Name, mode: Mode) -> Result<(), Test>
    ensures { result ≡ page_test marks.now name.now mode }
{
    let Name::Page(page) = name else {
        return Err(Test::NotOfMember);
    };
    if !is_x(mode) {
        return Err(Test::NotOfMember);
    }
    if !marks.has_page_room() && !marks.has_page(*page) {
        return Err(Test::PagesFull);
    }
    Ok(())
}

// A claim of the owner, or of the member itself for the owner.
fn test_claim(marks: &Marks, owner: &Owner, name: &Name, mode: Mode) -> Result<(), Test>
    ensures { result ≡ claim_test marks.now owner.now name.now mode }
{
    if is_of_slot(name) {
        test_agent(marks, owner, name, mode)
    } else {
        test_page(marks, name, mode)
    }
}

pub fn obtain_need(marks: &Marks, owner: &Owner, name: &Name, mode: Mode) -> Result<Sent, Test>
    ensures { result ≡ obtain_need marks.now owner.now name.now mode }
{
    test_claim(marks, owner, name, mode)?;
    Ok(Sent::Command(Command::Obtain { name: *name, mode }))
}

pub fn grant_need(marks: &Marks, owner: &Owner, name: &Name, mode: Mode) -> Result<Sent, Test>
    ensures { result ≡ grant_need marks.now owner.now name.now mode }
{
    test_claim(marks, owner, name, mode)?;
    Ok(Sent::Command(Command::Grant {
        slot: cell_slot(owner, name),
        name: *name,
        mode,
    }))
}

/// A question to another member about a lock.
pub fn ask_need(owner: &Owner, to: MemberId, name: &Name, mode: Mode) -> Sent
    ensures { result ≡ ask_need owner.now to name.now mode }
{
    Sent::Command(Command::Ask {
        slot: cell_slot(owner, name),
        to,
        name: *name,
        mode,
    })
}

/// A look at the answers.
pub fn answers_need(owner: &Owner, name: &Name) -> Sent
    ensures { result ≡ answers_need owner.now name.now }
{
    Sent::Command(Command::Answers {
        slot: cell_slot(owner, name),
    })
}

// Whether the name is that of a page that the member claims.
fn is_page_claimed(marks: &Marks, name: &Name) -> bool
    ensures { result ≡ is_page_claimed marks.now name.now }
{
    match name {
        Name::Page(page) => marks.has_page(*page),
        _ => false,
    }
}

/// The answer is what the claims say. `place` is the number of this event.
pub fn answer_need(
    marks: &Marks,
    asker: Asker,
    name: &Name,
    mode: Mode,
    place: u64,
) -> Result<Sent, Test>
    ensures { result ≡ answer_need marks.now asker name.now mode place }
{
    if is_page_claimed(marks, name) {
        return Err(Test::StillClaimed);
    }
    Ok(Sent::Command(Command::Answer {
        asker,
        name: *name,
        mode,
        answer: marks.answer_to(name, mode),
        event: place,
    }))
}
