//! The replies to `obtain` and `grant`.

ghost use Rattle.std.specs.Prelude.{◌≡◌};
ghost use Rattle.member_needs.specs.Given.{is_for_agents, offered};
ghost use Rattle.member_effects.specs.declared.told.Told.TheVariants as told;
ghost use Rattle.member_effects.specs.Claims.{EntersPage, agent_entered, agent_told, Enters, told_of, granted_told, Claims, claimed_told};

use crate::told::Told;
use ds_model::Refusal;
use facility::Reply;
use lock_names::{Mode, Name};
use member_needs::{Marks, Owner, Trial};

// The lock of a page is the member's.
fn enter_page(marks: &mut Marks, name: &Name)
    ensures { EntersPage marks.old name.now marks.new }
{
    if let Name::Page(page) = name {
        marks.enter_page(*page);
    }
}

// What came of entering the claim of a slot's transaction.
fn told_of(trial: Trial) -> Told
    ensures { result ≡ told_of trial }
{
    match trial {
        Trial::Have => Told::Granted,
        Trial::Conflict(by) => Told::Conflict { by },
        Trial::Postponed(_) | Trial::NoMemory => Told::Refused,
        Trial::ToObtain(_) | Trial::NotForward => Told::Stepped,
    }
}

// The claim is that of the slot's transaction.
fn enter_agent(marks: &mut Marks, owner: &Owner, name: &Name, mode: Mode, place: u64) -> Told
    ensures told { result ≡ agent_told marks.old owner.now name.now mode }
    ensures after { marks.new ≡ agent_entered marks.old owner.now name.now mode place }
{
    match owner {
        Owner::Slot(slot) => told_of(marks.enter_claim(*slot, name, mode, place)),
        Owner::Rollback(_) => Told::Stepped,
    }
}

// Whether agents claim the name: that of a table space or row.
fn is_for_agents(name: &Name) -> bool
    ensures { result ≡ is_for_agents name.now }
{
    matches!(name, Name::Space(_) | Name::Row(..))
}

fn granted(marks: &mut Marks, owner: &Owner, name: &Name, mode: Mode, place: u64) -> Told
    ensures told { result ≡ granted_told marks.old owner.now name.now mode }
    ensures after { Enters (is_for_agents name.now) marks.old owner.now name.now mode place marks.new }
{
    if is_for_agents(name) {
        return enter_agent(marks, owner, name, mode, place);
    }
    enter_page(marks, name);
    Told::Granted
}

fn refused(marks: &mut Marks, owner: &Owner, refusal: Refusal, place: u64) -> Told
    ensures told { result ≡ told.Refused }
    ensures after { marks.new ≡ offered marks.old owner.now refusal place }
{
    marks.offer(owner, refusal, place);
    Told::Refused
}

/// The reply to `obtain` or `grant`.
pub fn claimed(
    marks: &mut Marks,
    owner: &Owner,
    name: &Name,
    mode: Mode,
    reply: &Reply,
    place: u64,
) -> Told
    ensures told { result ≡ claimed_told marks.old owner.now name.now mode reply.now }
    ensures after { Claims marks.old owner.now name.now mode reply.now place marks.new }
{
    match *reply {
        Reply::Granted { .. } => granted(marks, owner, name, mode, place),
        Reply::Retained { by } => {
            let refusal = Refusal::Retained { name: *name, by };
            refused(marks, owner, refusal, place)
        }
        Reply::RecordsFull { limit } => {
            let refusal = Refusal::RecordsFull { limit };
            refused(marks, owner, refusal, place)
        }
        Reply::Contention {
            share,
            exclusive,
            ..
        } => Told::Contention { share, exclusive },
        Reply::Moved { .. } => Told::Moved,
        _ => Told::Stepped,
    }
}
