//! The fates of a member's transactions.

ghost use Rattle.std.specs.Prelude.{◌≡◌, None};
ghost use Rattle.member_resources.specs.Held.{with_marks};
ghost use Rattle.member_trans.specs.declared.fate.Owner.TheVariants as owner;
ghost use Rattle.member_marks.specs.State.{id_of, with_trans};
ghost use Rattle.group_member.specs.Entering.{AnswersOne, Commits, CommitsOne, Enters, RefusesOne};
ghost use Rattle.group_member.specs.Members.{member_of};

use crate::part::MemberPart;
use member_marks::Owner;
use member_resources::{Policy, Resources};
use script_fates::Fates;

// The transaction of the slot has committed.
fn enter_commit<P: Policy>(resources: &Resources, policy: &mut P, fates: &mut Fates, slot: u8)
    ensures { CommitsOne (id_of resources.now.marks (owner.Slot slot)).number fates.old fates.new }
{
    let number = resources.marks().tran(&Owner::Slot(slot)).number;
    fates.commit(number, policy.take_reads(slot));
}

// The transactions that the event has decided, in the order of the log.
fn enter_decided<P: Policy>(resources: &Resources, policy: &mut P, fates: &mut Fates)
    ensures { Commits resources.now.marks resources.now.marks.trans.decided fates.old fates.new }
{
    for slot in resources.marks().decided() {
        enter_commit(resources, policy, fates, *slot);
    }
}

fn enter_refused(resources: &mut Resources, fates: &mut Fates)
    ensures fates { RefusesOne resources.old.marks.trans.refused fates.old fates.new }
    ensures taken { resources.new ≡ with_marks resources.old (with_trans resources.old.marks (record resources.old.marks.trans { refused = None })) }
{
    if let Some(refused) = resources.take_refused() {
        fates.refuse(refused.number, refused.refusal, refused.place);
    }
}

fn enter_answered(resources: &mut Resources, fates: &mut Fates)
    ensures fates { AnswersOne resources.old.marks.trans.answered fates.old fates.new }
    ensures taken { resources.new ≡ with_marks resources.old (with_trans resources.old.marks (record resources.old.marks.trans { answered = None })) }
{
    if let Some(number) = resources.take_answered() {
        fates.answer(number);
    }
}

/// Enters what an event has made of the member's transactions.
pub fn enter_fates<P: Policy>(part: &mut MemberPart<P>, fates: &mut Fates)
    ensures enters { Enters (member_of part.old) fates.old (member_of part.new) fates.new }
    ensures rest { part.new ≡ record part.old { resources = part.new.resources; policy = part.new.policy } }
{
    enter_decided(&part.resources, &mut part.policy, fates);
    enter_refused(&mut part.resources, fates);
    enter_answered(&mut part.resources, fates);
}
