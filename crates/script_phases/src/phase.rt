//! What a phase gives to the members.

ghost use Rattle.std.specs.Prelude.{◌≡◌, ◌+◌, ◌<◌, ℕ, None, Some, IfOk, MatchOption, slice_index_or};
ghost use Rattle.script_phases.specs.Phases.{Noted, fail_in, is_failed, is_left_out, last_raiser, part_in, raise_in, raises_counted, raises_in, raises_of_part, raises_of_tran, restarts_in, trans_in};

use ds_base::{MemberId, NoMemory, TranId};
use ds_model::{FailAt, Op, Part, Phase, Tran, TranList};
use list_structure::{Lists, MemberStatus};
use script_fates::copy_trans;
use std::alloc::Global;

/// The flags of a phase.
const FLAGS: usize = 64;

/// For each flag who is to raise it.
pub type Raisers = [Option<TranId>; FLAGS];

fn note_raise(raisers: &mut Raisers, op: &Op, id: TranId)
    ensures { Noted (raise_in id op.now) raisers.old raisers.new }
{
    if let Op::Raise { flag } = *op {
        if 1 <= flag && flag <= 64 {
            raisers[flag as usize - 1] = Some(id);
        }
    }
}

fn note_tran(raisers: &mut Raisers, member: MemberId, tran: &Tran)
    ensures { Noted (raises_of_tran member tran.now) raisers.old raisers.new }
{
    let number = tran.number;
    for op in tran.ops.as_slice() {
        note_raise(raisers, op, TranId { member, number });
    }
}

fn note_part(raisers: &mut Raisers, part: &Part)
    ensures { Noted (raises_of_part part.now) raisers.old raisers.new }
{
    for tran in part.trans.as_slice() {
        note_tran(raisers, part.member, tran);
    }
}

// Notes the raises of a part, unless its member is left out.
fn note_counted(raisers: &mut Raisers, phase: &Phase, lists: &Lists, part: &Part)
    ensures { Noted (raises_counted phase.now lists.now.statuses part.now) raisers.old raisers.new }
{
    if !is_left_out(phase, lists, part.member) {
        note_part(raisers, part);
    }
}

pub fn is_failed(status: MemberStatus) -> bool
    ensures { result ≡ is_failed status }
{
    matches!(status, MemberStatus::Failed)
}

/// Whether the member has a part of the phase in which it restarts.
pub fn restarts_in(phase: &Phase, member: MemberId) -> bool
    ensures { result ≡ restarts_in phase.now member }
{
    phase
        .parts
        .as_slice()
        .iter()
        .any(|part| part.member == member && part.restart)
}

/// Whether the member has failed, and doesn't restart in the phase.
pub fn is_left_out(phase: &Phase, lists: &Lists, member: MemberId) -> bool
    ensures { result ≡ is_left_out phase.now lists.now.statuses member }
{
    is_failed(lists.status(member)) && !restarts_in(phase, member)
}

/// For each flag who is to raise it in this phase. A transaction of a member that is left out raises none.
pub fn raisers_of(phase: &Phase, lists: &Lists) -> Raisers
    ensures { (k : ℕ) → k < 64 → slice_index_or result k None ≡ last_raiser (k + 1) (raises_in phase.now lists.now.statuses) }
{
    let mut raisers = [None; FLAGS];
    for part in phase.parts.as_slice() {
        note_counted(&mut raisers, phase, lists, part);
    }
    raisers
}

// The member's part of a phase.
fn part_in(phase: &Phase, member: MemberId) -> Option<&Part>
    ensures { MatchOption result (part_in phase.now member ≡ None) (λ part. part_in phase.now member ≡ Some part.now) }
{
    for part in phase.parts.as_slice() {
        if part.member == member {
            return Some(part);
        }
    }
    None
}

/// The transactions that a member plays in a phase, and where it fails.
pub fn part_of(
    alloc: Global,
    phase: &Phase,
    member: MemberId,
) -> Result<(TranList, Option<FailAt>), NoMemory>
    ensures trans { IfOk result (λ r. r.0 ≡ trans_in (part_in phase.now member)) }
    ensures fail { IfOk result (λ r. r.1 ≡ fail_in (part_in phase.now member)) }
{
    match part_in(phase, member) {
        Some(part) => Ok((copy_trans(alloc, part.trans.as_slice())?, part.fail)),
        None => Ok((TranList::new(alloc), None)),
    }
}
