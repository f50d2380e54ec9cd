ghost use Rattle.std.specs.Prelude.{◌≡◌, ◌<◌, ◌-◌, ◌^◌, nat_le};
ghost use Rattle.script_text.specs.Indexes.{IsStep};
ghost use Rattle.script_text.specs.Drafts.{closed, is_first, is_one_too_many, may_fail, may_stand, may_stand_in, member_at, op_taken, open_ops, part_begun, part_of, phases_begun, restarted_at, start, step_end, step_fail, tran_begun};

use crate::limits::{OPS_LIMIT, PHASES_LIMIT, TRANS_LIMIT};
use ds_base::{Bytes, MemberId, NoMemory, Sequence};
use ds_model::{FailAt, FaultKind, Op, OpList, Part, PartList, Phase, PhaseList, Tran};
use script_line::{Keyword, LineError};
use std::alloc::Global;
use std::mem;

/// Where in a script a line stands.
#[derive(Debug, Drop)]
pub enum Place {
    /// In no phase.
    Outside,
    /// In a phase, before its first part.
    Phase {
        parts: PartList,
    },
    /// In a part, between transactions. The parts are those before it.
    Part {
        parts: PartList,
        part: Part,
    },
    /// In a transaction of a part.
    Tran {
        parts: PartList,
        part: Part,
        name: Bytes,
        wait: bool,
        ops: OpList,
    },
}

/// The script that was read so far.
#[derive(Debug, Drop)]
pub struct Draft {
    /// The phases that are ended.
    pub phases: PhaseList,
    /// How often the group fails before the open phase, or behind the last one where none is open.
    pub groupfails: u32,
    /// How many transactions have begun.
    pub count: u32,
    pub place: Place,
}

impl Draft {
    pub fn new(alloc: Global) -> Draft
        ensures { result ≡ start }
    {
        Draft {
            phases: Sequence::new(alloc),
            groupfails: 0,
            count: 0,
            place: Place::Outside,
        }
    }

    /// Whether a line of this kind may stand next.
    pub fn may_stand(&self, keyword: Keyword) -> bool
        ensures { result ≡ may_stand self.now.place keyword }
    {
        match &self.place {
            Place::Outside => matches!(keyword, Keyword::GroupFail | Keyword::Phase),
            Place::Phase { .. } => matches!(
                keyword,
                Keyword::GroupFail | Keyword::Phase | Keyword::Member
            ),
            Place::Part { part, .. } => may_stand_in_part(part, keyword),
            Place::Tran { .. } => matches!(keyword, Keyword::Operation | Keyword::End),
        }
    }

    /// Whether a line of this kind would begin more than a limit allows.
    pub fn is_one_too_many(&self, keyword: Keyword) -> bool
        ensures { result ≡ is_one_too_many self.now keyword }
    {
        match keyword {
            Keyword::Phase => self.has_all_phases(),
            Keyword::Tran => self.count >= TRANS_LIMIT,
            Keyword::Operation => self.open_ops() >= OPS_LIMIT,
            _ => false,
        }
    }

    // Whether no more phases may begin.
    #[tactic(auto, using(crate::proofs::Counts::with_open))]
    fn has_all_phases(&self) -> bool
        ensures { result ≡ nat_le 1024 (phases_begun self.now) }
    {
        match &self.place {
            Place::Outside => self.phases.len() >= PHASES_LIMIT,
            _ => self.phases.len() >= PHASES_LIMIT - 1,
        }
    }

    // How many operations the open transaction has.
    fn open_ops(&self) -> usize
        ensures { result ≡ open_ops self.now.place }
    {
        match &self.place {
            Place::Tran { ops, .. } => ops.len(),
            _ => 0,
        }
    }

    /// The member of the open part, between its transactions.
    pub fn playing(&self) -> Option<MemberId>
        ensures { result ≡ member_at self.now.place }
    {
        match &self.place {
            Place::Part { part, .. } => Some(part.member),
            _ => None,
        }
    }

    /// Whether the open transaction is the first of its part.
    pub fn is_first_tran(&self) -> bool
        ensures { result ≡ is_first self.now.place }
    {
        match &self.place {
            Place::Tran { part, .. } => part.trans.is_empty(),
            _ => false,
        }
    }
}

// Whether a line of this kind may stand in the part, between its transactions.
fn may_stand_in_part(part: &Part, keyword: Keyword) -> bool
    ensures { result ≡ may_stand_in part.now keyword }
{
    match keyword {
        Keyword::GroupFail | Keyword::Phase | Keyword::Member | Keyword::Tran => true,
        Keyword::Restart => !part.restart && may_fail(part),
        Keyword::Fail => may_fail(part),
        Keyword::Operation | Keyword::End => false,
    }
}

// Whether neither a fail line nor a transaction stands in the part.
fn may_fail(part: &Part) -> bool
    ensures { result ≡ may_fail part.now }
{
    part.fail.is_none() && part.trans.is_empty()
}

// A part of which no more than its first line was read.
fn part_of(alloc: Global, member: MemberId) -> Part
    ensures { result ≡ part_of member }
{
    Part {
        member,
        restart: false,
        fail: None,
        trans: Sequence::new(alloc),
    }
}

// What a line adds.
impl Draft {
    // Ends the phase that is open.
    pub fn close(&mut self) -> Result<(), LineError>
        ensures { IsStep (closed self.old) self.new result }
    {
        let parts = match mem::replace(&mut self.place, Place::Outside) {
            Place::Outside => return Ok(()),
            Place::Phase { parts } => parts,
            Place::Part { mut parts, part } => {
                parts.push(part)?;
                parts
            }
            Place::Tran { .. } => return Err(LineError::Fault(FaultKind::Word)),
        };
        let groupfails = mem::replace(&mut self.groupfails, 0);
        self.phases.push(Phase { groupfails, parts })?;
        Ok(())
    }

    pub fn begin_part(&mut self, alloc: Global, member: MemberId) -> Result<(), LineError>
        ensures { IsStep (part_begun self.old self.old.place member) self.new result }
    {
        let part = part_of(alloc, member);
        match mem::replace(&mut self.place, Place::Outside) {
            Place::Phase { parts } => {
                self.place = Place::Part { parts, part };
                Ok(())
            }
            Place::Part {
                mut parts,
                part: last,
            } => {
                parts.push(last)?;
                self.place = Place::Part { parts, part };
                Ok(())
            }
            _ => Err(LineError::Fault(FaultKind::Word)),
        }
    }

    // The open part restarts.
    pub fn restart(&mut self) -> Result<(), LineError>
        ensures { IsStep (restarted_at self.old self.old.place) self.new result }
    {
        match &mut self.place {
            Place::Part { part, .. } => {
                part.restart = true;
                Ok(())
            }
            _ => Err(LineError::Fault(FaultKind::Word)),
        }
    }

    // The open part fails.
    pub fn fail(&mut self, at: FailAt) -> Result<(), LineError>
        ensures { IsStep (step_fail self.old at) self.new result }
    {
        match &mut self.place {
            Place::Part { part, .. } => {
                part.fail = Some(at);
                Ok(())
            }
            _ => Err(LineError::Fault(FaultKind::Word)),
        }
    }

    pub fn begin_tran(&mut self, alloc: Global, name: Bytes, wait: bool) -> Result<(), LineError>
        requires { self.old.count < 2 ^ 32 - 1 }
        ensures { IsStep (tran_begun self.old self.old.place name wait) self.new result }
    {
        match mem::replace(&mut self.place, Place::Outside) {
            Place::Part { parts, part } => {
                self.count += 1;
                self.place = Place::Tran {
                    parts,
                    part,
                    name,
                    wait,
                    ops: Sequence::new(alloc),
                };
                Ok(())
            }
            _ => Err(LineError::Fault(FaultKind::Word)),
        }
    }

    pub fn take_op(&mut self, op: Op) -> Result<(), LineError>
        ensures { IsStep (op_taken self.old self.old.place op) self.new result }
    {
        match &mut self.place {
            Place::Tran { ops, .. } => {
                ops.push(op)?;
                Ok(())
            }
            _ => Err(LineError::Fault(FaultKind::Word)),
        }
    }

    pub fn end_tran(&mut self) -> Result<(), LineError>
        ensures { IsStep (step_end self.old) self.new result }
    {
        match mem::replace(&mut self.place, Place::Outside) {
            Place::Tran {
                parts,
                mut part,
                name,
                wait,
                ops,
            } => {
                part.trans.push(Tran {
                    name,
                    number: self.count,
                    wait,
                    ops,
                })?;
                self.place = Place::Part { parts, part };
                Ok(())
            }
            _ => Err(LineError::Fault(FaultKind::Word)),
        }
    }
}
