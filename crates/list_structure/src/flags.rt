//! The flags of a phase, by which transactions wait for one another.
ghost use Rattle.std.specs.Prelude.{◌≡◌, ◌≤◌, ◌==◌, map, length, replicate, IfOk, false, ℕ};
ghost use Rattle.std.specs.Option.{option_map_or};
ghost use Rattle.list_structure.specs.Flags.{same_tran, no_flag, flag_of, with_raised, flag_for, raised_by, raised_for};

use crate::copies::{copies, fill};
use ds_base::{MemberId, NoMemory, TranId};
use std::alloc::Global;
use std::marker::Model;

/// How many flags a phase has.
const FLAGS: usize = 64;

/// A flag of a phase.
#[derive(Clone, Copy, Debug, PartialEq, Eq)]
pub struct Flag {
    pub raised: bool,
    /// The transaction that is to raise it.
    pub raiser: Option<TranId>,
}

impl Flag {
    // A flag of no phase.
    fn none() -> Flag
        ensures { result ≡ no_flag }
    {
        Flag {
            raised: false,
            raiser: None,
        }
    }

    // The flag as a phase begins.
    fn to_be_raised(raiser: Option<TranId>) -> Flag
        ensures { result ≡ flag_for raiser }
    {
        Flag {
            raised: raiser.is_none(),
            raiser,
        }
    }

    // The flag after the end of a transaction.
    fn after_end(self, tran: &TranId) -> Flag
        ensures { result ≡ raised_by tran.now self }
    {
        let raised = self.raised || is_tran(self.raiser, tran);
        Flag { raised, ..self }
    }

    // The flag after a failure of a member.
    fn after_failure(self, member: MemberId) -> Flag
        ensures { result ≡ raised_for member self }
    {
        let raised = self.raised || is_of_member(self.raiser, member);
        Flag { raised, ..self }
    }
}

fn is_tran(raiser: Option<TranId>, tran: &TranId) -> bool
    ensures { result ≡ option_map_or (same_tran tran.now) raiser false }
{
    match raiser {
        Some(raiser) => *tran == raiser,
        None => false,
    }
}

fn is_of_member(raiser: Option<TranId>, member: MemberId) -> bool
    ensures { result ≡ option_map_or (λ tran. member == tran.member) raiser false }
{
    match raiser {
        Some(raiser) => member == raiser.member,
        None => false,
    }
}

/// The 64 flags of a phase, by number from 1.
#[derive(Drop)]
pub struct Flags {
    flags: Vec<Flag>,
}

impl Model for Flags {
    ghost use Rattle.std.specs.Prelude.{◌≡◌, List, length};
    ghost use Rattle.list_structure.specs.declared.flags.Flag.{Flag};

    ghost Value = { List Flag };

    ghost view = { λ f. f.flags.items };

    ghost invariant = { λ f. length f.flags.items ≡ 64 };
}

impl Flags {
    /// Flags of no phase.
    pub fn new(alloc: Global) -> Result<Flags, NoMemory>
        ensures each { IfOk result (λ flags. (f : ℕ) → flag_of flags f ≡ no_flag) }
        ensures all { IfOk result (λ flags. flags ≡ replicate 64 no_flag) }
    {
        Ok(Flags {
            flags: copies(alloc, Flag::none(), FLAGS)?,
        })
    }

    /// Makes all flags those of no phase.
    pub fn clear(&mut self)
        ensures each { (f : ℕ) → flag_of self.new f ≡ no_flag }
        ensures all { self.new ≡ replicate 64 no_flag }
    {
        fill(self.flags.as_mut_slice(), Flag::none());
    }

    /// Makes the flags those of a new phase.
    pub fn begin_phase(&mut self, raisers: &[Option<TranId>])
        requires { length raisers.now ≡ 64 }
        ensures { self.new ≡ map flag_for raisers.now }
    {
        begin_all(self.flags.as_mut_slice(), raisers);
    }

    pub fn is_raised(&self, flag: u8) -> bool
        requires first { 1 ≤ flag }
        requires last { flag ≤ 64 }
        ensures { result ≡ (flag_of self.now flag).raised }
    {
        self.flags[flag as usize - 1].raised
    }

    pub fn raise(&mut self, flag: u8)
        requires first { 1 ≤ flag }
        requires last { flag ≤ 64 }
        ensures { self.new ≡ with_raised self.old flag }
    {
        let place = flag as usize - 1;
        let flag = self.flags[place];
        self.flags[place] = Flag {
            raised: true,
            ..flag
        };
    }

    /// Raises the flags that the transaction was to raise.
    pub fn end_tran(&mut self, tran: TranId)
        ensures { self.new ≡ map (raised_by tran) self.old }
    {
        end_in_all(self.flags.as_mut_slice(), &tran);
    }

    /// Raises the flags that transactions of the member were to raise.
    pub fn fail_member(&mut self, member: MemberId)
        ensures { self.new ≡ map (raised_for member) self.old }
    {
        fail_in_all(self.flags.as_mut_slice(), member);
    }
}

fn begin_all(flags: &mut [Flag], raisers: &[Option<TranId>])
    requires { length flags.old ≡ length raisers.now }
    ensures { flags.new ≡ map flag_for raisers.now }
{
    for place in 0..raisers.len() {
        flags[place] = Flag::to_be_raised(raisers[place]);
    }
}

fn end_in_all(flags: &mut [Flag], tran: &TranId)
    ensures { flags.new ≡ map (raised_by tran.now) flags.old }
{
    for flag in flags.iter_mut() {
        *flag = flag.after_end(tran);
    }
}

fn fail_in_all(flags: &mut [Flag], member: MemberId)
    ensures { flags.new ≡ map (raised_for member) flags.old }
{
    for flag in flags.iter_mut() {
        *flag = flag.after_failure(member);
    }
}
