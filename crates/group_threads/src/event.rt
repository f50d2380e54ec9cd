//! One event of one member.

ghost use Rattle.std.specs.Prelude.{◌≡◌, ◌≤◌, ◌/◌, ◌&&◌, ℕ, true, false, not, None, Some, Err, is_some, length, IfOk, OnOk};
ghost use Rattle.ds_base.specs.Causes.{Rose};
ghost use Rattle.group_member.specs.declared.fault.EventFault.TheVariants as faults;
ghost use Rattle.group_core.specs.Given.{unlooked};
ghost use Rattle.group_core.specs.Takes.{is_read, world_of};
ghost use Rattle.choice_bits.specs.Choices.{has_choice};
ghost use Rattle.group_member.specs.Happening.{Comes};
ghost use Rattle.group_member.specs.Members.{member_of};
ghost use Rattle.group_member.specs.Refusing.{IsRefused};
ghost use Rattle.group_member.specs.Stepping.{has_failed};
ghost use Rattle.group_threads.specs.Happening.{Concerns, Leaves, TakesAlone};

use crate::hand::Hand;
use crate::look::are_all_done;
use crate::members::Members;
use crate::shared::Shared;
use cache_structure::CacheFace;
use ds_base::NoMemory;
use ds_disk::Disk;
use facility::Command;
use group_core::{
    Crew, Group, Policy, RunFault, command_of, note, note_failure, note_silent, reserve,
    stepped_line,
};
use group_member::{EventFault, MemberPart, Stepped, has_choice, step_one};
use member_intents::Intent;
use std::alloc::Global;
use turn_gate::Look;
use turn_story::Stepping;

// The member's step over the facility and the disk.
fn step_at<D: Disk, C: CacheFace, P: Policy>(
    alloc: Global,
    part: &mut MemberPart<P>,
    crew: &mut Crew<C, P>,
    disk: &mut D,
    choice: u64,
    place: u64,
) -> Result<Stepped, EventFault>
    ensures comes { IfOk result (λ stepped. Comes crew.old.script crew.old.progress.begun crew.old.sizes.sizes choice (member_of part.old) (world_of C.directory D.alive D.contents crew.old.facility disk.old) crew.old.fates place stepped (member_of part.new) (world_of C.directory D.alive D.contents crew.new.facility disk.new) crew.new.fates) }
    ensures unlawful { result ≡ Err faults.Unlawful → IsRefused (member_of part.old) (world_of C.directory D.alive D.contents crew.old.facility disk.old) place (world_of C.directory D.alive D.contents crew.new.facility disk.new) }
    ensures known { part.new.known ≡ part.old.known }
    ensures later { D.faults disk.old ≤ D.faults disk.new }
    ensures failed { IfOk result (λ stepped. has_failed stepped ≡ true → Rose (D.faults disk.old) (D.faults disk.new)) }
    ensures rest { crew.new ≡ record crew.old { facility = crew.new.facility; fates = crew.new.fates } }
{
    step_one(
        alloc,
        part,
        &mut crew.facility,
        disk,
        &mut crew.fates,
        &crew.script,
        crew.progress.begun,
        &crew.sizes,
        choice,
        place,
    )
}

// The member's step in its group.
fn step_in<D: Disk, C: CacheFace, P: Policy>(
    alloc: Global,
    part: &mut MemberPart<P>,
    group: &mut Group<D, C, P>,
    choice: u64,
    place: u64,
) -> Result<Stepped, EventFault>
    ensures comes { IfOk result (λ stepped. Comes group.old.crew.script group.old.crew.progress.begun group.old.crew.sizes.sizes choice (member_of part.old) (world_of C.directory D.alive D.contents group.old.crew.facility group.old.disk) group.old.crew.fates place stepped (member_of part.new) (world_of C.directory D.alive D.contents group.new.crew.facility group.new.disk) group.new.crew.fates) }
    ensures unlawful { result ≡ Err faults.Unlawful → IsRefused (member_of part.old) (world_of C.directory D.alive D.contents group.old.crew.facility group.old.disk) place (world_of C.directory D.alive D.contents group.new.crew.facility group.new.disk) }
    ensures known { part.new.known ≡ part.old.known }
    ensures later { D.faults group.old.disk ≤ D.faults group.new.disk }
    ensures failed { IfOk result (λ stepped. has_failed stepped ≡ true → Rose (D.faults group.old.disk) (D.faults group.new.disk)) }
    ensures rest { group.new ≡ record group.old { disk = group.new.disk; crew = record group.old.crew { facility = group.new.crew.facility; fates = group.new.crew.fates } } }
{
    step_at(alloc, part, &mut group.crew, &mut group.disk, choice, place)
}

// The bit of the choice, where it has asked for answers, and wants to ask again.
fn asks<P: Policy>(part: &MemberPart<P>, choice: u64, stepped: &Stepped) -> u32 {
    let has_asked = matches!(command_of(stepped), Some(Command::Answers { .. }));
    if has_asked && matches!(part.intent(choice), Intent::Answers { .. }) {
        1 << (choice % 32)
    } else {
        0
    }
}

// What an event may change for all members: the bell, and whether the cache is lost.
#[derive(Clone, Copy, Debug, PartialEq, Eq)]
struct Seen {
    bell: u64,
    is_lost: bool,
}

impl<D, C, P> Shared<D, C, P> {
    // Whether the member's event is taken.
    fn is_taken(&self, part: &MemberPart<P>, event: u64) -> bool
        ensures { result ≡ (not (is_some self.now.group.fault) && (not (is_some self.now.group.crew.restart) && has_choice part.now.ready (event / 64))) }
    {
        self.group.fault.is_none()
            && self.group.crew.restart.is_none()
            && has_choice(part.ready, event / 64)
    }
}

impl<D: Disk, C: CacheFace, P: Policy> Shared<D, C, P> {
    fn seen(&self, part: &MemberPart<P>) -> Seen {
        Seen {
            bell: self.group.crew.facility.bell(part.id),
            is_lost: self.group.crew.facility.lost(),
        }
    }

    // What is seen for all members has changed.
    fn concern_all(&mut self)
        ensures { Concerns self.old self.new }
    {
        let crew = &mut self.group.crew;
        crew.was_half = crew.is_half();
        crew.progress.is_idle = are_all_done(&crew.facility, self.count);
        self.stale = Members::all();
    }

    // Whom the event concerns is to be looked at again. Answers of whom something may be ready that wasn't before.
    fn concern(&mut self, part: &MemberPart<P>, stepped: &Stepped, before: Seen) -> Members
        ensures { Concerns self.old self.new }
    {
        let command = command_of(stepped);
        let seen = self.seen(part);
        let is_half = self.group.crew.is_half();
        if seen.is_lost != before.is_lost || is_half != self.group.crew.was_half {
            self.concern_all();
            return Members::all();
        }
        if seen.bell != before.bell {
            self.concern_all();
            return self.listening;
        }
        match command {
            Some(Command::Grant { .. }) => {
                self.stale = Members::all();
                Members::none()
            }
            Some(Command::Ask { to, .. }) => {
                self.stale.join(Members::one(*to));
                Members::one(*to)
            }
            Some(Command::Answer { asker, .. }) => Members::one(asker.member),
            _ => Members::none(),
        }
    }

    // The member's step, and whom it concerns.
    fn step(
        &mut self,
        alloc: Global,
        hand: &mut Hand<P>,
        choice: u64,
        place: u64,
    ) -> Result<Stepped, EventFault>
        ensures comes { IfOk result (λ stepped. Comes self.old.group.crew.script self.old.group.crew.progress.begun self.old.group.crew.sizes.sizes choice (member_of hand.old.part) (world_of C.directory D.alive D.contents self.old.group.crew.facility self.old.group.disk) self.old.group.crew.fates place stepped (member_of hand.new.part) (world_of C.directory D.alive D.contents self.new.group.crew.facility self.new.group.disk) self.new.group.crew.fates) }
        ensures unlawful { result ≡ Err faults.Unlawful → IsRefused (member_of hand.old.part) (world_of C.directory D.alive D.contents self.old.group.crew.facility self.old.group.disk) place (world_of C.directory D.alive D.contents self.new.group.crew.facility self.new.group.disk) }
        ensures known { hand.new.part.known ≡ hand.old.part.known }
        ensures later { D.faults self.old.group.disk ≤ D.faults self.new.group.disk }
        ensures failed { IfOk result (λ stepped. has_failed stepped ≡ true → Rose (D.faults self.old.group.disk) (D.faults self.new.group.disk)) }
        ensures rest { Leaves self.old self.new }
    {
        let before = self.seen(&hand.part);
        let stepped = step_in(alloc, &mut hand.part, &mut self.group, choice, place)?;
        hand.concerned = self.concern(&hand.part, &stepped, before);
        hand.asks = asks(&hand.part, choice, &stepped);
        Ok(stepped)
    }

    // Enters what the member's event was, and finds again what is ready of it.
    fn enter(&mut self, part: &mut MemberPart<P>, event: u64, place: u64, stepped: &Stepped)
        ensures shared { self.new ≡ record self.old { group = record self.old.group { lines = self.new.group.lines; fault = self.new.group.fault }; stale = self.new.stale; listening = self.new.listening } }
        ensures read { is_read self.new.group.fault ≡ true }
        ensures part { unlooked part.new ≡ unlooked part.old }
    {
        note(&mut self.group.lines, stepped_line(place, event, stepped));
        self.group.fault = match part.damage() {
            Some((volume, at)) => Some(RunFault::Damaged { volume, at }),
            None => None,
        };
        self.refresh(part);
        self.find_listening(part);
    }

    // Takes the event, if it is ready. Answers whether a call of the disk has failed.
    fn take(
        &mut self,
        alloc: Global,
        hand: &mut Hand<P>,
        event: u64,
        place: u64,
    ) -> Result<bool, NoMemory>
        ensures takes { IfOk result (TakesAlone C.directory D.alive D.contents self.old hand.old.part event place self.new hand.new.part) }
        ensures later { D.faults self.old.group.disk ≤ D.faults self.new.group.disk }
        ensures rose { IfOk result (λ failed. failed ≡ true → Rose (D.faults self.old.group.disk) (D.faults self.new.group.disk)) }
        ensures kept { (self.new.group.journal ≡ self.old.group.journal) × (self.new.group.faults ≡ self.old.group.faults) }
    {
        if !self.is_taken(&hand.part, event) {
            note_silent(&mut self.group.lines, place, event);
            return Ok(false);
        }
        match self.step(alloc, hand, event / 64, place) {
            Err(EventFault::NoMemory) => Err(NoMemory),
            Err(EventFault::Unlawful) => {
                self.group.fault = Some(RunFault::Unlawful { place });
                Ok(false)
            }
            Ok(stepped) => {
                self.enter(&mut hand.part, event, place, &stepped);
                Ok(stepped.has_failed())
            }
        }
    }
}

impl<D: Disk, C: CacheFace, P: Policy> Stepping for Shared<D, C, P> {
    type Part = Hand<P>;

    ghost use Rattle.std.specs.Prelude.{◌%◌};
    ghost use Rattle.group_threads.specs.Wholes.{LooksHand, StepsHand};

    ghost caller = { λ event. event % 64 };

    ghost steps = { StepsHand C.directory D.alive D.contents D.faults };

    ghost looks = { LooksHand };

    ghost tally = { λ shared. D.faults shared.group.disk };

    /// Takes the event's number into the journal, then the event, and its place where a call of the disk has failed.
    fn run(&mut self, alloc: Global, hand: &mut Hand<P>, event: u64) -> Result<(), NoMemory> {
        let group = &mut self.group;
        reserve(&mut group.journal, &mut group.faults, &mut group.lines)?;
        group.journal.push_reserved(event);
        let place = group.journal.len() as u64;
        hand.concerned = Members::none();
        hand.asks = 0;
        self.refresh(&mut hand.part);
        let failed = self.take(alloc, hand, event, place)?;
        note_failure(&mut self.group.faults, place, failed);
        Ok(())
    }

    fn look(&self, hand: &Hand<P>, from: u64) -> Look {
        self.find_event(hand, from)
    }
}
