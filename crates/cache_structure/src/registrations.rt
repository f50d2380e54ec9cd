ghost use Rattle.std.specs.Prelude.{◌≡◌, ◌==◌, ◌&&◌, ℕ, ◌<◌, ◌≤◌, ◌^◌, ◌-◌, length, slice_set, cond, Some, None, IfOk};
ghost use Rattle.cache_structure.specs.Bound.{IsBound, place_of, slot_of, spot, renewed, time_of, unless_at, valid_from, valid_since, with_place};

use crate::validity::{Registration, Validity};
use ds_base::{MemberId, NoMemory};
use std::alloc::Global;
use std::marker::Model;

/// How many members a group may have.
const MEMBERS: usize = 32;

/// The slot with whose page each frame of each member is registered.
///
/// What a write invalidates is not looked for: a registration is valid while its time isn't before that of its slot.
/// Only where the time is at the end of its 64 bits, all frames are walked, and it begins anew.
#[derive(Drop)]
pub struct Registrations {
    frames: u16,
    places: Vec<Option<Registration>>,
    validities: Vec<Validity>,
    clock: u64,
}

impl Model for Registrations {
    ghost use Rattle.cache_structure.specs.Bound.{Bound, IsBound};

    ghost Value = { Bound };

    ghost view = { λ r. record { frames = r.frames; places = r.places.items; validities = r.validities.items; clock = r.clock } };

    ghost invariant = { λ r. IsBound (record { frames = r.frames; places = r.places.items; validities = r.validities.items; clock = r.clock }) };
}

impl Registrations {
    /// No frame is registered.
    pub fn new(alloc: Global, frames: u16, slots: u32) -> Result<Registrations, NoMemory>
        ensures frames { IfOk result (λ all. all.frames ≡ frames) }
        ensures slots { IfOk result (λ all. length all.validities ≡ slots) }
        ensures none { IfOk result (λ all. (m i : ℕ) → slot_of all m i ≡ None) }
    {
        Ok(Registrations {
            frames,
            places: vec![in alloc; None; MEMBERS * frames as usize]?,
            validities: vec![in alloc; Validity::always(); slots as usize]?,
            clock: 0,
        })
    }

    /// How many frames each member has.
    pub fn frames(&self) -> u16
        ensures { result ≡ self.now.frames }
    {
        self.frames
    }

    /// The slot with whose page a frame is registered.
    pub fn slot_of(&self, member: MemberId, index: u16) -> Option<u32>
        requires { index < self.now.frames }
        ensures { result ≡ slot_of self.now member index }
    {
        let registration = self.places[spot_of(member, index)]?;
        if self.valid_since(registration.slot, member) <= registration.time {
            Some(registration.slot)
        } else {
            None
        }
    }

    /// Registers a frame with the page of a slot.
    pub fn register(&mut self, member: MemberId, index: u16, slot: u32)
        requires { index < self.old.frames }
        ensures others { self.new ≡ record self.old { places = self.new.places } }
        ensures at { (m i : ℕ) → slot_of self.new m i ≡ with_place (slot_of self.old) member index (Some slot) m i }
    {
        let registration = Registration {
            slot,
            time: self.clock,
        };
        self.put(member, index, Some(registration));
    }

    /// Drops the registration of a frame.
    pub fn unregister(&mut self, member: MemberId, index: u16)
        requires { index < self.old.frames }
        ensures others { self.new ≡ record self.old { places = self.new.places } }
        ensures at { (m i : ℕ) → slot_of self.new m i ≡ with_place (slot_of self.old) member index None m i }
    {
        self.put(member, index, None);
    }

    /// Drops the registrations of all frames with the page of a slot.
    pub fn drop_slot(&mut self, slot: u32)
        requires { slot < length self.old.validities }
        ensures frames { self.new.frames ≡ self.old.frames }
        ensures slots { length self.new.validities ≡ length self.old.validities }
        ensures at { (m i : ℕ) → slot_of self.new m i ≡ unless_at slot (slot_of self.old m i) }
    {
        self.advance();
        let writer = MemberId::new(1).unwrap();
        let now = self.clock;
        self.validities[slot as usize] = Validity {
            writer,
            own: now,
            others: now,
        };
    }

    /// Drops the registrations of all other members' frames with the page of a slot.
    pub fn drop_slot_of_others(&mut self, member: MemberId, slot: u32)
        requires { slot < length self.old.validities }
        ensures frames { self.new.frames ≡ self.old.frames }
        ensures slots { length self.new.validities ≡ length self.old.validities }
        ensures at { (m i : ℕ) → slot_of self.new m i ≡ cond (m == member) (slot_of self.old m i) (unless_at slot (slot_of self.old m i)) }
    {
        self.advance();
        let own = self.valid_since(slot, member);
        self.validities[slot as usize] = Validity {
            writer: member,
            own,
            others: self.clock,
        };
    }

    /// Drops all registrations of a member.
    pub fn drop_member(&mut self, member: MemberId)
        ensures others { self.new ≡ record self.old { places = self.new.places } }
        ensures at { (m i : ℕ) → slot_of self.new m i ≡ cond (m == member) None (slot_of self.old m i) }
    {
        for index in 0..self.frames {
            self.put(member, index, None);
        }
    }

    /// Drops all registrations.
    pub fn clear(&mut self)
        ensures others { self.new ≡ record self.old { places = self.new.places } }
        ensures at { (m i : ℕ) → slot_of self.new m i ≡ None }
    {
        self.places.fill(None);
    }

    // The time from which on a member's registrations with the page of a slot are valid.
    fn valid_since(&self, slot: u32, member: MemberId) -> u64
        ensures { result ≡ valid_since self.now.validities slot member }
    {
        match self.validities.get(slot as usize) {
            Some(validity) => validity.valid_from(member),
            None => 0,
        }
    }

    // The present time is later than that of each registration.
    fn advance(&mut self)
        ensures frames { self.new.frames ≡ self.old.frames }
        ensures slots { length self.new.validities ≡ length self.old.validities }
        ensures at { (m i : ℕ) → slot_of self.new m i ≡ slot_of self.old m i }
        ensures past { (m i : ℕ) → time_of (place_of self.new m i) < self.new.clock }
    {
        self.keep_time();
        self.clock += 1;
    }

    // Begins the time anew, if it is at its end.
    fn keep_time(&mut self)
        ensures frames { self.new.frames ≡ self.old.frames }
        ensures slots { length self.new.validities ≡ length self.old.validities }
        ensures at { (m i : ℕ) → slot_of self.new m i ≡ slot_of self.old m i }
        ensures clock { self.new.clock < 2 ^ 64 - 1 }
    {
        if self.clock == u64::MAX {
            self.renew();
        }
    }

    // Begins the time anew, as if all valid registrations had been made at its beginning.
    fn renew(&mut self)
        ensures frames { self.new.frames ≡ self.old.frames }
        ensures slots { length self.new.validities ≡ length self.old.validities }
        ensures at { (m i : ℕ) → slot_of self.new m i ≡ slot_of self.old m i }
        ensures clock { self.new.clock ≡ 0 }
    {
        self.renew_all();
        self.validities.fill(Validity::always());
        self.clock = 0;
    }

    fn renew_all(&mut self)
        ensures others { self.new ≡ record self.old { places = self.new.places } }
        ensures at { (m i : ℕ) → place_of self.new m i ≡ renewed (slot_of self.old m i) }
    {
        for seat in 0..32u64 {
            let member = MemberId::new(seat + 1).unwrap();
            self.renew_member(member);
        }
    }

    fn renew_member(&mut self, member: MemberId)
        ensures others { self.new ≡ record self.old { places = self.new.places } }
        ensures at { (m i : ℕ) → place_of self.new m i ≡ cond (m == member) (renewed (slot_of self.old m i)) (place_of self.old m i) }
    {
        for index in 0..self.frames {
            self.renew_frame(member, index);
        }
    }

    fn renew_frame(&mut self, member: MemberId, index: u16)
        requires { index < self.old.frames }
        ensures others { self.new ≡ record self.old { places = self.new.places } }
        ensures at { (m i : ℕ) → place_of self.new m i ≡ with_place (place_of self.old) member index (renewed (slot_of self.old member index)) m i }
    {
        let registration = self
            .slot_of(member, index)
            .map(|slot| Registration { slot, time: 0 });
        self.put(member, index, registration);
    }

    fn put(&mut self, member: MemberId, index: u16, registration: Option<Registration>)
        requires index { index < self.old.frames }
        requires time { time_of registration ≤ self.old.clock }
        ensures others { self.new ≡ record self.old { places = self.new.places } }
        ensures at { (m i : ℕ) → place_of self.new m i ≡ with_place (place_of self.old) member index registration m i }
    {
        self.places[spot_of(member, index)] = registration;
    }
}

// Where a member's frame stands.
fn spot_of(member: MemberId, index: u16) -> usize
    ensures { result ≡ spot member index }
{
    MEMBERS * index as usize + (member.number() as usize - 1)
}
