//! The room for a group that is taken apart, which is kept from phase to phase.
ghost use Rattle.std.specs.Prelude.{◌≡◌, ◌≤◌, [], length, map, vec_capacity, reverse, IfOk};
ghost use Rattle.group_core.specs.Given.{unlooked};
ghost use Rattle.group_threads.specs.Wholes.{parts_in};

use crate::hand::Hand;
use crate::members::Members;
use ds_base::NoMemory;
use group_member::MemberPart;
use std::alloc::Global;
use std::marker::Model;
use std::mem;
use turn_gate::{Bed, Laid};

/// The room for the members of a group while they are out: a place for each one's hand, and the list of hands. Contracts see for how
/// many members it is.
#[derive(Drop)]
pub struct Rack<P> {
    beds: Vec<Bed<Hand<P>>>,
    hands: Vec<Laid<Hand<P>>>,
    // What stands in the group while the list of its members is out.
    none: Vec<MemberPart<P>>,
}

/// What is left of a rack whose hands are out: the lists from which the members and the places came. Contracts see for how many
/// members it is.
#[derive(Drop)]
pub struct Room<P> {
    parts: Vec<MemberPart<P>>,
    beds: Vec<Bed<Hand<P>>>,
}

impl<P> Model for Rack<P> {
    ghost use Rattle.std.specs.Prelude.{ℕ, ◌≡◌, ◌≤◌, [], length, vec_capacity};

    ghost Value = { ℕ };

    ghost view = { λ r. length r.beds.items };

    ghost invariant = { λ r. (r.hands.items ≡ []) × (length r.beds.items ≤ vec_capacity r.hands) };
}

impl<P> Model for Room<P> {
    ghost use Rattle.std.specs.Prelude.{ℕ, ◌≡◌, [], min, vec_capacity};

    ghost Value = { ℕ };

    ghost view = { λ r. min (vec_capacity r.parts) (vec_capacity r.beds) };

    ghost invariant = { λ r. (r.parts.items ≡ []) × (r.beds.items ≡ []) };
}

// Lays each member in a hand down in a place, the last one first. The lists of members and of places are left empty, with their room.
fn lay_all<P>(
    parts: &mut Vec<MemberPart<P>>,
    beds: &mut Vec<Bed<Hand<P>>>,
    hands: &mut Vec<Laid<Hand<P>>>,
)
    requires count { length beds.old.items ≡ length parts.old.items }
    requires room { (hands.old.items ≡ []) × (length parts.old.items ≤ vec_capacity hands.old) }
    ensures hands { parts_in (reverse hands.new.items) ≡ parts.old.items }
    ensures parts { (parts.new.items ≡ []) × (vec_capacity parts.new ≡ vec_capacity parts.old) }
    ensures beds { (beds.new.items ≡ []) × (vec_capacity beds.new ≡ vec_capacity beds.old) }
{
    while let Some(part) = parts.pop() {
        let Some(bed) = beds.pop() else {
            unreachable!()
        };
        hands.push_reserved(bed.lay(Hand {
            part,
            concerned: Members::none(),
            asks: 0,
        }));
    }
}

// Lifts each hand and takes its member, the last one first. What is ready of them has to be found again. The list of hands is left
// empty, with its room.
fn lift_all<P>(
    hands: &mut Vec<Laid<Hand<P>>>,
    parts: &mut Vec<MemberPart<P>>,
    beds: &mut Vec<Bed<Hand<P>>>,
)
    requires parts { (parts.old.items ≡ []) × (length hands.old.items ≤ vec_capacity parts.old) }
    requires beds { (beds.old.items ≡ []) × (length hands.old.items ≤ vec_capacity beds.old) }
    ensures parts { map unlooked parts.new.items ≡ map unlooked (parts_in (reverse hands.old.items)) }
    ensures beds { length beds.new.items ≡ length hands.old.items }
    ensures hands { (hands.new.items ≡ []) × (vec_capacity hands.new ≡ vec_capacity hands.old) }
{
    while let Some(hand) = hands.pop() {
        let (hand, bed) = hand.lift();
        let Hand {
            mut part,
            concerned: _,
            asks: _,
        } = hand;
        part.is_stale = true;
        parts.push_reserved(part);
        beds.push_reserved(bed);
    }
}

impl<P: Drop> Rack<P> {
    /// Room for so many members.
    pub fn new(alloc: Global, count: usize) -> Result<Rack<P>, NoMemory>
        ensures { IfOk result (λ rack. rack ≡ count) }
    {
        let hands = Vec::with_capacity(alloc, count)?;
        let mut beds = Vec::with_capacity(alloc, count)?;
        for _ in 0..count {
            beds.push_reserved(Bed::new(alloc)?);
        }
        Ok(Rack {
            beds,
            hands,
            none: Vec::new(alloc),
        })
    }
}

impl<P> Rack<P> {
    /// Room for nobody, which takes no memory.
    pub fn empty(alloc: Global) -> Rack<P>
        ensures { result ≡ 0 }
    {
        Rack {
            beds: Vec::new(alloc),
            hands: Vec::new(alloc),
            none: Vec::new(alloc),
        }
    }

    /// For how many members it is.
    pub fn count(&self) -> usize
        ensures { result ≡ self.now }
    {
        self.beds.len()
    }

    /// Gives each of the members to a hand, the first one to the first. In place of their list one with no member is left.
    pub fn hand_out(self, members: &mut Vec<MemberPart<P>>) -> (Vec<Laid<Hand<P>>>, Room<P>)
        requires { length members.old.items ≡ self }
        ensures hands { parts_in result.0.items ≡ members.old.items }
        ensures count { length result.0.items ≡ self }
        ensures room { length result.0.items ≤ result.1 }
    {
        let Rack {
            mut beds,
            mut hands,
            none,
        } = self;
        let mut parts = mem::replace(members, none);
        lay_all(&mut parts, &mut beds, &mut hands);
        hands.reverse();
        (hands, Room { parts, beds })
    }
}

impl<P> Room<P> {
    /// Takes the members back out of these hands, for what stood in place of their list. What is ready of them has to be found again.
    pub fn take_back(
        self,
        mut hands: Vec<Laid<Hand<P>>>,
        none: Vec<MemberPart<P>>,
    ) -> (Vec<MemberPart<P>>, Rack<P>)
        requires { length hands.items ≤ self }
        ensures parts { map unlooked result.0.items ≡ map unlooked (parts_in hands.items) }
        ensures rack { result.1 ≡ length hands.items }
    {
        let Room {
            mut parts,
            mut beds,
        } = self;
        hands.reverse();
        lift_all(&mut hands, &mut parts, &mut beds);
        (parts, Rack { beds, hands, none })
    }
}
