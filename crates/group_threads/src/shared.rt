ghost use Rattle.std.specs.Prelude.{◌≡◌, ◌≤◌, length, map};
ghost use Rattle.group_core.specs.Given.{unlooked};
ghost use Rattle.group_threads.specs.Wholes.{parts_in};

use crate::hand::Hand;
use crate::members::Members;
use crate::rack::{Rack, Room};
use group_core::{Crew, Group};
use turn_gate::Laid;

/// What the members of a group share.
#[derive(Drop)]
pub struct Shared<D, C, P> {
    /// Its members are out.
    pub group: Group<D, C, P>,
    /// How many are out.
    pub count: usize,
    /// Of whom what is ready has to be found again.
    pub stale: Members,
    /// Of whom something may be ready once the bells have rung.
    pub listening: Members,
}

/// A group that is taken apart: what its members share, each member in the hand of its thread, and what is left of the rack.
#[derive(Drop)]
pub struct Apart<D, C, P> {
    pub shared: Shared<D, C, P>,
    pub hands: Vec<Laid<Hand<P>>>,
    pub room: Room<P>,
}

/// Takes a group apart, for whose members the rack has room: the first member's hand is the first. It takes no memory.
pub fn take_apart<D, C, P>(mut group: Group<D, C, P>, rack: Rack<P>) -> Apart<D, C, P>
    requires { length group.crew.parts.items ≡ rack }
    ensures shared { result.shared.group ≡ record group { crew = record group.crew { parts = result.shared.group.crew.parts } } }
    ensures hands { parts_in result.hands.items ≡ group.crew.parts.items }
    ensures count { length result.hands.items ≡ rack }
    ensures room { length result.hands.items ≤ result.room }
{
    let count = group.crew.parts.len();
    let (hands, room) = rack.hand_out(&mut group.crew.parts);
    let shared = Shared {
        group,
        count,
        stale: Members::all(),
        listening: Members::all(),
    };
    Apart {
        shared,
        hands,
        room,
    }
}

/// Puts a group together again, and gives the rack back. It takes no memory.
pub fn put_together<D, C, P>(
    shared: Shared<D, C, P>,
    hands: Vec<Laid<Hand<P>>>,
    room: Room<P>,
) -> (Group<D, C, P>, Rack<P>)
    requires { length hands.items ≤ room }
    ensures rest { result.0 ≡ record shared.group { crew = record shared.group.crew { parts = result.0.crew.parts } } }
    ensures parts { map unlooked result.0.crew.parts.items ≡ map unlooked (parts_in hands.items) }
    ensures rack { result.1 ≡ length hands.items }
{
    let Shared {
        group,
        count: _,
        stale: _,
        listening: _,
    } = shared;
    let Group {
        disk,
        crew,
        journal,
        lines,
        faults,
        fault,
    } = group;
    let Crew {
        facility,
        parts: none,
        script,
        progress,
        restart,
        fates,
        is_own_stale,
        was_half,
        sizes,
    } = crew;
    let (parts, rack) = room.take_back(hands, none);
    let group = Group {
        disk,
        crew: Crew {
            facility,
            parts,
            script,
            progress,
            restart,
            fates,
            is_own_stale,
            was_half,
            sizes,
        },
        journal,
        lines,
        faults,
        fault,
    };
    (group, rack)
}
