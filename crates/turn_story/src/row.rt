//! Seats and parts, put together and taken apart.
ghost use Rattle.std.specs.Prelude.{◌≡◌, ◌≤◌, [], length, map, vec_capacity};

use crate::desk::Desk;
use crate::stepping::Stepping;
use crate::told::Told;
use turn_gate::{Laid, Seat};

// Puts each part to its seat. Both are left empty, with their room.
pub(crate) fn put_together<M: Stepping>(
    seats: &mut Vec<Seat<Told<M>>>,
    parts: &mut Vec<Laid<M::Part>>,
    mut row: Vec<Desk<M>>,
) -> Vec<Desk<M>>
    requires count { length seats.old.items ≡ length parts.old.items }
    requires room { (row.items ≡ []) × (length seats.old.items ≤ vec_capacity row) }
    ensures seats { map (λ d. d.seat) result.items ≡ seats.old.items }
    ensures parts { map (λ d. d.part) result.items ≡ parts.old.items }
    ensures empty { (seats.new.items ≡ []) × (parts.new.items ≡ []) }
    ensures room { (vec_capacity seats.new ≡ vec_capacity seats.old) × (vec_capacity parts.new ≡ vec_capacity parts.old) }
{
    while let Some(seat) = seats.pop() {
        let Some(part) = parts.pop() else {
            unreachable!()
        };
        row.push_reserved(Desk { seat, part });
    }
    row.reverse();
    row
}

// Takes them apart again.
pub(crate) fn take_apart<M: Stepping>(
    mut desks: Vec<Desk<M>>,
    seats: &mut Vec<Seat<Told<M>>>,
    parts: &mut Vec<Laid<M::Part>>,
)
    requires empty { (seats.old.items ≡ []) × (parts.old.items ≡ []) }
    requires room { (length desks.items ≤ vec_capacity seats.old) × (length desks.items ≤ vec_capacity parts.old) }
    ensures seats { seats.new.items ≡ map (λ d. d.seat) desks.items }
    ensures parts { parts.new.items ≡ map (λ d. d.part) desks.items }
{
    desks.reverse();
    while let Some(desk) = desks.pop() {
        let Desk { seat, part } = desk;
        seats.push_reserved(seat);
        parts.push_reserved(part);
    }
    desks.destroy_empty();
}
