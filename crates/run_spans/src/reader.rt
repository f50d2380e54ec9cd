//! The reading of a trace, event by event.

ghost use Rattle.std.specs.Prelude.{◌≡◌, ◌≤◌, true, IfOk};
ghost use Rattle.run_spans.specs.LatestEvents.{by_others};
ghost use Rattle.run_spans.specs.Places.{place_in};
ghost use Rattle.run_spans.specs.Reaches.{AreReaches, IsRead};
ghost use Rattle.run_spans.specs.Readings.{known_of};
ghost use Rattle.run_spans.specs.Runs as spec;

use crate::deed::{Deed, deed_of};
use crate::latest::{At, Latest};
use crate::member_places::MemberPlaces;
use crate::reading::{Reading, start_reading};
use crate::seat_moves::{fail_seats, move_seat};
use crate::span::Passage;
use crate::spans::Spans;
use ds_base::NoMemory;
use ds_model::EventLine;
use std::alloc::Global;

fn at_of(event: &EventLine) -> At
    ensures { result ≡ spec.at_of event.now }
{
    At {
        place: event.place,
        member: event.member,
        choice: event.choice,
    }
}

fn is_seat(at: &At) -> bool
    ensures exact { result ≡ spec.is_seat at.now }
    ensures choice { result ≡ true → at.now.choice ≤ 16 }
{
    at.member > 0 && 1 <= at.choice && at.choice <= 16
}

// What an event does to transactions.
#[tactic(auto, unfolding(crate::specs::Runs::moved))]
fn move_on(reading: &mut Reading, deed: Deed, at: &At) -> Result<(), NoMemory>
    ensures { IfOk result (λ _. known_of reading.new ≡ spec.moved deed at.now (known_of reading.old)) }
{
    if deed.is_fail() {
        fail_seats(reading, at)
    } else if is_seat(at) {
        move_seat(reading, deed, at)
    } else {
        Ok(())
    }
}

// A page that is found in the cache may be what another member wrote last.
#[tactic(auto, unfolding(crate::specs::Runs::found, crate::specs::Readings::known_of))]
fn find_page(reading: &mut Reading, at: &At) -> Result<(), NoMemory>
    ensures { IfOk result (λ _. known_of reading.new ≡ spec.found at.now (known_of reading.old)) }
{
    let write = reading.written.by_others(at.member, 0);
    if write.place <= reading.reached.get(at.member) {
        return Ok(());
    }
    reading.pages.push(Passage { write, read: *at })?;
    reading.reached.put(at.member, write.place);
    Ok(())
}

fn find_if(reading: &mut Reading, deed: Deed, at: &At) -> Result<(), NoMemory>
    ensures { IfOk result (λ _. known_of reading.new ≡ spec.found_if deed at.now (known_of reading.old)) }
{
    if deed.is_read() {
        find_page(reading, at)
    } else {
        Ok(())
    }
}

// A write is its member's, by whichever choice.
fn of_member(at: At) -> At
    ensures { result ≡ spec.of_member at }
{
    At { choice: 0, ..at }
}

fn note_append(appended: &mut MemberPlaces, deed: Deed, at: &At)
    ensures { place_in appended.new ≡ spec.appended_by deed at.now (place_in appended.old) }
{
    if deed.is_append() {
        appended.put(at.member, at.place);
    }
}

fn note_write(written: &mut Latest, deed: Deed, at: &At)
    ensures { by_others written.new ≡ spec.written_by deed at.now (by_others written.old) }
{
    if deed.is_write() {
        written.note(of_member(*at));
    }
}

fn note_ring(rung: &mut Latest, deed: Deed, at: &At)
    ensures { by_others rung.new ≡ spec.rung_by deed at.now (by_others rung.old) }
{
    if deed.rings(at.choice) {
        rung.note(*at);
    }
}

// What later events need of this one.
#[tactic(auto, unfolding(crate::specs::Runs::noted, crate::specs::Readings::known_of))]
fn note(reading: &mut Reading, deed: Deed, at: &At)
    ensures { known_of reading.new ≡ spec.noted deed at.now (known_of reading.old) }
{
    note_append(&mut reading.appended, deed, at);
    note_write(&mut reading.written, deed, at);
    note_ring(&mut reading.rung, deed, at);
}

#[tactic(auto, unfolding(crate::specs::Runs::step))]
fn step(reading: &mut Reading, event: &EventLine) -> Result<(), NoMemory>
    ensures { IfOk result (λ _. known_of reading.new ≡ spec.step (known_of reading.old) event.now) }
{
    let at = at_of(event);
    let deed = deed_of(event);
    move_on(reading, deed, &at)?;
    find_if(reading, deed, &at)?;
    note(reading, deed, &at);
    Ok(())
}

#[tactic(auto, unfolding(crate::specs::Runs::known_by))]
fn read_all(alloc: Global, events: &[EventLine]) -> Result<Reading, NoMemory>
    ensures { IfOk result (λ reading. known_of reading ≡ spec.known_by events.now) }
{
    let mut reading = start_reading(alloc)?;
    for event in events {
        step(&mut reading, event)?;
    }
    Ok(reading)
}

#[tactic(auto, unfolding(crate::specs::Readings::known_of))]
fn into_spans(reading: Reading) -> Spans
    ensures { IsRead result (known_of reading) }
{
    let Reading {
        spans,
        commits,
        waits,
        pages,
        seats: _seats,
        rung: _rung,
        written: _written,
        appended: _appended,
        reached: _reached,
    } = reading;
    Spans {
        spans,
        commits,
        waits,
        pages,
    }
}

/// The transactions of a trace, with their waits, and the pages that may have come from another member.
pub fn read_spans(alloc: Global, events: &[EventLine]) -> Result<Spans, NoMemory>
    ensures exact { IfOk result (λ read. IsRead read (spec.known_by events.now)) }
    ensures reaches { IfOk result AreReaches }
{
    Ok(into_spans(read_all(alloc, events)?))
}
