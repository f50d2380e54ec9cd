//! What events do to the transactions of seats.

ghost use Rattle.std.specs.Prelude.{◌≡◌, ◌<◌, ◌≤◌, ◌++◌, length, slice_get, IfOk};
ghost use Rattle.run_spans.specs.Holders.{holder_in};
ghost use Rattle.run_spans.specs.Readings.{known_of};
ghost use Rattle.run_spans.specs.Runs as spec;

use crate::deed::Deed;
use crate::latest::At;
use crate::reading::Reading;
use crate::seats::Seats;
use crate::span::{End, Span, Wait};
use ds_base::NoMemory;

fn begun(at: &At) -> Span
    ensures { result ≡ spec.begun at.now }
{
    Span {
        member: at.member,
        choice: at.choice,
        first: at.place,
        last: at.place,
        commit: 0,
        end: End::Open,
        waits_from: 0,
        rung: At::none(),
    }
}

// How a transaction ends that comes to its end by itself.
fn end_of(commit: u64) -> End
    ensures { result ≡ spec.end_of commit }
{
    if 0 < commit {
        End::Committed
    } else {
        End::Ended
    }
}

// A transaction that waits, or that goes on to wait.
fn waiting(span: Span, place: u64, rung: At) -> Span
    ensures { result ≡ spec.waiting place rung span }
{
    let mut next = span;
    if span.waits_from == 0 {
        next.waits_from = place;
    } else {
        next.rung = rung;
    }
    next
}

// One that draws its commit.
fn drawing(span: Span, place: u64) -> Span
    ensures { result ≡ spec.drawing place span }
{
    let mut next = span;
    if span.commit == 0 {
        next.commit = place;
    }
    next
}

// A transaction behind what was done in an event of its own.
#[tactic(auto, unfolding(crate::specs::Runs::changed))]
fn changed(span: Span, deed: Deed, place: u64, rung: At) -> Span
    ensures { result ≡ spec.changed deed place rung span }
{
    if deed.is_draw() {
        drawing(span, place)
    } else if deed.is_wait() {
        waiting(span, place, rung)
    } else if deed.is_unwait() {
        Span {
            waits_from: 0,
            ..span
        }
    } else if deed.is_end() {
        Span {
            waits_from: 0,
            end: end_of(span.commit),
            ..span
        }
    } else {
        Span { rung, ..span }
    }
}

fn reaching(span: Span, place: u64) -> Span
    ensures { result ≡ spec.reaching place span }
{
    Span {
        last: span.last.max(place),
        ..span
    }
}

fn end_by_failure(commit: u64, appended: u64) -> End
    ensures { result ≡ spec.end_by_failure commit appended }
{
    if 0 < commit && commit < appended {
        End::Committed
    } else {
        End::Failed
    }
}

// A transaction whose member fails.
#[tactic(auto, unfolding(crate::specs::Runs::failed))]
fn failed(span: Span, place: u64, appended: u64) -> Span
    ensures { result ≡ spec.failed place appended span }
{
    Span {
        last: span.last.max(place),
        waits_from: 0,
        end: end_by_failure(span.commit, appended),
        ..span
    }
}

fn wait_of(number: usize, span: &Span, to: u64) -> Wait
    ensures { result ≡ spec.wait_of number span.now to }
{
    Wait {
        span: number,
        member: span.member,
        from: span.waits_from,
        to: to.max(span.waits_from),
        rung: span.rung,
    }
}

// Adds the wait that ends here, if it waits.
#[tactic(auto, unfolding(crate::specs::Runs::waits_in))]
fn put_wait(waits: &mut Vec<Wait>, number: usize, span: &Span, to: u64) -> Result<(), NoMemory>
    ensures { IfOk result (λ _. waits.new.items ≡ waits.old.items ++ spec.waits_in number span.now to) }
{
    if span.waits_from == 0 {
        return Ok(());
    }
    waits.push(wait_of(number, span, to))?;
    Ok(())
}

fn end_wait(
    waits: &mut Vec<Wait>,
    deed: Deed,
    place: u64,
    number: usize,
    span: &Span,
) -> Result<(), NoMemory>
    ensures { IfOk result (λ _. waits.new.items ≡ spec.waits_behind deed place number span.now waits.old.items) }
{
    if deed.ends_wait() {
        put_wait(waits, number, span, place)
    } else {
        Ok(())
    }
}

fn note_commit(
    commits: &mut Vec<usize>,
    deed: Deed,
    number: usize,
    span: &Span,
) -> Result<(), NoMemory>
    ensures { IfOk result (λ _. commits.new.items ≡ spec.commits_behind deed number span.now commits.old.items) }
{
    if !deed.is_draw() || span.commit != 0 {
        return Ok(());
    }
    commits.push(number)?;
    Ok(())
}

fn free_seat(seats: &mut Seats, deed: Deed, at: &At)
    requires { at.now.choice ≤ 16 }
    ensures { holder_in seats.new ≡ spec.holder_behind deed at.now (holder_in seats.old) }
{
    if deed.is_end() {
        seats.give(at.member, at.choice, None);
    }
}

#[tactic(auto, unfolding(crate::specs::Runs::with_begun, crate::specs::Readings::known_of))]
fn begin(reading: &mut Reading, at: &At) -> Result<(), NoMemory>
    requires { at.now.choice ≤ 16 }
    ensures { IfOk result (λ _. known_of reading.new ≡ spec.with_begun at.now (known_of reading.old)) }
{
    let number = reading.spans.len();
    reading.spans.push(begun(at))?;
    reading.seats.give(at.member, at.choice, Some(number));
    Ok(())
}

fn begin_if(reading: &mut Reading, deed: Deed, at: &At) -> Result<(), NoMemory>
    requires { at.now.choice ≤ 16 }
    ensures { IfOk result (λ _. known_of reading.new ≡ spec.begun_if deed at.now (known_of reading.old)) }
{
    if deed.is_nothing() {
        begin(reading, at)
    } else {
        Ok(())
    }
}

// The transaction of this number goes on.
#[tactic(auto, unfolding(crate::specs::Runs::gone_on, crate::specs::Readings::known_of))]
fn go_on(
    reading: &mut Reading,
    deed: Deed,
    at: &At,
    number: usize,
    span: Span,
) -> Result<(), NoMemory>
    requires choice { at.now.choice ≤ 16 }
    requires number { number < length reading.old.spans.items }
    ensures { IfOk result (λ _. known_of reading.new ≡ spec.gone_on deed at.now number span (known_of reading.old)) }
{
    let rung = reading.rung.by_others(at.member, at.choice);
    note_commit(&mut reading.commits, deed, number, &span)?;
    end_wait(&mut reading.waits, deed, at.place, number, &span)?;
    reading.spans[number] = reaching(changed(span, deed, at.place, rung), at.place);
    free_seat(&mut reading.seats, deed, at);
    Ok(())
}

fn go_on_if(reading: &mut Reading, deed: Deed, at: &At, number: usize) -> Result<(), NoMemory>
    requires { at.now.choice ≤ 16 }
    ensures { IfOk result (λ _. known_of reading.new ≡ spec.gone_on_if deed at.now number (slice_get reading.old.spans.items number) (known_of reading.old)) }
{
    match reading.spans.get(number).copied() {
        None => Ok(()),
        Some(span) => go_on(reading, deed, at, number, span),
    }
}

/// The seat's transaction goes on; where it has none, one begins.
#[tactic(auto, unfolding(crate::specs::Runs::seat_moved, crate::specs::Readings::known_of))]
pub fn move_seat(reading: &mut Reading, deed: Deed, at: &At) -> Result<(), NoMemory>
    requires { at.now.choice ≤ 16 }
    ensures { IfOk result (λ _. known_of reading.new ≡ spec.seat_moved deed at.now (known_of reading.old)) }
{
    match reading.seats.holder(at.member, at.choice) {
        None => begin_if(reading, deed, at),
        Some(number) => go_on_if(reading, deed, at, number),
    }
}

#[tactic(auto, unfolding(crate::specs::Runs::span_failed, crate::specs::Readings::known_of))]
fn fail_span(
    reading: &mut Reading,
    at: &At,
    choice: u64,
    number: usize,
    span: Span,
) -> Result<(), NoMemory>
    requires choice { choice ≤ 16 }
    requires number { number < length reading.old.spans.items }
    ensures { IfOk result (λ _. known_of reading.new ≡ spec.span_failed at.now choice number span (known_of reading.old)) }
{
    let appended = reading.appended.get(at.member);
    put_wait(&mut reading.waits, number, &span, at.place)?;
    reading.spans[number] = failed(span, at.place, appended);
    reading.seats.give(at.member, choice, None);
    Ok(())
}

fn fail_span_if(reading: &mut Reading, at: &At, choice: u64, number: usize) -> Result<(), NoMemory>
    requires { choice ≤ 16 }
    ensures { IfOk result (λ _. known_of reading.new ≡ spec.span_failed_if at.now choice number (slice_get reading.old.spans.items number) (known_of reading.old)) }
{
    match reading.spans.get(number).copied() {
        None => Ok(()),
        Some(span) => fail_span(reading, at, choice, number, span),
    }
}

#[tactic(auto, unfolding(crate::specs::Runs::seat_failed, crate::specs::Readings::known_of))]
fn fail_seat(reading: &mut Reading, at: &At, choice: u64) -> Result<(), NoMemory>
    requires { choice ≤ 16 }
    ensures { IfOk result (λ _. known_of reading.new ≡ spec.seat_failed at.now choice (known_of reading.old)) }
{
    match reading.seats.holder(at.member, choice) {
        None => Ok(()),
        Some(number) => fail_span_if(reading, at, choice, number),
    }
}

/// All that a member has open ends with its failure.
pub fn fail_seats(reading: &mut Reading, at: &At) -> Result<(), NoMemory>
    ensures { IfOk result (λ _. known_of reading.new ≡ spec.seats_failed at.now 16 (known_of reading.old)) }
{
    for before in 0..16u64 {
        fail_seat(reading, at, before + 1)?;
    }
    Ok(())
}
