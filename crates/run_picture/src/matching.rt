//! Which events are those of which transaction of a report.
//!
//! The committed ones of a member stand in the report in the order in which their commits drew their numbers. All others stand
//! in the order of the script, in which they began; a refusal's cause lies between its first and its last event. One that was
//! stopped before it began has no events.

ghost use Rattle.std.specs.Prelude.{◌≡◌, ◌++◌, ◌+◌, ◌<◌, length, map, filter, slice_index, unwrap_or, vec_len, OnOk, IfOk, IfSome};
ghost use Rattle.run_picture.specs.Matchers.{matching_of};
ghost use Rattle.run_picture.specs.Names.{number_of};
ghost use Rattle.run_picture.specs.Matches as spec;

use crate::names::NameNumbers;
use ds_base::{Bytes, NoMemory};
use ds_model::{CauseLine, ReportEntry, Told};
use run_spans::{End, Span, Spans};
use std::alloc::Global;
use std::collections::VecDeque;

// The group's queue, which is empty, and those of the members of a report.
const QUEUES: u64 = 33;

/// The place of a refusal's cause, 0 where none is told.
#[tactic(auto, unfolding(crate::specs::Matches::cause_of, crate::specs::Names::no_number, crate::specs::Names::with_number))]
pub fn place_of_cause(causes: &[CauseLine], name: &Bytes) -> u64
    ensures { result ≡ spec.place_of_cause causes.now name.now }
{
    let mut place: Option<u64> = None;
    for cause in causes {
        if name.as_slice() == cause.name.as_slice() {
            place = Some(cause.place);
        }
    }
    place.unwrap_or(0)
}

/// The places of causes by the names of the refused.
#[tactic(auto, unfolding(crate::specs::Matches::cause_of))]
pub fn cause_places(alloc: Global, causes: &[CauseLine]) -> Result<NameNumbers, NoMemory>
    ensures { IfOk result (λ names. number_of names ≡ spec.cause_of causes.now) }
{
    let mut names = NameNumbers::new(alloc);
    for cause in causes {
        names.put(alloc, cause.name.as_slice(), cause.place)?;
    }
    Ok(names)
}

/// The place that a name has, 0 where it has none.
pub fn place_in(places: &NameNumbers, name: &Bytes) -> u64
    ensures { result ≡ unwrap_or (number_of places.now name.now) 0 }
{
    places.get(name.as_slice()).unwrap_or(0)
}

fn is_committed(span: &Span) -> bool
    ensures { result ≡ spec.is_committed span.now.end }
{
    matches!(span.end, End::Committed)
}

fn is_cut_off(span: &Span) -> bool
    ensures { result ≡ spec.is_cut_off span.now.end }
{
    matches!(span.end, End::Failed | End::Open)
}

// Whether the span may be that of a transaction with this fate, by its end and by the place of the refusal's cause.
fn may_be_told(told: &Told, cause: u64, span: &Span) -> bool
    ensures { result ≡ spec.may_be_told told.now cause span.now }
{
    match told {
        Told::Committed { .. } => is_committed(span),
        Told::Refused(_) => !is_committed(span) && span.first <= cause && cause <= span.last,
        Told::Stopped => is_cut_off(span),
    }
}

#[tactic(auto, unfolding(crate::specs::Matches::may_be))]
fn may_be(spans: &[Span], told: &Told, cause: u64, number: usize) -> bool
    ensures { result ≡ spec.may_be spans.now told.now cause number }
{
    match spans.get(number) {
        Some(span) => may_be_told(told, cause, span),
        None => false,
    }
}

#[tactic(auto, unfolding(crate::specs::Matches::is_committed_of))]
fn is_committed_of(spans: &[Span], member: u64, number: usize) -> bool
    ensures { result ≡ spec.is_committed_of spans.now member number }
{
    match spans.get(number) {
        Some(span) => u64::from(span.member) == member && is_committed(span),
        None => false,
    }
}

#[tactic(auto, unfolding(crate::specs::Matches::is_other_of))]
fn is_other_of(spans: &[Span], member: u64, number: usize) -> bool
    ensures { result ≡ spec.is_other_of spans.now member number }
{
    match spans.get(number) {
        Some(span) => u64::from(span.member) == member && !is_committed(span),
        None => false,
    }
}

fn put_committed(
    queue: &mut VecDeque<usize>,
    spans: &[Span],
    commits: &[usize],
    member: u64,
) -> Result<(), NoMemory>
    ensures { OnOk result (queue.new.items ≡ queue.old.items ++ filter (spec.is_committed_of spans.now member) commits.now) }
{
    for number in commits {
        if is_committed_of(spans, member, *number) {
            queue.push_back(*number)?;
        }
    }
    Ok(())
}

#[tactic(auto, using(crate::proofs::Taking::kept_more, crate::proofs::Taking::kept_less, crate::proofs::Taking::kept_none))]
fn put_others(queue: &mut VecDeque<usize>, spans: &[Span], member: u64) -> Result<(), NoMemory>
    ensures { OnOk result (queue.new.items ≡ queue.old.items ++ filter (spec.is_other_of spans.now member) (spec.below (length spans.now))) }
{
    for number in 0..spans.len() {
        if is_other_of(spans, member, number) {
            queue.push_back(number)?;
        }
    }
    Ok(())
}

// The numbers of a member's spans in the order in which they are taken: the committed ones by their commits, then all others as they began.
#[tactic(auto, unfolding(crate::specs::Matches::numbers_of))]
fn numbers_of(alloc: Global, read: &Spans, member: u64) -> Result<VecDeque<usize>, NoMemory>
    ensures { IfOk result (λ queue. queue.items ≡ spec.numbers_of read.now.spans.items read.now.commits.items member) }
{
    let mut queue = VecDeque::new(alloc);
    put_committed(&mut queue, &read.spans, &read.commits, member)?;
    put_others(&mut queue, &read.spans, member)?;
    Ok(queue)
}

#[tactic(auto, using(crate::proofs::Taking::queues_more, crate::proofs::Taking::queues_none))]
fn queues_of(alloc: Global, read: &Spans) -> Result<Vec<VecDeque<usize>>, NoMemory>
    ensures { IfOk result (λ queues. map (λ q. q.items) queues.items ≡ spec.queues_to read.now.spans.items read.now.commits.items 33) }
{
    let mut queues = Vec::new(alloc);
    for member in 0..QUEUES {
        queues.push(numbers_of(alloc, read, member)?)?;
    }
    Ok(queues)
}

fn number_at(queue: &VecDeque<usize>, place: usize) -> usize
    requires { place < length queue.now.items }
    ensures { result ≡ slice_index queue.now.items place }
{
    queue[place]
}

// The place in a queue of the first that may be meant.
#[tactic(auto, unfolding(crate::specs::Matches::first_place), using(crate::proofs::Taking::found_there, crate::proofs::Taking::passed, crate::proofs::Taking::none_left))]
fn first_place(queue: &VecDeque<usize>, spans: &[Span], told: &Told, cause: u64) -> Option<usize>
    ensures exact { result ≡ spec.first_place spans.now told.now cause queue.now.items }
    ensures within { IfSome result (λ place. place < length queue.now.items) }
{
    for place in 0..queue.len() {
        if may_be(spans, told, cause, number_at(queue, place)) {
            return Some(place);
        }
    }
    None
}

fn take_at(queue: &mut VecDeque<usize>, place: Option<usize>) -> Option<usize>
    requires { IfSome place (λ n. n < length queue.old.items) }
    ensures taken { result ≡ spec.taken_at place queue.old.items }
    ensures left { queue.new.items ≡ spec.left_at place queue.old.items }
{
    match place {
        Some(place) => queue.remove(place),
        None => None,
    }
}

#[tactic(auto, unfolding(crate::specs::Matches::first_of, crate::specs::Matches::without_first))]
fn take_first(queue: &mut VecDeque<usize>, spans: &[Span], told: &Told, cause: u64) -> Option<usize>
    ensures taken { result ≡ spec.first_of spans.now told.now cause queue.old.items }
    ensures left { queue.new.items ≡ spec.without_first spans.now told.now cause queue.old.items }
{
    let place = first_place(queue, spans, told, cause);
    take_at(queue, place)
}

// Takes the span of an entry from its member's queue.
#[tactic(auto, using(crate::proofs::Taking::next_taken, crate::proofs::Taking::left_taken, crate::proofs::Taking::next_none, crate::proofs::Taking::left_none))]
fn take_next(
    queues: &mut [VecDeque<usize>],
    spans: &[Span],
    entry: &ReportEntry,
    cause: u64,
) -> Option<usize>
    ensures taken { result ≡ spec.next_of spans.now cause (map (λ q. q.items) queues.old) entry.now }
    ensures left { map (λ q. q.items) queues.new ≡ spec.left_behind spans.now cause (map (λ q. q.items) queues.old) entry.now }
{
    let member = entry.member.number() as usize;
    if member < queues.len() {
        take_first(&mut queues[member], spans, &entry.told, cause)
    } else {
        None
    }
}

// The queues of numbers that are left, and the number of each entry so far.
#[derive(Drop)]
struct Matcher {
    queues: Vec<VecDeque<usize>>,
    numbers: Vec<Option<usize>>,
}

#[tactic(auto, unfolding(crate::specs::Matches::unmatched, crate::specs::Matchers::matching_of))]
fn start_matching(alloc: Global, read: &Spans) -> Result<Matcher, NoMemory>
    ensures exact { IfOk result (λ matcher. matching_of matcher ≡ spec.unmatched read.now.spans.items read.now.commits.items) }
    ensures count { IfOk result (λ matcher. vec_len matcher.numbers ≡ 0) }
{
    Ok(Matcher {
        queues: queues_of(alloc, read)?,
        numbers: Vec::new(alloc),
    })
}

#[tactic(auto, unfolding(crate::specs::Matches::with_match, crate::specs::Matchers::matching_of))]
fn match_entry(
    matcher: &mut Matcher,
    spans: &[Span],
    entry: &ReportEntry,
    cause: u64,
) -> Result<(), NoMemory>
    ensures exact { IfOk result (λ _. matching_of matcher.new ≡ spec.with_match spans.now cause entry.now (matching_of matcher.old)) }
    ensures count { IfOk result (λ _. vec_len matcher.new.numbers ≡ vec_len matcher.old.numbers + 1) }
{
    let number = take_next(&mut matcher.queues, spans, entry, cause);
    matcher.numbers.push(number)?;
    Ok(())
}

#[tactic(auto, unfolding(crate::specs::Matches::matched_all))]
fn match_all(
    alloc: Global,
    entries: &[ReportEntry],
    causes: &[CauseLine],
    read: &Spans,
) -> Result<Matcher, NoMemory>
    ensures exact { IfOk result (λ matcher. matching_of matcher ≡ spec.matched_all read.now.spans.items read.now.commits.items causes.now entries.now) }
    ensures count { IfOk result (λ matcher. vec_len matcher.numbers ≡ length entries.now) }
{
    let places = cause_places(alloc, causes)?;
    let mut matcher = start_matching(alloc, read)?;
    for entry in entries {
        let cause = place_in(&places, &entry.name);
        match_entry(&mut matcher, &read.spans, entry, cause)?;
    }
    Ok(matcher)
}

#[tactic(auto, unfolding(crate::specs::Matchers::matching_of))]
fn into_numbers(matcher: Matcher) -> Vec<Option<usize>>
    ensures exact { result.items ≡ (matching_of matcher).numbers }
    ensures count { vec_len result ≡ vec_len matcher.numbers }
{
    let Matcher {
        queues: _queues,
        numbers,
    } = matcher;
    numbers
}

/// For each entry of a report the number of its span.
pub fn match_spans(
    alloc: Global,
    entries: &[ReportEntry],
    causes: &[CauseLine],
    read: &Spans,
) -> Result<Vec<Option<usize>>, NoMemory>
    ensures exact { IfOk result (λ numbers. numbers.items ≡ spec.matched read.now.spans.items read.now.commits.items causes.now entries.now) }
    ensures count { IfOk result (λ numbers. vec_len numbers ≡ length entries.now) }
{
    Ok(into_numbers(match_all(alloc, entries, causes, read)?))
}
