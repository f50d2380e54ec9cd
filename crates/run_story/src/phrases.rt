//! What an event of a transaction says of it, in words.

ghost use Rattle.std.specs.Prelude.{◌≡◌};
ghost use Rattle.run_story.specs.Phrases as spec;

use ds_model::EventLine;

// Of a lock that was asked for.
#[tactic(auto, unfolding(crate::specs::Phrases::lock_phrase))]
fn lock_phrase(reply: &[u8]) -> Option<&'static [u8]>
    ensures { spec.text_in result ≡ spec.lock_phrase reply.now }
{
    if reply == b"contention".as_slice() {
        Some(b"it asks for a lock in which another member has an interest")
    } else if reply == b"retained".as_slice() {
        Some(b"it asks for a lock that a failed member retains")
    } else if reply == b"records-full".as_slice() {
        Some(b"it asks for a lock, and the lock structure is full")
    } else {
        None
    }
}

#[tactic(auto, unfolding(crate::specs::Phrases::grant_phrase))]
fn grant_phrase(reply: &[u8]) -> Option<&'static [u8]>
    ensures { spec.text_in result ≡ spec.grant_phrase reply.now }
{
    if reply == b"granted".as_slice() {
        Some(b"it gets the lock")
    } else if reply == b"moved".as_slice() {
        Some(b"it asks again, since the lock's entry has changed")
    } else {
        None
    }
}

// Of what a transaction does in a wait.
#[tactic(auto, unfolding(crate::specs::Phrases::wait_phrase))]
fn wait_phrase(command: &[u8]) -> Option<&'static [u8]>
    ensures { spec.text_in result ≡ spec.wait_phrase command.now }
{
    if command == b"ask".as_slice() {
        Some(b"it asks that member")
    } else if command == b"wait".as_slice() {
        Some(b"it waits")
    } else if command == b"unwait".as_slice() {
        Some(b"it waits no more")
    } else {
        None
    }
}

// Of what a transaction does by itself.
#[tactic(auto, unfolding(crate::specs::Phrases::own_phrase))]
fn own_phrase(command: &[u8]) -> Option<&'static [u8]>
    ensures { spec.text_in result ≡ spec.own_phrase command.now }
{
    if command == b"raise".as_slice() {
        Some(b"it raises a flag")
    } else if command == b"lose".as_slice() {
        Some(b"it loses the cache")
    } else if command == b"log-append".as_slice() {
        Some(b"it makes its log stable")
    } else if command == b"end".as_slice() {
        Some(b"it is over")
    } else {
        wait_phrase(command)
    }
}

// Of an event by its words, where it was answered.
#[tactic(auto, unfolding(crate::specs::Phrases::answered_phrase))]
fn answered_phrase(command: &[u8], reply: &[u8]) -> Option<&'static [u8]>
    ensures { spec.text_in result ≡ spec.answered_phrase command.now reply.now }
{
    if command == b"obtain".as_slice() {
        lock_phrase(reply)
    } else if command == b"grant".as_slice() {
        grant_phrase(reply)
    } else if command == b"flag".as_slice() && reply == b"not-raised".as_slice() {
        Some(b"it finds a flag that isn't raised")
    } else if command == b"draw".as_slice() && reply == b"drawn".as_slice() {
        Some(b"it draws the number of its commit")
    } else {
        own_phrase(command)
    }
}

/// What an event says of its transaction, where it matters.
#[tactic(auto, unfolding(crate::specs::Phrases::phrase_of))]
pub fn phrase_of(event: &EventLine) -> Option<&'static [u8]>
    ensures { spec.text_in result ≡ spec.phrase_of event.now }
{
    let reply = event.reply.as_slice();
    if reply == b"failed".as_slice() {
        Some(b"it meets a failure of the disk")
    } else {
        answered_phrase(event.command.as_slice(), reply)
    }
}
