ghost use Rattle.std.specs.Prelude.{◌≡◌, ◌+◌, ◌≤◌, ◌<◌, ◌^◌, false, [], ◌∷◌, ◌++◌, length, IfOk, IsTrue};
ghost use Rattle.tran_history.specs.Histories.{has_committed, has_number, after_answer};
ghost use Rattle.tran_history.specs.Places.{answer_at};

use ds_base::NoMemory;
use ds_model::{Entry, Fate};
use std::alloc::Global;
use std::marker::Model;

/// The transactions of a run with their fates, in order.
///
/// A transaction is found by its number without a search. So no number is above the most entries that
/// there may be, and none stands twice.
#[derive(Drop)]
pub struct History {
    entries: Vec<Entry>,
    // the place of each transaction's entry, by its number
    places: Vec<u32>,
    room: u32,
}

impl Model for History {
    ghost use Rattle.std.specs.Prelude.{vec_capacity};
    ghost use Rattle.tran_history.specs.Histories.{HistoryState};
    ghost use Rattle.tran_history.specs.Places.{IsPlaced};

    ghost Value = { HistoryState };

    ghost view = { λ h. record { entries = h.entries.items; room = h.room } };

    ghost invariant = { λ h. IsPlaced h.entries.items h.places.items h.room (vec_capacity h.entries) };
}

// Marks a committed transaction as answered.
fn mark_answered(entries: &mut [Entry], at: usize)
    requires { at < length entries.old }
    ensures { entries.new ≡ answer_at entries.old at }
{
    if let Fate::Committed { answered, .. } = &mut entries[at].fate {
        *answered = true;
    }
}

impl History {
    /// A history without entries. Takes the memory for all that it may have.
    pub fn new(alloc: Global, room: u32) -> Result<History, NoMemory>
        ensures { IfOk result (λ history. history ≡ record { entries = []; room = room }) }
    {
        let entries = Vec::with_capacity(alloc, room as usize)?;
        let places = vec![in alloc; 0u32; room as usize + 1]?;
        Ok(History {
            entries,
            places,
            room,
        })
    }

    /// Adds an entry at the end. Takes no memory.
    pub fn push(&mut self, entry: Entry)
        requires room { length self.old.entries < self.old.room }
        requires number { entry.tran.number ≤ self.old.room }
        requires new { has_number self.old.entries entry.tran.number ≡ false }
        ensures { self.new ≡ record { entries = self.old.entries ++ entry ∷ []; room = self.old.room } }
    {
        self.places[entry.tran.number as usize] = self.entries.len() as u32;
        self.entries.push_reserved(entry);
    }

    /// Marks a transaction, which stands as committed, as answered. Takes no memory.
    pub fn answer(&mut self, number: u32)
        requires { IsTrue (has_committed self.old.entries number) }
        ensures { self.new ≡ record { entries = after_answer self.old.entries number; room = self.old.room } }
    {
        let at = self.places[number as usize] as usize;
        mark_answered(&mut self.entries, at);
    }

    pub fn entries(&self) -> &[Entry]
        ensures { result.now ≡ self.now.entries }
    {
        &self.entries
    }

    pub fn into_entries(self) -> Vec<Entry>
        ensures { result.items ≡ self.entries }
    {
        let History { entries, .. } = self;
        entries
    }

    pub fn len(&self) -> usize
        ensures count { result ≡ length self.now.entries }
        ensures few { length self.now.entries ≤ self.now.room }
    {
        self.entries.len()
    }

    /// The most entries that there may be.
    pub fn room(&self) -> u32
        ensures { result ≡ self.now.room }
    {
        self.room
    }
}
