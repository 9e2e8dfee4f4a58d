//! A history that is kept whole.
ghost use Rattle.std.specs.Prelude.{◌≡◌, ◌<◌, ◌≤◌, ◌+◌, [], ◌∷◌, length, Some, IsOk, OnOk, OnErr};
ghost use Rattle.history.specs.Places.{entry_at};

use crate::entry::Entry;
use std::alloc::{AllocError as NoMemory, Global};
use std::marker::Model;

/// Entries in the order in which they were made. Contracts see them with the latest first, and how many fit without
/// more memory.
#[derive(Debug, Drop)]
pub struct Log<Call, Reply> {
    entries: Vec<Entry<Call, Reply>>,
}

impl<Call, Reply> Model for Log<Call, Reply> {
    ghost use Rattle.std.specs.Prelude.{reverse, vec_capacity};
    ghost use Rattle.history.specs.declared.entry.Entry.{Entry};
    ghost use Rattle.history.specs.Kept.{Kept};

    ghost Value = { Kept (Entry Call Reply) };

    ghost view = { λ l. record { entries = reverse l.entries.items; room = vec_capacity l.entries } };
}

impl<Call, Reply> Log<Call, Reply> {
    /// No entries. This takes no memory.
    pub fn new(alloc: Global) -> Log<Call, Reply>
        ensures { result.entries ≡ [] }
    {
        Log {
            entries: Vec::new(alloc),
        }
    }

    /// How many entries there are.
    pub fn length(&self) -> u64
        ensures { result ≡ length self.now.entries }
    {
        self.entries.len() as u64
    }

    /// The entry at a place, counted from 0.
    pub fn entry(&self, at: u64) -> &Entry<Call, Reply>
        requires { at < length self.now.entries }
        ensures { entry_at at self.now.entries ≡ Some result.now }
    {
        &self.entries[at as usize]
    }

    /// Makes room for so many entries more.
    pub fn reserve(&mut self, more: u64) -> Result<(), NoMemory>
        ensures entries { self.new.entries ≡ self.old.entries }
        ensures never_less { self.old.room ≤ self.new.room }
        ensures ok { OnOk result (length self.new.entries + more ≤ self.new.room) }
        ensures spares { length self.old.entries + more ≤ self.old.room → IsOk result }
    {
        self.entries.reserve(more as usize)
    }
}

impl<Call: Drop, Reply: Drop> Log<Call, Reply> {
    /// Appends an entry, for which there is room. This takes no memory.
    pub fn put(&mut self, entry: Entry<Call, Reply>)
        requires { length self.old.entries < self.old.room }
        ensures entries { self.new.entries ≡ entry ∷ self.old.entries }
        ensures never_less { self.old.room ≤ self.new.room }
    {
        self.entries.push_reserved(entry);
    }

    /// Appends an entry.
    pub fn push(&mut self, entry: Entry<Call, Reply>) -> Result<(), NoMemory>
        ensures ok { OnOk result (self.new.entries ≡ entry ∷ self.old.entries) }
        ensures err { OnErr result (self.new.entries ≡ self.old.entries) }
    {
        self.entries.reserve(1)?;
        self.entries.push_reserved(entry);
        Ok(())
    }
}
