// What a call adds to a table, whatever it is read from: entries by their numbers, each under its key.
ghost use Rattle.std.specs.Prelude.{ℕ, ◌≡◌, ◌<◌};
ghost use Rattle.entry_slots.specs.Table.{Addition};
ghost use Rattle.additions.specs.Carved.{carved_count, carved_at};
ghost use Rattle.additions.specs.Walking.{records_in, last_added};

use crate::carved::{carved_info, carved_key};
use crate::entries::{entry_from_last, replaces_backward};
use entry_slots::{EntryInfo, EntryKey};
use mft_carver::ENTRY_WORDS;

// Entries that a call adds, in the order of their numbers, from 0 on. Each method on one of them asks for a number that is there.
pub trait Source: Copy {
    // How many they are.
    ghost many: { Self → ℕ };

    // What the one of each number adds.
    ghost added: { Self → ℕ → Addition };

    fn count(self) -> usize
        ensures { result ≡ many self };

    // The key of number i.
    fn key(self, i: usize) -> EntryKey
        requires { i < many self }
        ensures { result ≡ (added self i).key };

    // What it says of its key.
    fn info(self, i: usize) -> EntryInfo
        requires { i < many self }
        ensures { result ≡ (added self i).info };

    // Whether it replaces what is known of its key.
    fn replaces(self, i: usize) -> bool
        requires { i < many self }
        ensures { result ≡ (added self i).replace };
}

// The listed records of a journal, from the last to the first.
#[derive(Clone, Copy)]
pub struct RecordsBack<'a> {
    pub journal: &'a [u8],
    pub records: &'a [usize],
}

impl<'a> Source for RecordsBack<'a> {
    ghost many = { λ s. records_in s.records.now };

    ghost added = { λ s. last_added s.journal.now s.records.now };

    fn count(self) -> usize {
        self.records.len() / 2
    }

    fn key(self, i: usize) -> EntryKey {
        entry_from_last(self.journal, self.records, i).key
    }

    fn info(self, i: usize) -> EntryInfo {
        entry_from_last(self.journal, self.records, i).info
    }

    fn replaces(self, i: usize) -> bool {
        replaces_backward(entry_from_last(self.journal, self.records, i))
    }
}

// The image carver's flat list of entries.
#[derive(Clone, Copy)]
pub struct CarvedWords<'a> {
    pub words: &'a [u64],
}

impl<'a> Source for CarvedWords<'a> {
    ghost many = { λ s. carved_count s.words.now };

    ghost added = { λ s. carved_at s.words.now };

    fn count(self) -> usize {
        self.words.len() / ENTRY_WORDS
    }

    fn key(self, i: usize) -> EntryKey {
        carved_key(self.words, i)
    }

    fn info(self, i: usize) -> EntryInfo {
        carved_info(self.words, i)
    }

    fn replaces(self, _i: usize) -> bool {
        false
    }
}
