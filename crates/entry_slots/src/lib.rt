// The lookup table of path rewinding, in lent memory: from an entry and its sequence to its parent and its name's place.
//
// A table is a lent slice of words and the number of its used slots, which goes in and comes back by value. A slot has seven
// words: entry, sequence, parent entry, parent sequence, the name's source (0 the journal, any other the image), its offset
// and its length in bytes. Words after the last whole slot are left alone. Of equal keys the lowest slot counts.
//
// A hash index of the table, in lent memory too, leads from a key to its slot: the heads, as many words as the caller wants
// hashes, and the nexts, one for each slot. Heads of length 0 are no index: a key is then found by passing over the used slots.
//
// Table and index are slices with a number beside them, as C lends them: nothing here allocates.
//
// Every function here is proved. They are helpers of our own crates, and ask for slots that are there and for an index that is
// the table's; the calls that store are those of `entry_table`.
#![tactic(auto)]

pub mod links;
pub mod names;
pub mod slots;

// A file or folder by its MFT entry and sequence. Any two words are a key.
#[derive(Clone, Copy, PartialEq, Eq, Default)]
pub struct EntryKey {
    pub entry: u64,
    pub sequence: u64,
}

// Where a name's bytes lie: in the journal for source 0, in the image for any other. A table's words may be any words, so the source is
// the word that stands there, and no enum.
#[derive(Clone, Copy, Default)]
pub struct NamePlace {
    pub source: u64,
    pub offset: u64,
    pub length: u64,
}

// What is known of a key: the folder it stands in, and its name.
#[derive(Clone, Copy, Default)]
pub struct EntryInfo {
    pub parent: EntryKey,
    pub name: NamePlace,
}
