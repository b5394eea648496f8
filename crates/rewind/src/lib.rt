// The rewind of a change journal: which path each record's file had when the record was written.
//
// A start goes over the listed records from the last to the first, so that the first table knows the names that were there
// before the journal begins, and copies that table. Each step then puts the next record into the copy, the forward table, and
// tells the path of the record's parent there; the record's own path is that path, a backslash and its name.
//
// The records come as a reader lists them, two words a record, of which the offset counts; each is read again at its offset.
// The tables are those of `entry_slots`. The state, how many slots of the forward table are used and which record is next,
// goes in and comes back by value.
//
// Every function here is proved. No call has a `requires`: any bytes, lists, tables and states get an answer. Names decide
// nothing but the text and whether it fits.
#![tactic(auto)]

mod chain_step;
mod start;
pub mod words;

ghost use Rattle.rewind.specs.Promise.{StartPromise, StartIndexedPromise, NextPromise, NextChainPromise};

use crate::chain_step::next_chain;
use crate::start::begin;
use base::refusal::Refusal;
use chain::ResolvedPath;
use chain::way::{WAY_WORDS, list_places};
use entry_slots::links::is_enough;
use entry_slots::slots::STRIDE;
use path::WrittenPath;
use rewind_records::turn::next_record;
use rewind_steps::{Stand, make_step};

// A rewind under way: how many slots of the forward table are used, and how many records are behind.
#[derive(Clone, Copy)]
pub struct Rewind {
    pub used: usize,
    pub position: usize,
}

// What a step comes to: what it says of the next record, or that none is left, or its refusal; and the rewind after it, which is the one
// before it where nothing was rewound.
#[derive(Clone, Copy)]
pub struct Step<T> {
    pub next: Result<Option<T>, Refusal>,
    pub rewind: Rewind,
}

// Goes over the records from the last to the first: a record with the old name of a rename is inserted into the first table,
// any other is added if its key is new. The used slots are then copied to the front of the forward table, whatever that held.
// Refused, with nothing written: 1 journal or image is above the domain, 9 used is above the slots, 12 at a listed offset
// stands no record, 7 the name's place of a used slot is outside its slice, 6 the slots of either table are too few for the
// used ones and the different new keys.
pub fn rewind_start(
    journal: &[u8],
    image: &[u8],
    records: &[usize],
    slots: &mut [u64],
    used: usize,
    forward: &mut [u64],
) -> Result<Rewind, Refusal>
    ensures { StartPromise journal image records slots used forward result }
{
    let mut heads: [u64; 0] = [];
    let mut nexts: [u64; 0] = [];
    begin(
        journal, image, records, slots, used, forward, &mut heads, &mut nexts,
    )
}

// What rewind_start does, by way of an index of the first table, for which words are lent, whatever they hold. Where these are too
// few, it does without. With fewer slots than the used ones and all records need, it passes over them to count the new keys, as
// rewind_start does. Both are named by README and C, and are calls of one function.
pub fn rewind_start_indexed(
    journal: &[u8],
    image: &[u8],
    records: &[usize],
    slots: &mut [u64],
    used: usize,
    forward: &mut [u64],
    heads: &mut [u64],
    nexts: &mut [u64],
) -> Result<Rewind, Refusal>
    ensures { StartIndexedPromise journal image records slots used forward heads nexts result }
{
    if is_enough(slots.len() / STRIDE, heads, nexts) {
        return begin(journal, image, records, slots, used, forward, heads, nexts);
    }
    begin(
        journal,
        image,
        records,
        slots,
        used,
        forward,
        &mut heads[..0],
        nexts,
    )
}

// The next record goes into the forward table: with a new name or a creation it is inserted, otherwise it is added if its key
// is new. The places of its parent's path, in the table with it, go to the lent list, as path_chain leaves them, and its own
// path, the parent's, a backslash and its name, to the front of the lent text.
// Refused, with nothing written: 1 journal or image is above the domain, 9 the used slots are above the slots, 12 at a listed
// offset stands no record, 7 the name's place of a used slot is outside its slice, 6 the record's key is new and no slot is
// left, 8 the text is too small. A step that 8 refused can be repeated with a larger text.
// The way is made for a record alone: making it takes longer than the call does where none is left.
pub fn rewind_next(
    journal: &[u8],
    image: &[u8],
    records: &[usize],
    rewind: Rewind,
    forward: &mut [u64],
    list: &mut [u64],
    text: &mut [u8],
) -> Step<WrittenPath>
    ensures { NextPromise journal image records rewind forward list text result }
{
    let image_length = image.len();
    match next_record(
        journal,
        image_length,
        records,
        forward,
        rewind.used,
        rewind.position,
    ) {
        Ok(Some(entry)) => {
            let mut heads: [u64; 0] = [];
            let mut nexts: [u64; 0] = [];
            let mut way: [usize; WAY_WORDS] = [0; WAY_WORDS];
            let stand = Stand {
                used: rewind.used,
                at: 0,
            };
            match make_step(
                journal, image, entry, stand, forward, &mut heads, &mut nexts, &mut way, text,
            ) {
                Ok(told) => {
                    list_places(forward, &way, told.path.names, list);
                    Step {
                        next: Ok(Some(WrittenPath {
                            path: told.path,
                            text: told.at,
                        })),
                        rewind: Rewind {
                            used: told.used,
                            position: rewind.position + 1,
                        },
                    }
                }
                Err(refusal) => Step {
                    next: Err(refusal),
                    rewind,
                },
            }
        }
        Ok(None) => Step {
            next: Ok(None),
            rewind,
        },
        Err(refusal) => Step {
            next: Err(refusal),
            rewind,
        },
    }
}

// A step without text: it gives the chain alone, and moves on likewise.
// Refused as rewind_next is, but never with 8.
pub fn rewind_next_chain(
    journal: &[u8],
    image: &[u8],
    records: &[usize],
    rewind: Rewind,
    forward: &mut [u64],
    list: &mut [u64],
) -> Step<ResolvedPath>
    ensures { NextChainPromise journal image records rewind forward list result }
{
    next_chain(journal, image, records, rewind, forward, list)
}
