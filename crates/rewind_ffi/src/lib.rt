// Rewinds as C functions, for Rust or C to link: a slice is a pointer and a length, and an answer goes out as a number, 0 or a
// refusal's, with its words in a lent list.
//
//     rewind_start, rewind_next, rewind_next_chain
//                             the path of each record of a journal, with its text and without it
//     rewind_start_indexed    rewind_start by way of an index
//     rewind_run              many of rewind_next in one call, by way of an index
//
// Every function here is proved, and none has a `requires`. A refused call writes nothing. One that answers writes of its list the words
// of its answer alone: those past them stay as they were. Too few words for the answer are refused with 5 directly behind 1, before
// everything else. What lies in the words for an index, specs/Promise.antt says.
#![tactic(auto)]

ghost use Rattle.rewind_ffi.specs.Promise.{StartCallPromise, NextChainCallPromise, NextCallPromise, StartIndexedCallPromise, RunCallPromise};
ghost use Rattle.rewind_ffi.specs.Rewind.{rewind_of};

use base::words::put_answer;
use chain::words::CHAIN_WORDS;
use path::words::PATH_WORDS;
use rewind::Rewind;
use rewind::words::START_WORDS;
use run_steps::words::RUN_WORDS;
use volume_answers::domain::short_over;
use volume_answers::rewinds::{STEP_WORDS, put_step};

// The words of a step's longest answer, a record's, without text and with it.
const CHAIN_STEP_WORDS: usize = STEP_WORDS + CHAIN_WORDS;

const PATH_STEP_WORDS: usize = STEP_WORDS + PATH_WORDS;

// The start of a rewind, over records as a reader lists them, two words each, of which the offset counts: they go into the table
// of seven words a slot, of which used are used, from the last to the first, an old name of a rename in place of a known entry and
// any other where its key is new. The used slots are then copied to the front of forward. 2 words of out, the state: the used slots
// of both tables, and how many records are behind, 0.
// Answers 0, or refuses: 1 journal or image is above the domain, 5 out has fewer than 2 words, 9 used is above the slots, 12 at a
// listed offset stands no record, 7 the name's place of a used slot is outside its slice, 6 the slots of either table are too few
// for the used ones and the different new keys.
#[unsafe(no_mangle)]
pub extern "C" fn rewind_start(
    journal: &[u8],
    image: &[u8],
    records: &[usize],
    slots: &mut [u64],
    used: usize,
    forward: &mut [u64],
    out: &mut [u64],
) -> u32
    ensures { StartCallPromise journal image records slots used forward out result }
{
    if out.len() < START_WORDS {
        return short_over(journal, image);
    }
    put_answer(
        rewind::rewind_start(journal, image, records, slots, used, forward),
        out,
    )
}

// The next record of a rewind, whose state is used and position, goes into forward: a new name or a creation in place of a known
// entry, any other where its key is new. The record's path, its parent's, a backslash and its name, goes to the front of text, and
// the places of its parent's path to chain, as path_resolve leaves them. 8 words of out: 1, the state after it, namely the used
// slots and how many records are behind, and the 5 words of path_resolve, of which the first four are those of the parent's path and
// the last is the bytes of the record's own. Or 3 words where no record is left: 0 and the state.
// Answers 0, or refuses: 1 journal or image is above the domain, 5 out has fewer than 8 words, 9 used is above the slots, 12 at a
// listed offset stands no record, 7 the name's place of a used slot is outside its slice, 6 the record's key is new and no slot is
// left, 8 the text is too small.
#[unsafe(no_mangle)]
pub extern "C" fn rewind_next(
    journal: &[u8],
    image: &[u8],
    records: &[usize],
    used: usize,
    position: usize,
    forward: &mut [u64],
    chain: &mut [u64],
    text: &mut [u8],
    out: &mut [u64],
) -> u32
    ensures { NextCallPromise journal image records (rewind_of used position) forward chain text out result }
{
    if out.len() < PATH_STEP_WORDS {
        return short_over(journal, image);
    }
    put_step(
        rewind::rewind_next(
            journal,
            image,
            records,
            Rewind { used, position },
            forward,
            chain,
            text,
        ),
        out,
    )
}

// The same without its text: 7 words of out, as above but for the text's bytes, or 3 where no record is left.
// Answers 0, or refuses: 1 as above, 5 out has fewer than 7 words, 9, 12, 7 and 6 as above.
#[unsafe(no_mangle)]
pub extern "C" fn rewind_next_chain(
    journal: &[u8],
    image: &[u8],
    records: &[usize],
    used: usize,
    position: usize,
    forward: &mut [u64],
    chain: &mut [u64],
    out: &mut [u64],
) -> u32
    ensures { NextChainCallPromise journal image records (rewind_of used position) forward chain out result }
{
    if out.len() < CHAIN_STEP_WORDS {
        return short_over(journal, image);
    }
    let step = rewind::rewind_next_chain(
        journal,
        image,
        records,
        Rewind { used, position },
        forward,
        chain,
    );
    put_step(step, out)
}

// What rewind_start does, by way of an index in the words of heads and nexts, whatever they hold.
// Answers 0, or refuses as rewind_start does.
#[unsafe(no_mangle)]
pub extern "C" fn rewind_start_indexed(
    journal: &[u8],
    image: &[u8],
    records: &[usize],
    slots: &mut [u64],
    used: usize,
    forward: &mut [u64],
    heads: &mut [u64],
    nexts: &mut [u64],
    out: &mut [u64],
) -> u32
    ensures { StartIndexedCallPromise journal image records slots used forward heads nexts out result }
{
    if out.len() < START_WORDS {
        return short_over(journal, image);
    }
    put_answer(
        rewind::rewind_start_indexed(journal, image, records, slots, used, forward, heads, nexts),
        out,
    )
}

// As many steps of rewind_next as ends has words, with the texts one behind the other at the front of text, and in ends where each
// of them ends; by way of an index in the words of heads and nexts, whatever they hold. And 4 words of out: how many steps were
// made, 0 or what stopped it before the next one, and the state after the last one that was made. What stops it: 6 the record's key
// is new and no slot is left, 8 what is left of the text is too small. Fewer steps than asked for and 0: no record is left.
// Answers 0, or refuses, also where no step is asked for: 1 journal or image is above the domain, 5 out has fewer than 4 words, 9 used
// is above the slots, 12 at a listed offset stands no record, 7 the name's place of a used slot is outside its slice.
#[unsafe(no_mangle)]
pub extern "C" fn rewind_run(
    journal: &[u8],
    image: &[u8],
    records: &[usize],
    used: usize,
    position: usize,
    forward: &mut [u64],
    heads: &mut [u64],
    nexts: &mut [u64],
    ends: &mut [u64],
    text: &mut [u8],
    out: &mut [u64],
) -> u32
    ensures { RunCallPromise journal image records (rewind_of used position) forward heads nexts ends text out result }
{
    if out.len() < RUN_WORDS {
        return short_over(journal, image);
    }
    let from = Rewind { used, position };
    put_answer(
        rewind_run::rewind_run(
            journal, image, records, from, forward, heads, nexts, ends, text,
        ),
        out,
    )
}
