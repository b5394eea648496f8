// Reading ahead: the slots and names that the next records lead to are met before their steps come to them.
//
// A step waits for a slot before it knows the next one on its way, and the slots of a large table are mostly out of the processor's
// caches. Those of different records do not wait for each other: for a batch of records each level is met at once, and the steps
// then find near what they look for. What is answered is the position up to which that is done, which nothing that is read decides.
//
// Every function here is proved. The two calls are helpers of our own crates; no result of a rewind depends on them.
#![tactic(auto)]

mod batch;

ghost use Rattle.std.specs.Prelude.{◌≡◌, ◌+◌, ◌/◌, ◌^◌, ◌<◌, length};
ghost use Rattle.entry_slots.specs.Slots.{slots_in};
ghost use Rattle.read_ahead.specs.Reading.{at_once, read_to};

use crate::batch::{BATCH, read_batch};
use entry_slots::slots::STRIDE;

// How many folders are read above each record of a walk forward, and of one backward, which needs the slots of the records' own keys alone.
const FORWARD: usize = 4;

const BACKWARD: usize = 0;

// Tables of fewer slots are not read ahead for.
const LARGE: usize = 65536;

// More than the sum of the bytes that are read for a batch.
const MORE: usize = 0x10_0000;

// Before a walk from the first record to the last puts the record at a position into a table: reads ahead from there on, unless that
// is done up to a later position. The position up to which it is done.
pub fn ahead_forward(
    journal: &[u8],
    image: &[u8],
    records: &[usize],
    position: usize,
    done: usize,
    slots: &[u64],
    heads: &[u64],
    nexts: &[u64],
) -> usize
    ensures { result ≡ read_to (length records.now / 2) (slots_in slots.now) (length heads.now) position done }
{
    if position < done {
        return done;
    }
    let n = at_once(records, slots, heads, position);
    if n == 0 {
        return position;
    }
    let end = position + n;
    let sum = read_batch(
        journal,
        image,
        &records[position * 2..end * 2],
        slots,
        heads,
        nexts,
        FORWARD,
    );
    reached(end, sum)
}

// The same before a walk from the last record to the first, with positions from the last one on. What the two have in common is the
// tests of the first lines; one function for both would take a closure for the rest, and be longer than they are.
pub fn ahead_backward(
    journal: &[u8],
    records: &[usize],
    position: usize,
    done: usize,
    slots: &[u64],
    heads: &[u64],
    nexts: &[u64],
) -> usize
    ensures { result ≡ read_to (length records.now / 2) (slots_in slots.now) (length heads.now) position done }
{
    if position < done {
        return done;
    }
    let n = at_once(records, slots, heads, position);
    if n == 0 {
        return position;
    }
    let end = records.len() / 2 - position;
    let start = end - n;
    let sum = read_batch(
        journal,
        journal,
        &records[start * 2..end * 2],
        slots,
        heads,
        nexts,
        BACKWARD,
    );
    reached(position + n, sum)
}

// How many records to read ahead for at a position.
fn at_once(records: &[usize], slots: &[u64], heads: &[u64], position: usize) -> usize
    ensures { result ≡ at_once (length records.now / 2) (slots_in slots.now) (length heads.now) position }
{
    let count = records.len() / 2;
    if heads.len() == 0 {
        return 0;
    }
    if slots.len() / STRIDE < LARGE {
        return 0;
    }
    if count <= position {
        return 0;
    }
    if count - position < BATCH {
        return count - position;
    }
    BATCH
}

// The position that was reached. The sum of what was read is less than MORE, so that nothing is added; the compiler does not know
// that, and leaves no read out.
fn reached(position: usize, sum: usize) -> usize
    requires { (sum < 2 ^ 20) × (position + 1 < 2 ^ 64) }
    ensures { result ≡ position }
{
    position + sum / MORE
}
