// Many steps of a rewind in one call, by way of an index of the forward table in lent memory.
//
// The call tests once what the steps of `rewind` test each time, and is refused where they are; then it builds the index, and does
// what they do. The index is that of `entry_slots`; where the words for it are too few, the call does without it, and answers and
// writes the same.
//
// Every function here is proved. The public call has no `requires`.
#![tactic(auto)]

ghost use Rattle.rewind_run.specs.Promise.{RunPromise};

use base::refusal::Refusal;
use entry_slots::links::{build, is_enough};
use entry_slots::slots::STRIDE;
use rewind::Rewind;
use rewind_records::turn::check;
use run_steps::{RewindRun, run};

// As many steps as there are words for the ends of their texts: each is what `rewind::rewind_next` does, with its text behind those
// of the steps before it; the list of places is not written. It stops at the end of the records, and before a step for which there
// is no room: 6 the record's key is new and no slot is left, 8 what is left of the text is too small.
// Refused, with nothing written, also where no step is asked for: 1 journal or image is above the domain, 9 the used slots are above
// the slots, 12 at a listed offset stands no record, 7 the name's place of a used slot is outside its slice.
pub fn rewind_run(
    journal: &[u8],
    image: &[u8],
    records: &[usize],
    rewind: Rewind,
    forward: &mut [u64],
    heads: &mut [u64],
    nexts: &mut [u64],
    ends: &mut [u64],
    text: &mut [u8],
) -> Result<RewindRun, Refusal>
    ensures { RunPromise journal image records rewind forward heads nexts ends text result }
{
    if let Err(refusal) = check(journal, image.len(), records, forward, rewind.used) {
        return Err(refusal);
    }
    if is_enough(forward.len() / STRIDE, heads, nexts) {
        build(forward, rewind.used, heads, nexts);
        return Ok(run(
            journal, image, records, rewind, forward, heads, nexts, ends, text,
        ));
    }
    let none = &mut heads[..0];
    Ok(run(
        journal, image, records, rewind, forward, none, nexts, ends, text,
    ))
}
