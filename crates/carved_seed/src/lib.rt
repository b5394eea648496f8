// Seeding of the lookup table from a lent slice of carved entries, as the image carver's own struct has them.
//
// Every function here is proved. The public calls have no `requires`: any table and any entries get an answer. They answer and
// write what `entry_table::seed` does on the flat list of the same entries.
#![tactic(auto)]

mod carved;

ghost use Rattle.std.specs.Prelude.{◌≡◌};
ghost use Rattle.base.specs.Outcome.{outcome};
ghost use Rattle.carved_seed.specs.Promise.{in_numbers, SeedFromCarvedPromise, SeedEntriesPromise};

use crate::carved::{CarvedEntries, info_of, key_of};
use additions::room::{has_room, names_inside};
use base::refusal::Refusal;
use entry_slots::slots::STRIDE;
use entry_table::insert_if_absent;
use mft_carver::CarvedMftEntry;

// What seeding answers in numbers, for C: the used slots, which are those that came in where it is refused, and 0 or the number of
// the refusal.
#[repr(C)]
#[derive(Clone, Copy)]
pub struct Seeded {
    pub used: usize,
    pub refusal: u32,
}

// Stores carved entries, in turn, each where its key is new: after the tests over all of them, each is taken out of the slice and inserted
// if absent. The scope names this form (docs/SCOPE.md, "Forms"), so that the tests of `entry_table::seed` are made here too.
// Refused, with nothing written: 9 used is above the slots, 7 a name's place passes the image, also of a known entry, 6 the
// different new keys are more than the slots that are left.
pub fn seed_from_carved(
    journal: &[u8],
    image: &[u8],
    slots: &mut [u64],
    used: usize,
    entries: &[CarvedMftEntry],
) -> Result<usize, Refusal>
    ensures { SeedFromCarvedPromise journal image slots used entries result }
{
    let source = CarvedEntries { entries };
    if slots.len() / STRIDE < used {
        return Err(Refusal::BadState);
    }
    if !names_inside(source, journal.len(), image.len()) {
        return Err(Refusal::NameOutside);
    }
    if !has_room(source, slots, used, slots.len() / STRIDE) {
        return Err(Refusal::TableFull);
    }
    let mut now_used = used;
    for i in 0..entries.len() {
        let entry = entries[i];
        now_used = insert_if_absent(
            journal,
            image,
            slots,
            now_used,
            key_of(entry),
            info_of(entry),
        )?;
    }
    Ok(now_used)
}

// The same, answered in numbers.
pub fn table_seed_entries(
    journal: &[u8],
    image: &[u8],
    slots: &mut [u64],
    used: usize,
    entries: &[CarvedMftEntry],
) -> Seeded
    ensures { SeedEntriesPromise journal image slots used entries result }
{
    in_numbers(used, seed_from_carved(journal, image, slots, used, entries))
}

// An answer in numbers, as C gets it. It needs the used slots that came in, so that no From of the result would do.
fn in_numbers(used: usize, stored: Result<usize, Refusal>) -> Seeded
    ensures { result ≡ in_numbers used (outcome stored) }
{
    match stored {
        Ok(n) => Seeded {
            used: n,
            refusal: 0,
        },
        Err(refusal) => Seeded {
            used,
            refusal: refusal.number(),
        },
    }
}
