// Seeding of the lookup table from a lent slice of carved entries as a C function, for Rust or C to link: a slice is a pointer and a
// length, and an entry is the image carver's own struct, laid out as in C.
//
// The function is proved and has no `requires`. It answers and writes what `carved_seed::table_seed_entries` does.
#![tactic(auto)]

ghost use Rattle.carved_seed.specs.Promise.{SeedEntriesPromise};

use carved_seed::Seeded;
use mft_carver::CarvedMftEntry;

// Stores carved entries, in turn, each where its key is new. Answers the used slots and 0, or the used slots that came in and a
// refusal's number, with nothing written: 9 used is above the slots, 7 a name's place passes the image, also of a known entry, 6 the
// different new keys are more than the slots that are left.
#[unsafe(no_mangle)]
pub extern "C" fn table_seed_entries(
    journal: &[u8],
    image: &[u8],
    slots: &mut [u64],
    used: usize,
    entries: &[CarvedMftEntry],
) -> Seeded
    ensures { SeedEntriesPromise journal image slots used entries result }
{
    carved_seed::table_seed_entries(journal, image, slots, used, entries)
}
