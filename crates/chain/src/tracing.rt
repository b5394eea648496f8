// The tests before a path.
ghost use Rattle.std.specs.Prelude.{◌≡◌};
ghost use Rattle.entry_slots.specs.Names.{lengths};
ghost use Rattle.entry_slots.specs.Table.{table};
ghost use Rattle.base.specs.Outcome.{outcome};
ghost use Rattle.base.specs.Words.{number};
ghost use Rattle.chain.specs.Tracing.{path_refusal};

use base::DOMAIN;
use base::refusal::Refusal;
use entry_slots::names::all_inside;
use entry_slots::slots::STRIDE;

// What a path is refused with, whatever its key, with journal and image by their lengths.
pub fn check(
    journal_length: usize,
    image_length: usize,
    slots: &[u64],
    used: usize,
) -> Result<(), Refusal>
    ensures { number (outcome result) ≡ path_refusal (lengths journal_length image_length) (table slots.now used) }
{
    if DOMAIN < journal_length {
        return Err(Refusal::AboveDomain);
    }
    if DOMAIN < image_length {
        return Err(Refusal::AboveDomain);
    }
    if slots.len() / STRIDE < used {
        return Err(Refusal::BadState);
    }
    if !all_inside(slots, used, journal_length, image_length) {
        return Err(Refusal::NameOutside);
    }
    Ok(())
}
