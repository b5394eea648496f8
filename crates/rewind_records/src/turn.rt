// What comes before the work of every rewind call: the refusals in their order, and the record that is next.
ghost use Rattle.std.specs.Prelude.{◌≡◌, map};
ghost use Rattle.usn_record.specs.Record.{is_answered};
ghost use Rattle.additions.specs.Entries.{entry_at};
ghost use Rattle.additions.specs.Walking.{offsets_in};
ghost use Rattle.entry_slots.specs.Table.{table};
ghost use Rattle.rewind_records.specs.Environment.{all_answered, environment_with, rewind_refusal};
ghost use Rattle.base.specs.Outcome.{outcome};
ghost use Rattle.base.specs.Words.{number};
ghost use Rattle.rewind_records.specs.Turning.{turning, next_outcome};

use additions::entries::{RecordEntry, entry_at};
use base::DOMAIN;
use base::refusal::Refusal;
use entry_slots::names::all_inside;
use entry_slots::slots::STRIDE;
use usn_record::listed::is_listed;

// Whether a record stands at an offset.
fn is_record(journal: &[u8], offset: usize) -> bool
    ensures { result ≡ is_answered (entry_at journal.now offset) }
{
    is_listed(journal, offset)
}

// Whether one stands at every listed offset.
fn all_records(journal: &[u8], records: &[usize]) -> bool
    ensures { result ≡ all_answered (map (entry_at journal.now) (offsets_in records.now)) }
{
    for i in 0..records.len() / 2 {
        if !is_record(journal, records[i * 2]) {
            return false;
        }
    }
    true
}

// The tests of a rewind over a table, in their order.
pub fn check(
    journal: &[u8],
    image_length: usize,
    records: &[usize],
    slots: &[u64],
    used: usize,
) -> Result<(), Refusal>
    ensures { number (outcome result) ≡ rewind_refusal (environment_with journal.now image_length records.now) (table slots.now used) }
{
    if DOMAIN < journal.len() {
        return Err(Refusal::AboveDomain);
    }
    if DOMAIN < image_length {
        return Err(Refusal::AboveDomain);
    }
    if slots.len() / STRIDE < used {
        return Err(Refusal::BadState);
    }
    if !all_records(journal, records) {
        return Err(Refusal::NotARecord);
    }
    if !all_inside(slots, used, journal.len(), image_length) {
        return Err(Refusal::NameOutside);
    }
    Ok(())
}

// The record that is next, or none where all are behind.
pub fn next_record(
    journal: &[u8],
    image_length: usize,
    records: &[usize],
    forward: &[u64],
    used: usize,
    position: usize,
) -> Result<Option<RecordEntry>, Refusal>
    ensures { next_outcome result ≡ turning (environment_with journal.now image_length records.now) (table forward.now used) position }
{
    check(journal, image_length, records, forward, used)?;
    if records.len() / 2 <= position {
        return Ok(None);
    }
    Ok(Some(entry_at(journal, records[position * 2])))
}
