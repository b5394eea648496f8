// The candidates of an image: one after the other, whether a list has room for the carved entries, and their words in it.
ghost use Rattle.std.specs.Prelude.{◌≡◌, [], ◌/◌, ◌^◌, ◌≤◌, ◌<◌, length, leb, count_by};
ghost use Rattle.std.specs.Iterator.{YieldsFirstBy, item_count};
ghost use Rattle.base.specs.Lists.{flatten, overwrite};
ghost use Rattle.mft_carver.specs.Carve.{events_from, stats_of, entries_in, stats_in, entry_stride, entry_words};
ghost use Rattle.mft_carver.specs.Step.{event_by, is_carved};

use crate::image::Image;
use crate::step::{Candidate, CarveStep, carve_step};
use crate::{ENTRY_WORDS, MftCarvingStats};
use base::put;
use base::words::Row;

// The candidates of an image from an offset on.
#[derive(Drop)]
struct Candidates<'a> {
    image: Image<'a>,
    offset: usize,
}

impl<'a> Iterator for Candidates<'a> {
    type Item = Candidate;

    ghost next_gives = { YieldsFirstBy event_by (λ s. events_from s.image.settings s.image.bytes.now s.offset) };

    ghost remaining = { item_count (λ s. events_from s.image.settings s.image.bytes.now s.offset) };

    #[inline(always)]
    fn next(&mut self) -> Option<Candidate> {
        loop {
            match carve_step(self.image, self.offset) {
                CarveStep::Stop => return None,
                CarveStep::Move(next) => self.offset = next,
                CarveStep::Met(candidate, next) => {
                    self.offset = next;
                    return Some(candidate);
                }
            }
        }
    }
}

// All candidates of an image.
fn all_candidates<'a>(image: Image<'a>) -> Candidates<'a>
    ensures { (result.image.bytes.now ≡ image.entry.bytes.now) × (result.image.settings ≡ image.entry.settings) × (result.offset ≡ 0) }
{
    Candidates { image, offset: 0 }
}

// Whether the entries to be carved are no more than room. None is counted where room is enough for an image of that length full
// of entries.
pub(crate) fn has_room(image: Image, room: usize) -> bool
    ensures { let i = image.entry in result ≡ leb (length (entries_in i.settings i.bytes.now)) room }
{
    image.bytes.len() / image.settings.size <= room || count_carved(all_candidates(image)) <= room
}

// How many candidates are carved.
fn count_carved(candidates: Candidates) -> usize
    requires { let i = candidates.image in length (events_from i.settings i.bytes.now candidates.offset) < 2 ^ 64 }
    ensures { let c = candidates.entry in result ≡ count_by is_carved (events_from c.image.settings c.image.bytes.now c.offset) }
{
    candidates
        .filter(|candidate| matches!(candidate, Candidate::Carved(_)))
        .count()
}

// The words of the carved entries into a list that has room for them all, and the counters of the run.
pub(crate) fn fill_list(image: Image, list: &mut [u64]) -> MftCarvingStats
    requires { length (entries_in image.settings image.bytes.now) ≤ length list.old / entry_stride }
    ensures counters { let i = image.entry in result ≡ stats_in i.settings i.bytes.now }
    ensures list_after { let i = image.entry in list.new ≡ overwrite list.old (flatten entry_words (entries_in i.settings i.bytes.now)) }
{
    let mut stats = nothing_met(image.bytes.len());
    for candidate in all_candidates(image) {
        stats.candidates_examined += 1;
        match candidate {
            Candidate::Rejected(_) => stats.rejected += 1,
            Candidate::Carved(entry) => {
                put(list, ENTRY_WORDS * stats.entries_carved, &entry.row());
                stats.entries_carved += 1;
            }
        }
    }
    stats
}

// The counters of a run over so many bytes before its first candidate.
fn nothing_met(bytes_scanned: usize) -> MftCarvingStats
    ensures { result ≡ stats_of bytes_scanned [] }
{
    MftCarvingStats {
        bytes_scanned,
        candidates_examined: 0,
        entries_carved: 0,
        rejected: 0,
    }
}
