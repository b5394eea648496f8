// The candidates of an extract: one after the other, whether a list has room for the carved ones, and their places in it.
ghost use Rattle.std.specs.Prelude.{◌≡◌, [], ◌/◌, ◌^◌, ◌≤◌, ◌<◌, length, leb, count_by};
ghost use Rattle.std.specs.Iterator.{YieldsFirstBy, item_count};
ghost use Rattle.usn_carver.specs.Events.{is_carved, stats_of};
ghost use Rattle.usn_carver.specs.Carve.{events_from, carved_places};
ghost use Rattle.usn_carver.specs.Step.{settings_by, event_of};
ghost use Rattle.usn_carver.specs.Promise.{FillPromise};

use crate::CarvingStats;
use crate::limits::Limits;
use crate::step::{Candidate, CarveStep, Fate, carve_step};
use usn_record::zeros::skip_zeros;

// The candidates of an extract from an offset on. A turn of `next` goes on by what it meets, and counts nothing.
#[derive(Drop)]
struct Candidates<'a> {
    extract: &'a [u8],
    limits: Limits,
    offset: usize,
}

impl<'a> Iterator for Candidates<'a> {
    type Item = Candidate;

    ghost next_gives = { YieldsFirstBy event_of (λ s. events_from (settings_by s.limits) s.extract.now s.offset) };

    ghost remaining = { item_count (λ s. events_from (settings_by s.limits) s.extract.now s.offset) };

    #[inline(always)]
    fn next(&mut self) -> Option<Candidate> {
        loop {
            match carve_step(self.extract, self.offset, self.limits) {
                CarveStep::Stop => return None,
                CarveStep::Zero(next) => self.offset = skip_zeros(self.extract, next),
                CarveStep::Move(next) => self.offset = next,
                CarveStep::Met(candidate, next) => {
                    self.offset = next;
                    return Some(candidate);
                }
            }
        }
    }
}

// All candidates of an extract.
fn all_candidates<'a>(extract: &'a [u8], limits: Limits) -> Candidates<'a>
    ensures { (result.extract.now ≡ extract.entry.now) × (result.limits ≡ limits) × (result.offset ≡ 0) }
{
    Candidates {
        extract,
        limits,
        offset: 0,
    }
}

// Whether the records to be carved are no more than room. None is counted where room is enough for any extract so long: a
// carved record takes 64 bytes, of which the last may lack 4.
pub(crate) fn has_room(extract: &[u8], room: usize, limits: Limits) -> bool
    ensures { result ≡ leb (length (carved_places (settings_by limits) extract.now)) room }
{
    (extract.len() + 4) / 64 <= room || count_carved(all_candidates(extract, limits)) <= room
}

// How many candidates are carved.
fn count_carved(candidates: Candidates) -> usize
    requires { length (events_from (settings_by candidates.limits) candidates.extract.now candidates.offset) < 2 ^ 64 }
    ensures { let c = candidates.entry in result ≡ count_by is_carved (events_from (settings_by c.limits) c.extract.now c.offset) }
{
    candidates
        .filter(|candidate| matches!(candidate.fate, Fate::Carved(_)))
        .count()
}

// The carved records into the list, and the counters of the run.
pub(crate) fn fill_list(extract: &[u8], list: &mut [usize], limits: Limits) -> CarvingStats
    requires { length (carved_places (settings_by limits) extract.now) ≤ length list.old / 2 }
    ensures { FillPromise (settings_by limits) extract list result }
{
    let mut stats = nothing_met(extract.len());
    for candidate in all_candidates(extract, limits) {
        stats.candidates_examined += 1;
        match candidate.fate {
            Fate::BadStructure => stats.rejected_structure += 1,
            Fate::BadTime => stats.rejected_timestamp += 1,
            Fate::Carved(length) => {
                base::put_pair(list, 2 * stats.records_carved, candidate.offset, length);
                stats.records_carved += 1;
            }
        }
    }
    stats
}

// The counters of a run over so many bytes before its first candidate.
fn nothing_met(bytes_scanned: usize) -> CarvingStats
    ensures { result ≡ stats_of bytes_scanned [] }
{
    CarvingStats {
        bytes_scanned,
        candidates_examined: 0,
        records_carved: 0,
        rejected_timestamp: 0,
        rejected_structure: 0,
    }
}
