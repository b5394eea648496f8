// The path of the next record into a text, as it is shown.
ghost use Rattle.std.specs.Prelude.{◌≤◌, length, ◌≡◌};
ghost use Rattle.run_steps.specs.Running.{run_numbers};
ghost use Rattle.rewind_run.specs.Running.{run_outcome};
ghost use Rattle.usn_lines.specs.Promise.{PassPromise, PathPromise, WithinPromise, TextStepPromise, run_or};

use crate::Put;
use additions::entries::replaces_forward;
use base::refusal::Refusal;
use entry_table::adding::add;
use rewind::Rewind;
use rewind_records::turn::next_record;
use rewind_run::rewind_run;
use run_steps::RewindRun;
use usn_fields::shown::show;
use utf16::plain::put_byte;

// The most bytes of a path that is shown.
const MOST_PATH: usize = 65536;

// The next record's path, as it is shown, at the front of a text, and the rewind after it. A path that does not fit is one `?`, and
// the record is passed without its path: whether it fits or not, table and rewind are what the step leaves.
pub(crate) fn put_path(
    journal: &[u8],
    records: &[usize],
    rewind: Rewind,
    forward: &mut [u64],
    text: &mut [u8],
) -> Put
    requires { 65536 ≤ length text.old }
    ensures { PathPromise journal records rewind forward text result }
{
    put_within(journal, records, rewind, forward, text, MOST_PATH)
}

// The same with a path of at most so many bytes.
fn put_within(
    journal: &[u8],
    records: &[usize],
    rewind: Rewind,
    forward: &mut [u64],
    text: &mut [u8],
    most: usize,
) -> Put
    requires { (1 ≤ most) × (most ≤ length text.old) }
    ensures { WithinPromise journal records rewind forward text most result }
{
    match step_with_text(journal, records, rewind, forward, &mut text[..most]) {
        Some(path) => {
            show(text, path.end);
            path
        }
        None => {
            let end = put_byte(text, 0, b'?');
            let passed = pass_record(journal, records, rewind, forward);
            Put {
                end,
                rewind: passed,
            }
        }
    }
}

// A step with all of a text for its path, or none where that has no room or no record is left: a run that is asked for one. No index is lent: keys can be
// chosen so that all have one hash, and then the walk along its links takes longer than the pass over all slots.
fn step_with_text(
    journal: &[u8],
    records: &[usize],
    rewind: Rewind,
    forward: &mut [u64],
    text: &mut [u8],
) -> Option<Put>
    ensures { TextStepPromise journal records rewind forward text result }
{
    let mut heads: [u64; 0] = [];
    let mut nexts: [u64; 0] = [];
    let mut ends = [0u64; 1];
    let answer = rewind_run(
        journal, b"", records, rewind, forward, &mut heads, &mut nexts, &mut ends, text,
    );
    let run = run_or(rewind, answer);
    if run.steps == 0 {
        return None;
    }
    Some(Put {
        end: ends[0] as usize,
        rewind: run.rewind,
    })
}

// The run that a call answers, or one of no steps where it is refused.
fn run_or(rewind: Rewind, answer: Result<RewindRun, Refusal>) -> RewindRun
    ensures { run_numbers result ≡ run_or rewind (run_outcome answer) }
{
    match answer {
        Ok(run) => run,
        Err(_) => RewindRun {
            steps: 0,
            stopped: None,
            rewind,
        },
    }
}

// The next record goes into the forward table, and nothing is told of its path: what a step without text leaves.
fn pass_record(journal: &[u8], records: &[usize], rewind: Rewind, forward: &mut [u64]) -> Rewind
    ensures { PassPromise journal records rewind forward result }
{
    match next_record(journal, 0, records, forward, rewind.used, rewind.position) {
        Ok(Some(entry)) => match add(
            forward,
            rewind.used,
            entry.key,
            entry.info,
            replaces_forward(entry),
        ) {
            Ok(used) => Rewind {
                used,
                position: rewind.position + 1,
            },
            Err(_) => rewind,
        },
        Ok(None) => rewind,
        Err(_) => rewind,
    }
}
