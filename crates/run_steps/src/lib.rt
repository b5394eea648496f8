// The steps of a run: each puts the next record into the forward table and its path behind those of the steps before it.
//
// Every function here is proved. They are helpers of our own crates: they ask for tests that have passed and for an index that is
// the table's, and keep both. Heads of length 0 are no index.
#![tactic(auto)]

pub mod words;

ghost use Rattle.std.specs.Prelude.{◌≤◌, ◌<◌, length};
ghost use Rattle.chain.specs.Settings.{levels};
ghost use Rattle.run_steps.specs.Promise.{RunStepPromise, RunAsks, StepsPromise};

use additions::entries::entry_at;
use base::refusal::Refusal;
use chain::way::WAY_WORDS;
use read_ahead::ahead_forward;
use rewind::Rewind;
use rewind_steps::{Stand, Told, make_step};

// A run of steps: how many were made, what stopped it before the next one, 6 or 8, if that was a refusal, and the rewind after the last
// one that was made.
#[derive(Clone, Copy)]
pub struct RewindRun {
    pub steps: usize,
    pub stopped: Option<Refusal>,
    pub rewind: Rewind,
}

// Where a run stands: its rewind, and where the text so far ends.
#[derive(Clone, Copy)]
pub(crate) struct Standing {
    rewind: Rewind,
    at: usize,
}

// The next step, where the tests have passed.
fn run_step(
    journal: &[u8],
    image: &[u8],
    records: &[usize],
    standing: Standing,
    forward: &mut [u64],
    heads: &mut [u64],
    nexts: &mut [u64],
    way: &mut [usize],
    text: &mut [u8],
) -> Result<Option<Told>, Refusal>
    requires run_asks { RunAsks journal.now image.now records.now forward.old standing.rewind heads.old nexts.old }
    requires levels_in_bounds { (levels < length way.old) × (standing.at ≤ length text.old) }
    ensures { RunStepPromise journal image forward heads nexts way text records standing result }
{
    let rewind = standing.rewind;
    let position = rewind.position;
    if records.len() / 2 <= position {
        return Ok(None);
    }
    let entry = entry_at(journal, records[position * 2]);
    let stand = Stand {
        used: rewind.used,
        at: standing.at,
    };
    let told = make_step(
        journal, image, entry, stand, forward, heads, nexts, way, text,
    )?;
    Ok(Some(told))
}

// As many steps as there are words for the ends of their texts, where the tests have passed.
pub fn run(
    journal: &[u8],
    image: &[u8],
    records: &[usize],
    rewind: Rewind,
    forward: &mut [u64],
    heads: &mut [u64],
    nexts: &mut [u64],
    ends: &mut [u64],
    text: &mut [u8],
) -> RewindRun
    requires { RunAsks journal.now image.now records.now forward.old rewind heads.old nexts.old }
    ensures { StepsPromise journal image records rewind forward heads nexts ends text result }
{
    let mut used = rewind.used;
    let mut position = rewind.position;
    let mut at: usize = 0;
    let mut read: usize = 0;
    let mut way: [usize; WAY_WORDS] = [0; WAY_WORDS];
    for i in 0..ends.len() {
        read = ahead_forward(
            journal, image, records, position, read, forward, heads, nexts,
        );
        let standing = Standing {
            rewind: Rewind { used, position },
            at,
        };
        match run_step(
            journal, image, records, standing, forward, heads, nexts, &mut way, text,
        ) {
            Ok(Some(told)) => {
                ends[i] = told.at as u64;
                at = told.at;
                used = told.used;
                position += 1;
            }
            Ok(None) => {
                return RewindRun {
                    steps: i,
                    stopped: None,
                    rewind: Rewind { used, position },
                };
            }
            Err(refusal) => {
                return RewindRun {
                    steps: i,
                    stopped: Some(refusal),
                    rewind: Rewind { used, position },
                };
            }
        }
    }
    RewindRun {
        steps: ends.len(),
        stopped: None,
        rewind: Rewind { used, position },
    }
}
