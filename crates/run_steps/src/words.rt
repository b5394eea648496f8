// A run of steps as words.
ghost use Rattle.std.specs.Prelude.{◌≡◌};
ghost use Rattle.run_steps.specs.Running.{stop_number};
ghost use Rattle.run_steps.specs.Words.{run_words};

use crate::RewindRun;
use base::refusal::Refusal;
use base::words::Row;

// The words of a run.
pub const RUN_WORDS: usize = 4;

// The number of what stopped a run, or 0.
fn stop_number(stopped: Option<Refusal>) -> u32
    ensures { result ≡ stop_number stopped }
{
    match stopped {
        None => 0,
        Some(refusal) => refusal.number(),
    }
}

impl Row<RUN_WORDS> for RewindRun {
    ghost words = { run_words };

    fn row(self) -> [u64; RUN_WORDS] {
        [
            self.steps as u64,
            stop_number(self.stopped) as u64,
            self.rewind.used as u64,
            self.rewind.position as u64,
        ]
    }
}
