// The answer of a rewind's step as a number and words.
ghost use Rattle.std.specs.Prelude.{◌≡◌, ◌∷◌, ◌+◌, ◌≤◌, length};
ghost use Rattle.base.specs.Words.{AnswerPromise};
ghost use Rattle.rewind.specs.Words.{rewind_words};
ghost use Rattle.rewind_records.specs.Turning.{next_outcome};
ghost use Rattle.volume_answers.specs.Rewind.{next_words};

use base::words::{Row, put_row, put_rows};
use rewind::words::START_WORDS;
use rewind::{Rewind, Step};

// The words in front of what a step says of its record: what it answers, and the state after it.
pub const STEP_WORDS: usize = 3;

// The first word of a step's answer, as C reads it.
const KIND_END: u64 = 0;

const KIND_RECORD: u64 = 1;

// A step's answer: 0 with its words in front of the lent ones, or the refusal.
pub fn put_step<const N: usize, T: Row<N>>(step: Step<T>, out: &mut [u64]) -> u32
    requires { N + 3 ≤ length out.old }
    ensures { AnswerPromise (next_words T.words step.rewind) (next_outcome step.next) out result }
{
    let Step { next, rewind } = step;
    match next {
        Ok(Some(told)) => put_rows(&state_row(KIND_RECORD, rewind), &told.row(), out),
        Ok(None) => put_row(&state_row(KIND_END, rewind), out),
        Err(refusal) => refusal.number(),
    }
}

// What a step answers, and the state after it: the words that C reads.
fn state_row(kind: u64, rewind: Rewind) -> [u64; STEP_WORDS]
    ensures { result ≡ kind ∷ rewind_words rewind }
{
    let state: [u64; START_WORDS] = rewind.row();
    let [used, position] = state;
    [kind, used, position]
}
