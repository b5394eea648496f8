// How a C function gives out what a call answers: a number, 0 or a refusal's, and the answer's words at the front of a lent list.
ghost use Rattle.std.specs.Prelude.{ℕ, List, [], ◌∷◌, ◌≡◌, ◌+◌, ◌≤◌, length};
ghost use Rattle.base.specs.Outcome.{outcome};
ghost use Rattle.base.specs.Words.{AnswerPromise, RowPromise, RowsPromise, short_by, count_words};

use crate::put;
use crate::refusal::Refusal;

// A value that goes out as a row of N words.
pub trait Row<const N: usize> {
    ghost words: { Self → List ℕ };

    fn row(self) -> [u64; N]
        ensures { result ≡ words self };
}

// A count is a word.
impl Row<1> for usize {
    ghost words = { count_words };

    fn row(self) -> [u64; 1] {
        [self as u64]
    }
}

// What a call answers: 0 with the value's words at the front of out, or the refusal's number. The words past them stay as they were.
pub fn put_answer<const N: usize, T: Row<N>>(answer: Result<T, Refusal>, out: &mut [u64]) -> u32
    requires { N ≤ length out.old }
    ensures { AnswerPromise T.words (outcome answer) out result }
{
    match answer {
        Ok(value) => put_row(&value.row(), out),
        Err(refusal) => refusal.number(),
    }
}

// An answer: its words go to the front of out, and those past them stay as they were. Answers 0.
pub fn put_row(row: &[u64], out: &mut [u64]) -> u32
    requires { length row.now ≤ length out.old }
    ensures { RowPromise row out result }
{
    put(out, 0, row);
    0
}

// The same for an answer whose words are two rows, one behind the other.
pub fn put_rows(front: &[u64], rest: &[u64], out: &mut [u64]) -> u32
    requires { length front.now + length rest.now ≤ length out.old }
    ensures { RowsPromise front rest out result }
{
    put(out, 0, front);
    put(out, front.len(), rest);
    0
}

// The refusal of a call that is lent too few words for its answer: 1 where what it is to read is above the domain, else 5. It
// is a number, as C gets it.
pub fn short(above: bool) -> u32
    ensures { result ≡ short_by above }
{
    let refusal = if above {
        Refusal::AboveDomain
    } else {
        Refusal::ListFull
    };
    refusal.number()
}
