// The numbers of a window over a journal: where it ends, and which numbers cannot be a window's.
//
// Every function here is proved. No function has a `requires`: any numbers get an answer.
#![tactic(auto)]

ghost use Rattle.std.specs.Prelude.{◌≡◌};
ghost use Rattle.base.specs.Outcome.{outcome};
ghost use Rattle.base.specs.Words.{number};
ghost use Rattle.window_numbers.specs.Numbers.{window_end, wrong_end, numbers_of, numbers_refusal};

use base::refusal::Refusal;

// The bytes of a window, and the length of the buffer that is lent for it.
pub const WINDOW_SIZE: usize = 65536;
// The most bytes of a stream.
pub const STREAM_DOMAIN: usize = 1099511627776;

// Whether a call with these numbers and a buffer of so many bytes is answered, or why it is refused. The numbers are parameters, as
// the window whose fields they are is a struct of the crate above.
// Refused: 1 the total is above 1099511627776, 11 the buffer is not 65536 long, 9 the numbers cannot be a window's.
pub fn check(
    start: usize,
    position: usize,
    end: usize,
    held: usize,
    total: usize,
    buffer_length: usize,
) -> Result<(), Refusal>
    ensures { number (outcome result) ≡ numbers_refusal (numbers_of start position end held total) buffer_length }
{
    if STREAM_DOMAIN < total {
        return Err(Refusal::AboveDomain);
    }
    if buffer_length != WINDOW_SIZE {
        return Err(Refusal::BadBuffer);
    }
    if total < end {
        return Err(Refusal::BadState);
    }
    if wrong_end(start, end, total) {
        return Err(Refusal::BadState);
    }
    if start % 8 != 0 {
        return Err(Refusal::BadState);
    }
    if position % 8 != 0 {
        return Err(Refusal::BadState);
    }
    if position < start {
        return Err(Refusal::BadState);
    }
    if (end + 7) / 8 * 8 < position {
        return Err(Refusal::BadState);
    }
    if end < start {
        return Err(Refusal::BadState);
    }
    if end - start < held {
        return Err(Refusal::BadState);
    }
    Ok(())
}

// The end is not that of a window that starts there, nor 0, as before the first refill.
fn wrong_end(start: usize, end: usize, total: usize) -> bool
    ensures { result ≡ wrong_end start end total }
{
    end != window_end(start, total) && end != 0
}

// Where a window that starts at p ends.
pub fn window_end(p: usize, total: usize) -> usize
    ensures { result ≡ window_end p total }
{
    if total <= p {
        return total;
    }
    if total - p <= WINDOW_SIZE {
        return total;
    }
    p + WINDOW_SIZE
}
