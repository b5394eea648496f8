// Text: UTF-16 in little-endian bytes is written as UTF-8, and numbers in decimal.
//
// Every function here is proved. The call has no `requires`: any bytes and any text get an answer. The modules' public writers ask
// for room and answer the index after what they wrote: they are helpers of our own crates and not offered as calls.
#![tactic(auto)]

mod ascii;
mod code_point;
pub mod decimal;
pub mod name;
pub mod plain;

ghost use Rattle.utf16.specs.Promise.{DecodePromise};

use crate::name::{has_room, put_name};
use base::DOMAIN;
use base::refusal::Refusal;

// The units of the bytes as UTF-8, at the front of the text; the bytes after it are left alone. An unpaired surrogate gives
// U+FFFD, and an odd last byte is dropped.
// Refused, with nothing written: 1 the bytes are above the domain, 8 the text is too small. Room for three bytes a unit is
// always enough, and then the units are read only once.
#[tactic(auto, unfolding(crate::specs::Decoding::decoding))]
pub fn decode_utf16(bytes: &[u8], text: &mut [u8]) -> Result<usize, Refusal>
    ensures { DecodePromise bytes text result }
{
    let n = bytes.len();
    if DOMAIN < n {
        return Err(Refusal::AboveDomain);
    }
    if !has_room(bytes, 0, n, text.len()) {
        return Err(Refusal::TextFull);
    }
    Ok(put_name(bytes, 0, n, text, 0))
}
