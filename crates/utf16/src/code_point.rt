// Code points: the first of a name's units, and its UTF-8.
ghost use Rattle.std.specs.Prelude.{◌≡◌, ◌+◌, ◌*◌, ◌≤◌, ◌<◌, length};
ghost use Rattle.std.proofs.lemmas.List.Edits.{sets};
ghost use Rattle.utf16.specs.Utf16.{is_pair, alone};
ghost use Rattle.utf16.specs.Utf8.{utf8};
ghost use Rattle.utf16.specs.First.{First};

use usn_record::bytes::le_u16;

// What an unpaired surrogate gives.
const REPLACEMENT_CHARACTER: u32 = 0xFFFD;

// A code point, and how many units it takes.
#[derive(Clone, Copy)]
pub struct CodePoint {
    pub code: u32,
    pub units: usize,
}

// The first code point of the n units at an offset of the source.
pub(crate) fn first_code_point(source: &[u8], offset: usize, n: usize) -> CodePoint
    requires le_n { 1 ≤ n }
    requires n_in_bounds { offset + 2 * n ≤ length source.now }
    ensures { First source.now offset n result }
{
    let u = le_u16(source, offset) as u32;
    if n < 2 {
        return CodePoint {
            code: unpaired(u),
            units: 1,
        };
    }
    let v = le_u16(source, offset + 2) as u32;
    if is_pair(u, v) {
        return CodePoint {
            code: 0x10000 + (u - 0xD800) * 0x400 + (v - 0xDC00),
            units: 2,
        };
    }
    CodePoint {
        code: unpaired(u),
        units: 1,
    }
}

// Whether u is a high surrogate and v a low one.
fn is_pair(u: u32, v: u32) -> bool
    ensures { result ≡ is_pair u v }
{
    if u < 0xD800 {
        return false;
    }
    if 0xDBFF < u {
        return false;
    }
    if v < 0xDC00 {
        return false;
    }
    v <= 0xDFFF
}

// The code point of a unit that is not of a pair.
#[tactic(auto, unfolding(crate::specs::Utf16::alone))]
fn unpaired(u: u32) -> u32
    ensures { result ≡ alone u }
{
    if u < 0xD800 {
        return u;
    }
    if 0xDFFF < u {
        return u;
    }
    REPLACEMENT_CHARACTER
}

// How many bytes a code point takes.
#[tactic(auto, unfolding(crate::specs::Utf8::utf8))]
pub(crate) fn code_point_length(code: u32) -> usize
    ensures { result ≡ length (utf8 code) }
{
    if code < 0x80 {
        return 1;
    }
    if code < 0x800 {
        return 2;
    }
    if code < 0x10000 {
        return 3;
    }
    4
}

// The UTF-8 of a code point into a text, which has room for it. Its bytes are stored one by one: as an array, through base::put, names that
// are not in the cache take a fifth longer. `char::encode_utf8` promises nothing of the buffer that it writes.
#[tactic(auto, unfolding(crate::specs::Utf8::utf8))]
pub(crate) fn put_code_point(text: &mut [u8], at: usize, code: u32) -> usize
    requires code_bound { code < 0x110000 }
    requires code_in_bounds { at + length (utf8 code) ≤ length text.old }
    ensures value { result ≡ at + length (utf8 code) }
    ensures text_after { text.new ≡ sets text.old at (utf8 code) }
{
    if code < 0x80 {
        text[at] = code as u8;
        return at + 1;
    }
    if code < 0x800 {
        text[at] = (0xC0 + code / 0x40) as u8;
        text[at + 1] = (0x80 + code % 0x40) as u8;
        return at + 2;
    }
    if code < 0x10000 {
        text[at] = (0xE0 + code / 0x1000) as u8;
        text[at + 1] = (0x80 + code / 0x40 % 0x40) as u8;
        text[at + 2] = (0x80 + code % 0x40) as u8;
        return at + 3;
    }
    text[at] = (0xF0 + code / 0x40000) as u8;
    text[at + 1] = (0x80 + code / 0x1000 % 0x40) as u8;
    text[at + 2] = (0x80 + code / 0x40 % 0x40) as u8;
    text[at + 3] = (0x80 + code % 0x40) as u8;
    at + 4
}
