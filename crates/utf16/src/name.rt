// Names: places of UTF-16 in a slice, as UTF-8.
//
// Most names are ASCII, and are written four units at once, up to the first four that are not. From there on a unit of ASCII is
// written as it is read, and the others are taken a code point at a time.
ghost use Rattle.std.specs.Prelude.{◌≡◌, ◌+◌, ◌*◌, ◌≤◌, length, leb};
ghost use Rattle.std.proofs.lemmas.List.Edits.{sets};
ghost use Rattle.utf16.specs.Utf16.{units_at};
ghost use Rattle.utf16.specs.Text.{decoded, name_text};

use crate::ascii::{four_ascii, four_at, put_four};
use crate::code_point::{code_point_length, first_code_point, put_code_point};
use usn_record::bytes::le_u16;

// The name of size bytes at an offset of the source, into a text, which has room for it. An odd last byte is dropped.
// A step over four units goes no further than to where a multiple of four is left; the bytes that it wrote beyond that are
// written over. So a name of ASCII has no units left over at its end, unless it has fewer than four in all. A turn takes one unit to four, so
// that no `for` counts the turns.
pub fn put_name(source: &[u8], offset: usize, size: usize, text: &mut [u8], at: usize) -> usize
    requires size_in_bounds { offset + size ≤ length source.now }
    requires size_in_bounds_2 { at + length (name_text source.now offset size) ≤ length text.old }
    ensures value { result ≡ at + length (name_text source.now offset size) }
    ensures text_after { text.new ≡ sets text.old at (name_text source.now offset size) }
{
    let mut from = offset;
    let mut left = size / 2;
    let mut to = at;
    while 4 <= left {
        let four = four_at(source, from);
        if four_ascii(four) {
            put_four(text, to, four);
            let after = (left - 1) / 4 * 4;
            let step = left - after;
            to += step;
            from += 2 * step;
            left = after;
        } else {
            break;
        }
    }
    put_units(source, from, left, text, to)
}

// The text of so many units at an offset of the source, into a text, which has room for it. A turn takes one unit or two, so that no `for`
// counts them.
fn put_units(source: &[u8], offset: usize, units: usize, text: &mut [u8], at: usize) -> usize
    requires units_in_bounds { offset + 2 * units ≤ length source.now }
    requires units_in_bounds_2 { at + length (decoded (units_at source.now offset units)) ≤ length text.old }
    ensures value { result ≡ at + length (decoded (units_at source.now offset units)) }
    ensures text_after { text.new ≡ sets text.old at (decoded (units_at source.now offset units)) }
{
    let mut from = offset;
    let mut left = units;
    let mut to = at;
    while 0 < left {
        let unit = le_u16(source, from);
        if unit < 0x80 {
            text[to] = unit as u8;
            to += 1;
            from += 2;
            left -= 1;
        } else {
            let first = first_code_point(source, from, left);
            let code = first.code;
            let taken = first.units;
            to = put_code_point(text, to, code);
            from += 2 * taken;
            left -= taken;
        }
    }
    to
}

// How many bytes the text of a name takes, by turns of one unit or two.
pub fn name_length(source: &[u8], offset: usize, size: usize) -> usize
    requires { offset + size ≤ length source.now }
    ensures { result ≡ length (name_text source.now offset size) }
{
    let mut from = offset;
    let mut left = size / 2;
    let mut sum: usize = 0;
    while 0 < left {
        let unit = le_u16(source, from);
        if unit < 0x80 {
            sum += 1;
            from += 2;
            left -= 1;
        } else {
            let first = first_code_point(source, from, left);
            let code = first.code;
            let units = first.units;
            sum += code_point_length(code);
            from += 2 * units;
            left -= units;
        }
    }
    sum
}

// Whether the text of a name takes no more than room bytes. They are counted only where room is less than three bytes a unit,
// the most that a unit gives.
pub(crate) fn has_room(source: &[u8], offset: usize, size: usize, room: usize) -> bool
    requires { offset + size ≤ length source.now }
    ensures { result ≡ leb (length (name_text source.now offset size)) room }
{
    if 3 * (size / 2) <= room {
        return true;
    }
    name_length(source, offset, size) <= room
}
