// ASCII, four units at once: they are read as one number, the first unit in its lowest bits.
//
// The tests and the bytes are written with remainders and quotients, of which the compiler makes one mask and shifts.
ghost use Rattle.std.specs.Prelude.{◌≡◌, true, ◌+◌, ◌≤◌, length};
ghost use Rattle.std.proofs.lemmas.List.Edits.{sets};
ghost use Rattle.usn_record.specs.Bytes.{le_at};
ghost use Rattle.utf16.specs.Ascii.{four_units, four_ascii};

use usn_record::bytes::le_u64;

// The four units at an offset, which lie inside the source: of a part of just these bytes no range is tested.
pub(crate) fn four_at(source: &[u8], offset: usize) -> u64
    requires { offset + 8 ≤ length source.now }
    ensures { result ≡ le_at 8 source.now offset }
{
    let end = offset + 8;
    le_u64(&source[offset..end], 0)
}

// Whether each of the four units is below 80h.
#[tactic(auto, unfolding(crate::specs::Ascii::four_ascii))]
pub(crate) fn four_ascii(units: u64) -> bool
    ensures { result ≡ four_ascii units }
{
    if 0x80 <= units % 0x1_0000 {
        return false;
    }
    if 0x80 <= units / 0x1_0000 % 0x1_0000 {
        return false;
    }
    if 0x80 <= units / 0x1_0000_0000 % 0x1_0000 {
        return false;
    }
    units / 0x1_0000_0000_0000 % 0x1_0000 < 0x80
}

// Four units of ASCII into a text, which has room for them: a byte each, stored one by one for the speed (see put_code_point).
#[tactic(auto, unfolding(crate::specs::Ascii::four_ascii))]
pub(crate) fn put_four(text: &mut [u8], at: usize, units: u64)
    requires units_value { four_ascii units ≡ true }
    requires at_in_bounds { at + 4 ≤ length text.old }
    ensures { text.new ≡ sets text.old at (four_units units) }
{
    text[at] = (units % 0x1_0000) as u8;
    text[at + 1] = (units / 0x1_0000 % 0x1_0000) as u8;
    text[at + 2] = (units / 0x1_0000_0000 % 0x1_0000) as u8;
    text[at + 3] = (units / 0x1_0000_0000_0000 % 0x1_0000) as u8;
}
