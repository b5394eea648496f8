// The numbers of a line into a text, each with a space after it.
ghost use Rattle.std.specs.Prelude.{◌≡◌, ◌+◌, ◌≤◌, ◌<◌, length};
ghost use Rattle.std.proofs.lemmas.List.Edits.{sets};
ghost use Rattle.io.specs.Digits.{hex_digit_ascii};
ghost use Rattle.usn_fields.specs.Line.{field, pair, signed_field, hex_digits, hex_field, numbers};

use usn_record::UsnRecord;
use utf16::decimal::put_decimal;
use utf16::plain::put_byte;

// All numbers of a record, in the order of the header, and where they end.
pub fn put_numbers(text: &mut [u8], offset: usize, r: UsnRecord) -> usize
    requires { 199 ≤ length text.old }
    ensures value { result ≡ length (numbers offset r) }
    ensures text_after { text.new ≡ sets text.old 0 (numbers offset r) }
    ensures upper_bound { result ≤ 199 }
{
    let time = r.timestamp;
    let file = put_pair(text, 0, offset as u64, r.major_version as u64);
    let parent = put_pair(text, file, r.mft_entry, r.mft_sequence as u64);
    let usn = put_pair(
        text,
        parent,
        r.parent_mft_entry,
        r.parent_mft_sequence as u64,
    );
    let seconds = put_signed_field(text, usn, r.usn);
    let reason = put_pair(text, seconds, time.seconds, time.nanoseconds as u64);
    put_hex_field(text, reason, r.reason)
}

// Two numbers in decimal.
fn put_pair(text: &mut [u8], at: usize, a: u64, b: u64) -> usize
    requires { at + 42 ≤ length text.old }
    ensures value { result ≡ at + length (pair a b) }
    ensures text_after { text.new ≡ sets text.old at (pair a b) }
    ensures upper_bound { result ≤ at + 42 }
{
    let next = put_field(text, at, a);
    put_field(text, next, b)
}

// A number in decimal. It has at most 20 digits.
fn put_field(text: &mut [u8], at: usize, n: u64) -> usize
    requires { at + 21 ≤ length text.old }
    ensures value { result ≡ at + length (field n) }
    ensures text_after { text.new ≡ sets text.old at (field n) }
    ensures upper_bound { result ≤ at + 21 }
{
    let end = put_decimal(text, at, n);
    put_byte(text, end, b' ')
}

// A signed number in decimal, with a minus sign if it is below 0.
fn put_signed_field(text: &mut [u8], at: usize, z: i64) -> usize
    requires { at + 22 ≤ length text.old }
    ensures value { result ≡ at + length (signed_field z) }
    ensures text_after { text.new ≡ sets text.old at (signed_field z) }
    ensures upper_bound { result ≤ at + 22 }
{
    let n = z.unsigned_abs();
    if z < 0 {
        let digits = put_byte(text, at, b'-');
        return put_field(text, digits, n);
    }
    put_field(text, at, n)
}

// A number as 8 hexadecimal digits.
fn put_hex_field(text: &mut [u8], at: usize, n: u32) -> usize
    requires { at + 9 ≤ length text.old }
    ensures value { result ≡ at + length (hex_field n) }
    ensures text_after { text.new ≡ sets text.old at (hex_field n) }
    ensures upper_bound { result ≤ at + 9 }
{
    let end = put_hex(text, at, n, 8);
    put_byte(text, end, b' ')
}

// The last k hexadecimal digits of n. `write!` would want a writer with the text and the place, and would answer a Result.
fn put_hex(text: &mut [u8], at: usize, n: u32, k: usize) -> usize
    requires { at + k ≤ length text.old }
    ensures value { result ≡ at + length (hex_digits k n) }
    ensures text_after { text.new ≡ sets text.old at (hex_digits k n) }
{
    if k == 0 {
        return at;
    }
    let last = put_hex(text, at, n / 16, k - 1);
    put_byte(text, last, hex_digit(n % 16))
}

// The ASCII code of a hexadecimal digit. `char::from_digit` would answer an Option of a char.
fn hex_digit(d: u32) -> u8
    requires { d < 16 }
    ensures { result ≡ hex_digit_ascii d }
{
    if d < 10 {
        return (0x30 + d) as u8;
    }
    (0x57 + d) as u8
}
