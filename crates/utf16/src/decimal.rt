// Numbers in decimal, in ASCII.
ghost use Rattle.std.specs.Prelude.{◌≡◌, ◌+◌, ◌≤◌, length};
ghost use Rattle.std.proofs.lemmas.List.Edits.{sets};
ghost use Rattle.utf16.specs.Decimal.{decimal};

// The digits of n into a text, which has room for them. `write!` would want a writer with the text and the place, and would answer a Result;
// the kit's itoa writes into a buffer of its own, from which they would be copied.
pub fn put_decimal(text: &mut [u8], at: usize, n: u64) -> usize
    requires { at + length (decimal n) ≤ length text.old }
    ensures value { result ≡ at + length (decimal n) }
    ensures text_after { text.new ≡ sets text.old at (decimal n) }
{
    if n < 10 {
        text[at] = (0x30 + n) as u8;
        return at + 1;
    }
    let last = put_decimal(text, at, n / 10);
    text[last] = (0x30 + n % 10) as u8;
    last + 1
}

// How many digits n has.
pub fn decimal_length(n: u64) -> usize
    ensures { result ≡ length (decimal n) }
{
    match n.checked_ilog10() {
        Some(power) => power as usize + 1,
        None => 1,
    }
}
