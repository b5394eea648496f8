// Bytes into a text as they are.
ghost use Rattle.std.specs.Prelude.{◌≡◌, [], ◌∷◌, ◌+◌, ◌≤◌, ◌<◌, length};
ghost use Rattle.std.proofs.lemmas.List.Edits.{sets};

use base::put;

// One byte.
pub fn put_byte(text: &mut [u8], at: usize, byte: u8) -> usize
    requires { at < length text.old }
    ensures value { result ≡ at + 1 }
    ensures text_after { text.new ≡ sets text.old at (byte ∷ []) }
{
    text[at] = byte;
    at + 1
}

// All of bytes, in order.
pub fn put_bytes(text: &mut [u8], at: usize, bytes: &[u8]) -> usize
    requires { at + length bytes.now ≤ length text.old }
    ensures value { result ≡ at + length bytes.now }
    ensures text_after { text.new ≡ sets text.old at bytes.now }
{
    put(text, at, bytes);
    at + bytes.len()
}
