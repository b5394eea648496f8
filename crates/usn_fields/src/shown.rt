// The bytes of a path as they are shown.
ghost use Rattle.std.specs.Prelude.{◌≡◌, ◌≤◌, length};
ghost use Rattle.usn_fields.specs.Line.{shown_byte, shown_to};

// The first n bytes of a text: each control character, a byte below 20h, becomes a question mark.
pub fn show(text: &mut [u8], n: usize)
    requires { n ≤ length text.old }
    ensures { text.new ≡ shown_to n text.old }
{
    for byte in &mut text[..n] {
        *byte = shown_byte(*byte);
    }
}

fn shown_byte(byte: u8) -> u8
    ensures { result ≡ shown_byte byte }
{
    if byte < 0x20 { b'?' } else { byte }
}
