// The cases of a recording.
ghost use Rattle.std.specs.Prelude.{IfSome};
ghost use Rattle.recording.specs.Cases.{Begins};

use usn_record::bytes::{byte_at, le_u32};

// A case: the byte of its kind, which may be any, and its bytes.
#[derive(Clone, Copy)]
pub struct Case<'a> {
    pub kind: u8,
    pub bytes: &'a [u8],
}

// The first case of a recording, and what is behind it: a byte, its kind, four bytes, its length, and its bytes. None where fewer bytes
// are left.
pub fn split_case(cases: &[u8]) -> Option<(Case<'_>, &[u8])>
    ensures { IfSome result (λ found. Begins cases.now found.0.bytes.now found.1.now) }
{
    let kind = byte_at(cases, 0);
    let length = le_u32(cases, 1) as usize;
    let (_, behind) = cases.split_at_checked(5)?;
    let (bytes, rest) = behind.split_at_checked(length)?;
    Some((Case { kind, bytes }, rest))
}
