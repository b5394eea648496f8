// Where the fields of a USN record lie, by Microsoft's pages USN_RECORD_V2 and USN_RECORD_V3, in bytes. Both versions have the
// record's length at 0.
ghost use Rattle.std.specs.Prelude.{◌≡◌, ℕ, Bool, ◌≤◌, ◌<◌, true, false, refl};
ghost use Rattle.std.proofs.Common.{lit≤, lit<};
ghost use Rattle.usn_record.specs.Layout.{Layout, v2, v3, layout_at};

// The major version, the minor one, and the file's reference.
pub const MAJOR_VERSION: usize = 4;

pub const MINOR_VERSION: usize = 6;

pub const FILE_REFERENCE: usize = 8;

// A version of the record: what tells it from the other.
pub trait Version {
    // Its number.
    const MAJOR: u16;

    // Where the folder's reference lies, and the USN, from which on both have the same fields.
    const PARENT_REFERENCE: usize;

    const USN: usize;

    // A file reference has 16 bytes; otherwise 8.
    const WIDE: bool;

    // Bits 48 to 63 of a reference are a sequence; otherwise the sequence is 0.
    const SEQUENCED: bool;

    // A record's length that passes the slice is refused.
    const LENGTH_IN_SLICE: bool;

    ghost MAJOR: { ℕ };

    ghost PARENT_REFERENCE: { ℕ };

    ghost USN: { ℕ };

    ghost WIDE: { Bool };

    ghost SEQUENCED: { Bool };

    ghost LENGTH_IN_SLICE: { Bool };

    // The layout of these numbers.
    ghost layout: { Layout };

    ghost is_made: { layout ≡ layout_at PARENT_REFERENCE USN WIDE SEQUENCED LENGTH_IN_SLICE MAJOR };

    ghost in_order: { PARENT_REFERENCE ≤ USN };

    ghost is_near: { USN < 4096 };
}

// Version 2.
pub struct V2;

impl Version for V2 {
    const MAJOR: u16 = 2;

    const PARENT_REFERENCE: usize = 0x10;

    const USN: usize = 0x18;

    const WIDE: bool = false;

    const SEQUENCED: bool = true;

    const LENGTH_IN_SLICE: bool = true;

    ghost MAJOR = { 2 };

    ghost PARENT_REFERENCE = { 0x10 };

    ghost USN = { 0x18 };

    ghost WIDE = { false };

    ghost SEQUENCED = { true };

    ghost LENGTH_IN_SLICE = { true };

    ghost layout = { v2 };

    ghost is_made = { refl };

    ghost in_order = { lit≤ tt };

    ghost is_near = { lit< tt };
}

// Version 3.
pub struct V3;

impl Version for V3 {
    const MAJOR: u16 = 3;

    const PARENT_REFERENCE: usize = 0x18;

    const USN: usize = 0x28;

    const WIDE: bool = true;

    const SEQUENCED: bool = false;

    const LENGTH_IN_SLICE: bool = false;

    ghost MAJOR = { 3 };

    ghost PARENT_REFERENCE = { 0x18 };

    ghost USN = { 0x28 };

    ghost WIDE = { true };

    ghost SEQUENCED = { false };

    ghost LENGTH_IN_SLICE = { false };

    ghost layout = { v3 };

    ghost is_made = { refl };

    ghost in_order = { lit≤ tt };

    ghost is_near = { lit< tt };
}

// Those fields, from the USN on, and the length of all of them.
pub const TIME: usize = 8;

pub const REASON: usize = 16;

pub const SOURCE_INFO: usize = 20;

pub const SECURITY_ID: usize = 24;

pub const FILE_ATTRIBUTES: usize = 28;

pub const NAME_LENGTH: usize = 32;

pub const NAME_OFFSET: usize = 34;

pub const SHARED: usize = 36;

// The length of each version's fixed part.
pub const USN_V2_MIN_SIZE: usize = V2::USN + SHARED;

pub const USN_V3_MIN_SIZE: usize = V3::USN + SHARED;

// The smallest record of any version, one of version 4.
pub const USN_V4_MIN_SIZE: usize = 56;

// The largest record.
pub const USN_MAX_RECORD_SIZE: usize = 65536;
