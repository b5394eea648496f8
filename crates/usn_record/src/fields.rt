// What a record's numbers mean: signed numbers, times, file references, and the place of a name.
ghost use Rattle.std.specs.Prelude.{◌≡◌, cond, ◌+◌, ◌*◌, ◌^◌};
ghost use Rattle.std.specs.Int.{w64};
ghost use Rattle.std.proofs.Common.{to_z};
ghost use Rattle.usn_record.specs.Bytes.{le_at};
ghost use Rattle.usn_record.specs.Fields.{timestamp_of, reference_of, filename_of};

use crate::Timestamp;
use crate::bytes::le_u64;
use crate::layout::Version;
use base::Place;

// Ticks of 100 nanoseconds from the start of 1601, where FILETIME begins, to that of 1970.
const EPOCH_DIFF: u64 = 116_444_736_000_000_000;

// A file reference: the MFT entry, its sequence where the version keeps one, and the upper 64 bits of a 16-byte reference.
#[derive(Clone, Copy)]
pub struct Reference {
    pub entry: u64,
    pub sequence: u16,
    pub high: u64,
}

// The signed number with these bits.
pub(crate) fn signed(bits: u64) -> i64
    ensures { result ≡ to_z w64 bits }
{
    bits.cast_signed()
}

// A FILETIME, by its bits, as seconds and nanoseconds since 1970; one before that, also a negative one, is 0, 0.
pub(crate) fn filetime_to_timestamp(bits: u64) -> Timestamp
    ensures { result ≡ timestamp_of (to_z w64 bits) }
{
    if 0x8000_0000_0000_0000 <= bits || bits < EPOCH_DIFF {
        return Timestamp {
            seconds: 0,
            nanoseconds: 0,
        };
    }
    let past = bits - EPOCH_DIFF;
    Timestamp {
        seconds: past / 10_000_000,
        nanoseconds: ((past % 10_000_000) * 100) as u32,
    }
}

// The file reference at an offset, as version V has it. One that runs past the slice is 0.
pub(crate) fn read_reference<V: Version>(data: &[u8], at: usize) -> Reference
    ensures { result ≡ reference_of V.SEQUENCED (le_at (cond V.WIDE 16 8) «data».now at) }
{
    let low = le_u64(data, at);
    if !V::WIDE {
        return parts_of(low, 0, V::SEQUENCED);
    }
    let n = data.len();
    if n < 16 || n - 16 < at {
        return parts_of(0, 0, V::SEQUENCED);
    }
    let high = le_u64(data, at + 8);
    parts_of(low, high, V::SEQUENCED)
}

// The parts of the reference low + high * 2 ^ 64.
pub fn parts_of(low: u64, high: u64, sequenced: bool) -> Reference
    ensures { result ≡ reference_of sequenced (low + high * 2 ^ 64) }
{
    let entry = low % 0x1_0000_0000_0000;
    if sequenced {
        Reference {
            entry,
            sequence: (low / 0x1_0000_0000_0000) as u16,
            high,
        }
    } else {
        Reference {
            entry,
            sequence: 0,
            high,
        }
    }
}

// The place of a name of length bytes at offset, where it may go up to end; 0, 0 where it is empty or passes end.
pub(crate) fn filename_place(end: usize, offset: u16, length: u16) -> Place
    ensures { result ≡ filename_of end offset length }
{
    let o = offset as usize;
    let n = length as usize;
    if n < 2 || end < o + n {
        return Place {
            offset: 0,
            length: 0,
        };
    }
    Place {
        offset: o,
        length: n / 2 * 2,
    }
}
