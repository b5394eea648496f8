// Little-endian reads over untrusted bytes: a read that runs past the slice is 0. And the bits of a signed number.
//
// Each read is made of two reads of half its width, which the compiler joins into one load after the range test. One read of N bytes
// for every width, by the library's `from_le_bytes`, takes the carver a tenth more time.
ghost use Rattle.std.specs.Prelude.{◌≡◌, ◌<◌};
ghost use Rattle.std.specs.Int.{w64};
ghost use Rattle.std.proofs.Common.{of_z};
ghost use Rattle.usn_record.specs.Bytes.{le_at};

// The byte at an offset.
pub fn byte_at(data: &[u8], offset: usize) -> u8
    ensures { result ≡ le_at 1 «data».now offset }
{
    if data.len() <= offset {
        return 0;
    }
    data[offset]
}

// The two bytes at an offset.
pub fn le_u16(data: &[u8], offset: usize) -> u16
    ensures { result ≡ le_at 2 «data».now offset }
{
    let n = data.len();
    if n < 2 {
        return 0;
    }
    if n - 2 < offset {
        return 0;
    }
    wide(data[offset]) + wide(data[offset + 1]) * 0x100
}

// The four bytes at an offset.
pub fn le_u32(data: &[u8], offset: usize) -> u32
    ensures { result ≡ le_at 4 «data».now offset }
{
    let n = data.len();
    if n < 4 {
        return 0;
    }
    if n - 4 < offset {
        return 0;
    }
    (le_u16(data, offset) as u32) + (le_u16(data, offset + 2) as u32) * 0x1_0000
}

// The eight bytes at an offset.
pub fn le_u64(data: &[u8], offset: usize) -> u64
    ensures { result ≡ le_at 8 «data».now offset }
{
    let n = data.len();
    if n < 8 {
        return 0;
    }
    if n - 8 < offset {
        return 0;
    }
    (le_u32(data, offset) as u64) + (le_u32(data, offset + 4) as u64) * 0x1_0000_0000
}

// The 64 bits of a signed number.
pub fn signed_bits(z: i64) -> u64
    ensures { result ≡ of_z w64 z }
{
    z.cast_unsigned()
}

fn wide(x: u8) -> u16
    ensures { (result ≡ x) × (result < 256) }
{
    x as u16
}
