// Reads of a restored entry: the entry with the true bytes at the ends of its sectors. Nothing is copied: a read that meets no sector's
// end is one of the entry as it is stored.
ghost use Rattle.std.specs.Prelude.{◌≡◌, ◌^◌, ◌%◌, ◌≤◌, ◌<◌, length};
ghost use Rattle.usn_record.specs.Bytes.{le_at};
ghost use Rattle.mft_sectors.specs.SectorEnds.{restored};
ghost use Rattle.mft_sectors.specs.Restored.{bytes_of, length_of};

use crate::sound::{BODY, SECTOR};
use usn_record::bytes::{byte_at, le_u16, le_u32, le_u64};

// An entry, as it is stored, and where its update sequence array stands.
#[derive(Clone, Copy)]
pub struct Restored<'a> {
    pub stored: &'a [u8],
    pub array: u16,
}

impl<'a> Restored<'a> {
    // The entry with the array that its header gives.
    pub fn of(entry: &'a [u8]) -> Self
        ensures { bytes_of result ≡ restored entry.now }
    {
        Restored {
            stored: entry,
            array: le_u16(entry, 4),
        }
    }

    pub fn len(&self) -> usize
        ensures value { result ≡ length (bytes_of self.now) }
        ensures stored { result ≡ length_of self.now }
    {
        self.stored.len()
    }

    pub fn byte(&self, offset: usize) -> u8
        ensures { result ≡ le_at 1 (bytes_of self.now) offset }
    {
        if offset % SECTOR < BODY {
            return byte_at(self.stored, offset);
        }
        self.end(offset)
    }

    // The reads of two, four and eight bytes are three functions: one for all of them would want a trait with each width, its plain read and
    // its cast, which is longer.
    pub fn u16_at(&self, offset: usize) -> u16
        ensures { result ≡ le_at 2 (bytes_of self.now) offset }
    {
        if offset % SECTOR <= BODY - 2 {
            return le_u16(self.stored, offset);
        }
        self.across(offset, 2) as u16
    }

    pub fn u32_at(&self, offset: usize) -> u32
        ensures { result ≡ le_at 4 (bytes_of self.now) offset }
    {
        if offset % SECTOR <= BODY - 4 {
            return le_u32(self.stored, offset);
        }
        self.across(offset, 4) as u32
    }

    pub fn u64_at(&self, offset: usize) -> u64
        ensures { result ≡ le_at 8 (bytes_of self.now) offset }
    {
        if offset % SECTOR <= BODY - 8 {
            return le_u64(self.stored, offset);
        }
        self.across(offset, 8)
    }

    // A byte of a sector's end, which is read at its home. This and the next are seldom called, and take the struct by value, so that the
    // compiler keeps its fields in registers for the reads above.
    #[cold]
    #[inline(never)]
    fn end(self, offset: usize) -> u8
        requires { 510 ≤ offset % 512 }
        ensures { result ≡ le_at 1 (bytes_of self.entry) offset }
    {
        if self.stored.len() <= offset {
            return 0;
        }
        let home = (self.array as usize) + 2 * (offset / SECTOR + 1) + (offset % SECTOR - BODY);
        byte_at(self.stored, home)
    }

    // The number of so many bytes wherever they are, byte by byte from the last.
    #[cold]
    #[inline(never)]
    fn across(self, offset: usize, width: usize) -> u64
        requires { width ≤ 8 }
        ensures value { result ≡ le_at width (bytes_of self.entry) offset }
        ensures bound { result < 256 ^ width }
    {
        let end = self.len();
        if end < width {
            return 0;
        }
        if end - width < offset {
            return 0;
        }
        let mut number = 0;
        for k in (0..width).rev() {
            number = number * 0x100 + self.byte(offset + k) as u64;
        }
        number
    }
}
