// Whether the update sequence array of an entry is sound.
ghost use Rattle.std.specs.Prelude.{◌≡◌, ◌/◌, length};
ghost use Rattle.mft_sectors.specs.SectorEnds.{sector, ending, sound};

use usn_record::bytes::le_u16;

// The bytes of a sector.
pub const SECTOR: usize = 512;
// Those before its end.
pub const BODY: usize = 510;
// The least offset of an array.
const ARRAY_LOW: usize = 48;

// Whether the array has a number for each sector and one more, lies at an even offset of 48 or more, before the first attribute and
// before the first sector's end, and every sector ends with its first number.
#[tactic(auto, unfolding(crate::specs::SectorEnds::sound))]
pub fn is_sound(entry: &[u8]) -> bool
    ensures { result ≡ sound entry.now }
{
    let count = le_u16(entry, 6) as usize;
    if count != entry.len() / SECTOR + 1 {
        return false;
    }
    let array = le_u16(entry, 4) as usize;
    if array % 2 != 0 {
        return false;
    }
    if array < ARRAY_LOW {
        return false;
    }
    let end = array + 2 * count;
    let first = le_u16(entry, 20) as usize;
    if first < end {
        return false;
    }
    if BODY < end {
        return false;
    }
    all_end(entry, le_u16(entry, array))
}

// Whether every sector ends with the value.
fn all_end(entry: &[u8], value: u16) -> bool
    ensures { result ≡ ending (length entry.now / sector) value entry.now }
{
    (0..entry.len() / SECTOR).all(|k| le_u16(entry, SECTOR * k + BODY) == value)
}
