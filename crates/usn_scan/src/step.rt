// One visit of the scan: what stands at an offset of an extract, and where to go on.
ghost use Rattle.std.specs.Prelude.{◌≡◌, ◌+◌, ◌≤◌, cond, ltb};
ghost use Rattle.base.specs.Places.{round8};
ghost use Rattle.base.specs.Refusals.{domain};
ghost use Rattle.usn_record.specs.Record.{max_record};
ghost use Rattle.usn_scan.specs.Scan.{word, kind_record, kind_by_version, scan_visit_as, version_at, scan_visit};
ghost use Rattle.usn_scan.specs.Step.{Lying, scan_visit_of};

use crate::extract::Extract;
use base::Place;
use usn_record::bytes::{le_u16, le_u32};
use usn_record::layout::{
    MAJOR_VERSION, SHARED, USN_MAX_RECORD_SIZE, USN_V4_MIN_SIZE, V2, V3, Version,
};
use usn_record::parse::parse;

// What a visit says: stop, go on at the next offset, or the place of a record and the offset past it. A version 4 record tracks
// changed ranges and is a range.
#[derive(Clone, Copy)]
pub enum ScanStep {
    Stop,
    Move(usize),
    Record(Place, usize),
    Range(Place, usize),
}

// The visit at an offset: no room for a header, or a length that passes the end, stops the scan; a length that no record has moves
// on a word of 8 bytes, and so do zero words.
pub(crate) fn scan_step(extract: Extract, o: usize) -> ScanStep
    ensures { scan_visit_of result ≡ scan_visit extract.entry.bytes.now o }
{
    let size = extract.bytes.len();
    if size < 8 || size - 8 < o {
        return ScanStep::Stop;
    }
    let n = le_u32(extract.bytes, o) as usize;
    if n < USN_V4_MIN_SIZE || USN_MAX_RECORD_SIZE < n {
        return ScanStep::Move(o + 8);
    }
    if size - o < n {
        return ScanStep::Stop;
    }
    version_step(extract, o, n)
}

// The visit of n bytes that lie inside, by the version: a version 4 record is a range, and anything but 2, 3 and 4 moves on 8.
fn version_step(extract: Extract, o: usize, n: usize) -> ScanStep
    requires { Lying extract.bytes.now o n }
    ensures { scan_visit_of result ≡ scan_visit_as o n (kind_by_version n (version_at extract.entry.bytes.now o)) }
{
    let version = le_u16(extract.bytes, o + MAJOR_VERSION);
    match version {
        2 => record_step::<V2>(extract, o, n),
        3 => record_step::<V3>(extract, o, n),
        4 => ScanStep::Range(
            Place {
                offset: o,
                length: n,
            },
            past_record(o, n),
        ),
        _ => ScanStep::Move(o + 8),
    }
}

// The visit of n bytes of version V that lie inside: where the fixed part has room, the part that begins at the offset and is as long as
// the length field goes to the parser, and one that it refuses is passed over.
fn record_step<V: Version>(extract: Extract, o: usize, n: usize) -> ScanStep
    requires { Lying extract.bytes.now o n }
    ensures { scan_visit_of result ≡ scan_visit_as o n (cond (ltb n V.layout.fixed) word kind_record) }
{
    if n < V::USN + SHARED {
        return ScanStep::Move(o + 8);
    }
    let next = past_record(o, n);
    match parse::<V>(&extract.bytes[o..o + n]) {
        Ok(_) => ScanStep::Record(
            Place {
                offset: o,
                length: n,
            },
            next,
        ),
        Err(_) => ScanStep::Move(next),
    }
}

// The offset past a record: its length is rounded up to 8.
fn past_record(offset: usize, length: usize) -> usize
    requires { (offset ≤ domain) × (length ≤ max_record) }
    ensures { result ≡ offset + round8 length }
{
    offset + (length + 7) / 8 * 8
}
