// What stands at one offset of an extract.
ghost use Rattle.std.specs.Prelude.{◌≡◌, [], ◌∷◌, ◌+◌, ◌≤◌, length};
ghost use Rattle.base.specs.Walk.{go};
ghost use Rattle.usn_record.specs.Bytes.{le_at};
ghost use Rattle.usn_carver.specs.Carve.{fits_inside, bad_name, carver_visit_as, carver_visit};
ghost use Rattle.usn_carver.specs.Step.{settings_by, event_by, carver_visit_of};

use crate::limits::{Limits, bad_time};
use usn_record::bytes::{le_u16, le_u32, le_u64};
use usn_record::layout::{
    MAJOR_VERSION, NAME_LENGTH, NAME_OFFSET, SHARED, TIME, USN_MAX_RECORD_SIZE, V2, V3, Version,
};

// A candidate, by its offset and the number of its version, as it is stored, and what becomes of it.
#[derive(Clone, Copy)]
pub struct Candidate {
    pub offset: usize,
    pub version: u16,
    pub fate: Fate,
}

// A candidate is rejected for its structure or its time, or carved with its length.
#[derive(Clone, Copy)]
pub enum Fate {
    BadStructure,
    BadTime,
    Carved(usize),
}

// What a visit says, with the offset of the next one: the extract ends, a zero word or nothing of interest is passed, or a
// candidate is met.
#[derive(Clone, Copy)]
pub enum CarveStep {
    Stop,
    Zero(usize),
    Move(usize),
    Met(Candidate, usize),
}

// The visit of offset o.
pub(crate) fn carve_step(extract: &[u8], o: usize, limits: Limits) -> CarveStep
    ensures { carver_visit_of result ≡ carver_visit (settings_by limits) extract.now o }
{
    let end = extract.len();
    if end < 8 || end - 8 < o {
        return CarveStep::Stop;
    }
    let size = le_u32(extract, o) as usize;
    if size == 0 {
        return CarveStep::Zero(o + 8);
    }
    let version = le_u16(extract, o + MAJOR_VERSION);
    match version {
        2 => examine::<V2>(extract, o, size, limits),
        3 => examine::<V3>(extract, o, size, limits),
        _ => CarveStep::Move(o + 8),
    }
}

// The visit where version V stands. The record is not parsed here: its parser accepts every candidate (proofs/CandidateLaws,
// candidate-parsed).
fn examine<V: Version>(extract: &[u8], o: usize, size: usize, limits: Limits) -> CarveStep
    requires { (o + 8 ≤ length extract.now) × (size ≡ le_at 4 extract.now o) }
    ensures { carver_visit_of result ≡ carver_visit_as (settings_by limits) V.layout extract.now o }
{
    let tail = V::USN;
    let fixed = tail + SHARED;
    if !is_candidate(fixed, extract.len(), o, size) {
        return CarveStep::Move(o + 8);
    }
    let version = V::MAJOR;
    let name_offset = le_u16(extract, o + (tail + NAME_OFFSET));
    let name_length = le_u16(extract, o + (tail + NAME_LENGTH));
    if bad_name(fixed, size, name_offset, name_length) {
        return met(o, version, Fate::BadStructure, o + 8);
    }
    if bad_time(le_u64(extract, o + (tail + TIME)), limits) {
        return met(o, version, Fate::BadTime, o + 8);
    }
    met(o, version, Fate::Carved(size), o + (size + 7) / 8 * 8)
}

// The visit of a candidate, and where to go on.
fn met(offset: usize, version: u16, fate: Fate, next: usize) -> CarveStep
    ensures { carver_visit_of result ≡ go (event_by offset version fate ∷ []) next }
{
    let candidate = Candidate {
        offset,
        version,
        fate,
    };
    CarveStep::Met(candidate, next)
}

// Whether a record of this size may stand at o, where its version has such a fixed part: it ends inside.
fn is_candidate(fixed: usize, end: usize, o: usize, size: usize) -> bool
    requires { o ≤ end }
    ensures { result ≡ fits_inside fixed end o size }
{
    fixed <= size && size <= USN_MAX_RECORD_SIZE && size <= end - o
}

// Whether a name does not begin after the fixed part, passes the record, or has a length that is 0 or odd.
fn bad_name(fixed: usize, size: usize, name_offset: u16, name_length: u16) -> bool
    ensures { result ≡ bad_name fixed size name_offset name_length }
{
    let offset = name_offset as usize;
    let length = name_length as usize;
    offset != fixed || size < offset + length || length == 0 || length % 2 != 0
}
