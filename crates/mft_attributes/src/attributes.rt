// The attributes of a restored entry, one after the other, and the best name among them.
ghost use Rattle.std.specs.Prelude.{◌≡◌, ◌+◌, ◌≤◌, ◌<◌};
ghost use Rattle.usn_record.specs.Bytes.{le_at};
ghost use Rattle.mft_sectors.specs.Restored.{bytes_of, length_of};
ghost use Rattle.mft_attributes.specs.Attributes.{file_name, content_at, attribute_visit, filename_in};
ghost use Rattle.mft_attributes.specs.Step.{attribute_of, filename_at, kept_at, Inside, Walked, Better};

use crate::filename::{Filename, dominated};
use base::Place;
use mft_sectors::reads::Restored;
use usn_record::fields::parts_of;

// The type of a $FILE_NAME attribute.
const ATTR_FILE_NAME: u32 = 0x30;
// The mark after the last attribute.
const ATTR_END_MARKER: u32 = 0xFFFF_FFFF;

// What stands at an offset: the end of the walk, or an attribute, one that gives a name or another, and the offset past it. A name is
// told by where the content lies that has it.
#[derive(Clone, Copy)]
pub enum AttributeStep {
    End,
    Other(usize),
    Named(usize, usize),
}

// The best name among the first attributes, from first on, at most walked of them.
pub fn best_filename(entry: &Restored, first: usize, walked: usize) -> Option<Filename>
    ensures { result ≡ filename_in walked (bytes_of entry.now) first }
{
    let content = best_content(entry, first, walked)?;
    Some(filename_at(entry, content))
}

// Where the content lies that has that name. An offset is kept and no name, which would be copied at every attribute.
fn best_content(entry: &Restored, first: usize, walked: usize) -> Option<usize>
    ensures kept { kept_at (bytes_of entry.now) result ≡ filename_in walked (bytes_of entry.now) first }
    ensures inside { Inside (length_of entry.now) result }
{
    let mut best = None;
    let mut a = first;
    for _ in 0..walked {
        match attribute_step(entry, a) {
            AttributeStep::End => return best,
            AttributeStep::Other(next) => a = next,
            AttributeStep::Named(content, next) => {
                best = Some(better(entry, best, content));
                a = next;
            }
        }
    }
    best
}

// Of the content whose name is kept, if there is one, and another the one whose name is kept then.
#[tactic(auto, unfolding(crate::specs::Filename::keep))]
fn better(entry: &Restored, best: Option<usize>, content: usize) -> usize
    requires best_in { Inside (length_of entry.now) best }
    requires content_in { content < length_of entry.now }
    ensures better { Better (bytes_of entry.now) best content result }
    ensures inside { result < length_of entry.now }
{
    let Some(kept) = best else {
        return content;
    };
    if dominated(namespace_at(entry, kept), namespace_at(entry, content)) {
        return content;
    }
    kept
}

// The name that the content at c has.
fn filename_at(entry: &Restored, c: usize) -> Filename
    requires { c < length_of entry.now }
    ensures { result ≡ filename_at (bytes_of entry.now) c }
{
    Filename {
        place: Place {
            offset: c + 66,
            length: 2 * (entry.byte(c + 64) as usize),
        },
        parent: parts_of(entry.u64_at(c), 0, true),
        namespace: namespace_at(entry, c),
    }
}

// The namespace of that name.
fn namespace_at(entry: &Restored, c: usize) -> u8
    requires { c < length_of entry.now }
    ensures { result ≡ (content_at (bytes_of entry.now) c).namespace }
{
    entry.byte(c + 65)
}

// The attribute at a.
#[tactic(auto, unfolding(crate::specs::Attributes::attribute_visit, crate::specs::Attributes::attribute_at))]
fn attribute_step(entry: &Restored, a: usize) -> AttributeStep
    ensures { attribute_of (bytes_of entry.now) result ≡ attribute_visit (bytes_of entry.now) a }
{
    let end = entry.len();
    if end < 8 {
        return AttributeStep::End;
    }
    if end - 8 < a {
        return AttributeStep::End;
    }
    let kind = entry.u32_at(a);
    if kind == ATTR_END_MARKER {
        return AttributeStep::End;
    }
    let size = entry.u32_at(a + 4) as usize;
    if size < 8 {
        return AttributeStep::End;
    }
    if end - a < size {
        return AttributeStep::End;
    }
    if kind == ATTR_FILE_NAME {
        return filename_step(entry, a, size);
    }
    AttributeStep::Other(a + size)
}

// The $FILE_NAME attribute of size bytes at a. A name does not end inside it where its content's first 66 bytes do not, so no
// more is read then.
#[tactic(auto, unfolding(crate::specs::Attributes::attribute_at, crate::specs::Attributes::given))]
fn filename_step(entry: &Restored, a: usize, size: usize) -> AttributeStep
    requires { (file_name ≡ le_at 4 (bytes_of entry.now) a) × (size ≡ le_at 4 (bytes_of entry.now) (a + 4)) × (8 ≤ size) × (a + size ≤ length_of entry.now) }
    ensures { Walked (bytes_of entry.now) a size result }
{
    let next = a + size;
    if entry.len() - a <= 8 {
        return AttributeStep::Other(next);
    }
    if entry.byte(a + 8) != 0 {
        return AttributeStep::Other(next);
    }
    if entry.u32_at(a + 16) < 66 {
        return AttributeStep::Other(next);
    }
    let c = a + entry.u16_at(a + 20) as usize;
    if next < c + 66 {
        return AttributeStep::Other(next);
    }
    let length = 2 * (entry.byte(c + 64) as usize);
    if length == 0 {
        return AttributeStep::Other(next);
    }
    if next < c + 66 + length {
        return AttributeStep::Other(next);
    }
    AttributeStep::Named(c, next)
}
