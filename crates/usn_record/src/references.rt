// The file references of the record at an offset, without its other fields.
ghost use Rattle.std.specs.Prelude.{◌≡◌, ◌<◌, length};
ghost use Rattle.usn_record.specs.References.{references_by, references_at};

use crate::bytes::le_u16;
use crate::fields::{Reference, parts_of, read_reference};
use crate::layout::{FILE_REFERENCE, MAJOR_VERSION, V2, V3, Version};

// The references of a record: that of its file, and that of the folder it stands in.
#[derive(Clone, Copy)]
pub struct References {
    pub file: Reference,
    pub parent: Reference,
}

// The references of the record at an offset of an extract, by the version field there. Nothing is tested: where no record stands they
// are what the bytes spell, and one that runs past the extract is 0.
pub fn references_at(extract: &[u8], offset: usize) -> References
    ensures { result ≡ references_at extract.now offset }
{
    if extract.len() <= offset {
        return References {
            file: parts_of(0, 0, false),
            parent: parts_of(0, 0, false),
        };
    }
    if le_u16(extract, offset + MAJOR_VERSION) == V2::MAJOR {
        references_in::<V2>(extract, offset)
    } else {
        references_in::<V3>(extract, offset)
    }
}

// The references of a record of version V.
fn references_in<V: Version>(extract: &[u8], offset: usize) -> References
    requires { offset < length extract.now }
    ensures { result ≡ references_by V.layout extract.now offset }
{
    References {
        file: read_reference::<V>(extract, offset + FILE_REFERENCE),
        parent: read_reference::<V>(extract, offset + V::PARENT_REFERENCE),
    }
}
