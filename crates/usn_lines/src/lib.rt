// The listing of a change journal as text: a header, a line for each record with its numbers and the path that its file had when
// it was written, and a last line that counts the records.
//
// `begin` scans a journal and starts the rewind of its records from an empty table. The listing then comes in parts, one after the
// other: part 0 is the header, the next ones are the records' lines, and the one after those is the last line. `put_part` writes one
// of them to the front of a lent text. All parts, one behind the other, are the listing (`parts-make-listing`).
//
// Every function here is proved, with the text that it writes.
#![tactic(auto)]

mod next_path;

ghost use Rattle.std.specs.Prelude.{◌*◌, ◌≤◌, ◌<◌, ◌≡◌, length};
ghost use Rattle.std.proofs.lemmas.List.Edits.{sets};
ghost use Rattle.usn_lines.specs.Listing.{numbers_at, last_line};
ghost use Rattle.usn_lines.specs.Promise.{BeginPromise, StartPromise, LinePromise, PartPromise};

use crate::next_path::put_path;
use rewind::{Rewind, rewind_start};
use usn_fields::fields::put_numbers;
use usn_record::listed_record;
use usn_scan::parse_usn_journal;
use utf16::decimal::put_decimal;
use utf16::plain::{put_byte, put_bytes};

// A listing that begins: how many records it has, and the rewind of them.
#[derive(Clone, Copy)]
pub struct Begun {
    pub records: usize,
    pub rewind: Rewind,
}

// What is at the front of a text: where it ends, and the rewind after it.
#[derive(Clone, Copy)]
pub struct Put {
    pub end: usize,
    pub rewind: Rewind,
}

// A rewind of no records, over an empty table.
const NOTHING_REWOUND: Rewind = Rewind {
    used: 0,
    position: 0,
};

// The records of a journal of at most 65536 bytes, into a list of 2048 words: it has at most 1024, since each takes at least 64 bytes.
// The rewind is started from an empty table, for which words are lent as for its forward table.
pub fn begin(journal: &[u8], list: &mut [usize], first: &mut [u64], forward: &mut [u64]) -> Begun
    requires { (length journal.now ≤ 65536) × (length list.old ≡ 2048) }
    ensures { BeginPromise journal list first forward result }
{
    match parse_usn_journal(journal, list) {
        Ok(records) => {
            let end = 2 * records;
            let rewind = start(journal, &list[..end], first, forward);
            Begun { records, rewind }
        }
        Err(_) => Begun {
            records: 0,
            rewind: NOTHING_REWOUND,
        },
    }
}

// The start of the rewind.
fn start(journal: &[u8], records: &[usize], first: &mut [u64], forward: &mut [u64]) -> Rewind
    ensures { StartPromise journal records first forward result }
{
    match rewind_start(journal, b"", records, first, 0, forward) {
        Ok(rewind) => rewind,
        Err(_) => NOTHING_REWOUND,
    }
}

// A part of the listing of the first so many records of a list, by its number, at the front of a text. Of a line, the longest part,
// the numbers take at most 199 bytes, the path 65536, and the end 1.
pub fn put_part(
    journal: &[u8],
    list: &[usize],
    count: usize,
    number: usize,
    rewind: Rewind,
    forward: &mut [u64],
    text: &mut [u8],
) -> Put
    requires { (2 * count ≤ length list.now) × (65736 ≤ length text.old) }
    ensures { PartPromise journal list count number rewind forward text result }
{
    if number == 0 {
        let end = put_bytes(
            text,
            0,
            b"offset version entry sequence parent parent-sequence usn seconds nanoseconds reason path\n",
        );
        return Put { end, rewind };
    }
    if number <= count {
        let end = 2 * count;
        return put_line(journal, &list[..end], number - 1, rewind, forward, text);
    }
    let end = put_last_line(text, count);
    Put { end, rewind }
}

// The line of a record, by its number in the list, which is the next one of the rewind.
fn put_line(
    journal: &[u8],
    records: &[usize],
    number: usize,
    rewind: Rewind,
    forward: &mut [u64],
    text: &mut [u8],
) -> Put
    requires { (number * 2 < length records.now) × (65736 ≤ length text.old) }
    ensures { LinePromise journal records number rewind forward text result }
{
    let at = put_record(journal, records[number * 2], text);
    let path = put_path(journal, records, rewind, forward, &mut text[at..]);
    let end = put_byte(text, at + path.end, b'\n');
    let next = path.rewind;
    Put { end, rewind: next }
}

// The numbers of the record at an offset, a space after each.
fn put_record(journal: &[u8], offset: usize, text: &mut [u8]) -> usize
    requires { 199 ≤ length text.old }
    ensures value { result ≡ length (numbers_at journal.now offset) }
    ensures text_after { text.new ≡ sets text.old 0 (numbers_at journal.now offset) }
    ensures upper_bound { result ≤ 199 }
{
    match listed_record(journal, offset) {
        Ok(record) => put_numbers(text, offset, record),
        Err(_) => 0,
    }
}

// The last line: how many records there are.
fn put_last_line(text: &mut [u8], count: usize) -> usize
    requires { 29 ≤ length text.old }
    ensures value { result ≡ length (last_line count) }
    ensures text_after { text.new ≡ sets text.old 0 (last_line count) }
    ensures upper_bound { result ≤ 29 }
{
    let at = put_bytes(text, 0, b"records ");
    let end = put_decimal(text, at, count as u64);
    put_byte(text, end, b'\n')
}
