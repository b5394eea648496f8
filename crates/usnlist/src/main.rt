// Lists a change journal: a line for each record, with its numbers and the path that its file had when it was written.
//
// Standard input is the journal, of which the first 65536 bytes are taken. Standard output is the listing of `usn_lines`, whose
// parts are written one after the other. Standard error tells that the input is longer, that reading failed, and that writing
// failed, after which nothing more is written.
//
// Every function here is proved safe and to end. `read_input` keeps what a reader gives, in its order and without a gap, and
// `list_journal` gives a writer the listing of a journal and nothing else, unless a write fails. No contract can say which bytes
// standard input gives and standard output takes: tests/usnlist holds that to the Rust original.
#![tactic(auto)]

ghost use Rattle.std.specs.Prelude.{◌*◌, ◌≤◌, ◌<◌, ◌≡◌, length, take, false, OnOk};
ghost use Rattle.std.specs.Io.KnownBytes.{Appends, Consumes, IsAtEnd};
ghost use Rattle.usn_lines.specs.Listing.{listing, no_words};
ghost use Rattle.usnlist.specs.Promise.{ListPromise, WritePromise, listing_text, parts_text};

use rewind::Rewind;
use std::io;
use std::io::{Read, Write};
use usn_lines::{begin, put_part};

// The bytes of the input that are taken.
const TAKEN: usize = 65536;

// What was read: how many bytes, and whether a read failed after them. Both are told, since the bytes before a failure are listed.
#[derive(Drop)]
struct Input {
    bytes: usize,
    failed: bool,
}

// Room for the input, and for one byte more, which tells that it is longer.
fn room() -> [u8; 65537]
    ensures { 65537 ≡ length result }
{
    [0; 65537]
}

// Room for a part of the listing.
fn part() -> [u8; 65736]
    ensures { 65736 ≡ length result }
{
    [0; 65736]
}

// Room for a list of 1024 records, two words each, and for a table of 1024 keys, seven words each.
fn list_words() -> [usize; 2048]
    ensures { 2048 ≡ length result }
{
    [0; 2048]
}

fn table_words() -> [u64; 7168]
    ensures len { 7168 ≡ length result }
    ensures zeros { result ≡ no_words }
{
    [0; 7168]
}

fn main(rt: HostRuntime) {
    let mut buffer = room();
    let input = read_input(&mut rt.stdin(), &mut buffer);
    if input.failed {
        warn(&rt, "usnlist: reading standard input failed");
    }
    let n = taken(&rt, input.bytes);
    if list_journal(&mut rt.stdout(), &buffer[..n]).is_err() {
        warn(&rt, "usnlist: writing standard output failed");
    }
}

// How many bytes are taken of so many, and on standard error that this is not all of them.
fn taken(rt: &impl Eprint, bytes: usize) -> usize
    ensures upper_bound { result ≤ bytes }
    ensures upper_bound_2 { result ≤ 65536 }
{
    if TAKEN < bytes {
        warn(
            rt,
            "usnlist: the input is longer than 65536 bytes, and the rest of it is not listed",
        );
        return TAKEN;
    }
    bytes
}

// A line on standard error, if it can be written there.
fn warn(rt: &impl Eprint, line: &str) {
    let _ = rt.eprintln(line);
}

// Reads until the buffer is full, the input ends or a read fails. A turn takes as many bytes as a read gives.
fn read_input<R: Read>(input: &mut R, buffer: &mut [u8]) -> Input
    ensures within { result.bytes ≤ length buffer.old }
    ensures in_order { Consumes (R.remaining input.old) (R.remaining input.new) (take result.bytes buffer.new) }
    ensures ended { result.failed ≡ false → result.bytes < length buffer.old → IsAtEnd (R.remaining input.new) }
{
    let mut n: usize = 0;
    while n < buffer.len() {
        let more = read_some(input, &mut buffer[n..]);
        if more.bytes == 0 {
            return Input {
                bytes: n,
                failed: more.failed,
            };
        }
        n += more.bytes;
    }
    Input {
        bytes: n,
        failed: false,
    }
}

// One read: no bytes where it fails, and at the end of the input.
fn read_some<R: Read>(input: &mut R, buffer: &mut [u8]) -> Input
    ensures within { result.bytes ≤ length buffer.old }
    ensures in_order { Consumes (R.remaining input.old) (R.remaining input.new) (take result.bytes buffer.new) }
    ensures ended { result.failed ≡ false → result.bytes ≡ 0 → 0 < length buffer.old → IsAtEnd (R.remaining input.new) }
{
    match input.read(buffer) {
        Ok(bytes) => Input {
            bytes,
            failed: false,
        },
        Err(_) => Input {
            bytes: 0,
            failed: true,
        },
    }
}

// The listing of a journal. An error where not all of it was written.
fn list_journal<W: Write>(out: &mut W, journal: &[u8]) -> io::Result<()>
    requires { length journal.now ≤ 65536 }
    ensures { OnOk result (Appends (W.contents out.old) (W.contents out.new) (listing journal.now)) }
{
    let mut list = list_words();
    let mut first = table_words();
    let mut forward = table_words();
    write_listing(out, journal, &mut list, &mut first, &mut forward)
}

// The same, with words for the list of its records and for two tables.
fn write_listing<W: Write>(
    out: &mut W,
    journal: &[u8],
    list: &mut [usize],
    first: &mut [u64],
    forward: &mut [u64],
) -> io::Result<()>
    requires { (length journal.now ≤ 65536) × (length list.old ≡ 2048) }
    ensures goes_through { ListPromise journal first forward result }
    ensures written { OnOk result (Appends (W.contents out.old) (W.contents out.new) (listing_text journal first forward)) }
{
    let begun = begin(journal, list, first, forward);
    write_parts(out, journal, list, begun.records, begun.rewind, forward)
}

// All parts of the listing of the first so many records of a list. An error where one was not written, and none after it.
fn write_parts<W: Write>(
    out: &mut W,
    journal: &[u8],
    list: &[usize],
    count: usize,
    start: Rewind,
    forward: &mut [u64],
) -> io::Result<()>
    requires { 2 * count ≤ length list.now }
    ensures goes_through { WritePromise journal list count start forward result }
    ensures written { OnOk result (Appends (W.contents out.old) (W.contents out.new) (parts_text journal list count start forward)) }
{
    let mut text = part();
    let mut rewind = start;
    for number in 0..count + 2 {
        let put = put_part(journal, list, count, number, rewind, forward, &mut text);
        out.write_all(&text[..put.end])?;
        rewind = put.rewind;
    }
    Ok(())
}
