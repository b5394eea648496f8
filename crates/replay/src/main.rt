// Replays recorded answers of the Rust original: makes the call of each case on standard input, and writes the answer in lines.
//
// A case is a byte, its kind, four bytes, its length, and its bytes. By its kind these are
//
//     1, 2        a slice, for the parser of version 2 and of version 3
//     3, 4, 5     a journal, for the scan, the carver and the window
//     6, 7        an image, for the carver; a name, to be decoded
//     8, 9        a journal, which begins a program with an empty table; the program's image
//     10, 11      insert and insert if absent: seven words
//     12          seed: nine words an entry
//     13, 14      a path, by the two words of its key; a stored name, by the three words of its place
//     15          a rewind of the program's journal, over the entries of its image: no bytes
//
// A word has eight bytes. The file `stdout` beside src/ holds what the original answered; tests/differential wrote both (--record).
//
// Every function here is proved safe.
#![tactic(auto)]

mod images;
mod kinds;
mod paths;
mod readers;
mod rewinds;
mod texts;

ghost use Rattle.std.specs.Prelude.{◌≡◌, ◌≤◌, length, IfOk};

use crate::kinds::{Kind, UnknownKind};
use recording::cases::{Case, split_case};
use recording::lines::write_count;
use std::io;
use std::io::{BufWriter, Read, Write};
use usn_record::{parse_usn_record_v2, parse_usn_record_v3};

// A program: its journal and its image, which lie in the recording, and how many slots of its table are used.
#[derive(Clone, Copy)]
struct Program<'a> {
    journal: &'a [u8],
    image: &'a [u8],
    used: usize,
}

fn main(rt: HostRuntime) -> io::Result<()> {
    let mut buffer = room();
    let n = read_full(&mut rt.stdin(), &mut buffer)?;
    let mut slots = [0u64; 2100];
    let mut out = BufWriter::new(rt.alloc(), rt.stdout())?;
    replay_all(&mut out, &buffer[..n], &mut slots)?;
    out.flush()
}

// Room for a recording.
fn room() -> [u8; 524288]
    ensures { 524288 ≡ length result }
{
    [0; 524288]
}

// Reads until the buffer is full or the input ends, and answers how many bytes were read. A turn takes as many as a read gives.
fn read_full<R: Read>(input: &mut R, buffer: &mut [u8]) -> io::Result<usize>
    ensures { IfOk result (λ n. n ≤ length buffer.old) }
{
    let mut n: usize = 0;
    while n < buffer.len() {
        let more = input.read(&mut buffer[n..])?;
        if more == 0 {
            return Ok(n);
        }
        n += more;
    }
    Ok(n)
}

// Each case in turn: where the next one begins is said by the one before it.
fn replay_all<W: Write>(out: &mut W, recording: &[u8], slots: &mut [u64]) -> io::Result<()> {
    let mut program = Program {
        journal: &[],
        image: &[],
        used: 0,
    };
    let mut rest = recording;
    while let Some((case, behind)) = split_case(rest) {
        program = answer(out, case, program, slots)?;
        rest = behind;
    }
    Ok(())
}

// The program after a case.
fn answer<'a, W: Write>(
    out: &mut W,
    case: Case<'a>,
    program: Program<'a>,
    slots: &mut [u64],
) -> io::Result<Program<'a>> {
    match Kind::try_from(case.kind) {
        Ok(kind) => call(out, kind, case.bytes, program, slots),
        Err(UnknownKind(number)) => {
            write_count(out, b"unknown ", number as u64)?;
            out.write_all(b"\n")?;
            Ok(program)
        }
    }
}

// The call of a case. A journal begins a program without an image, and with an empty table.
fn call<'a, W: Write>(
    out: &mut W,
    kind: Kind,
    bytes: &'a [u8],
    program: Program<'a>,
    slots: &mut [u64],
) -> io::Result<Program<'a>> {
    let Program {
        journal,
        image,
        used,
    } = program;
    match kind {
        Kind::ParseV2 => readers::write_parsed(out, parse_usn_record_v2(bytes), bytes)?,
        Kind::ParseV3 => readers::write_parsed(out, parse_usn_record_v3(bytes), bytes)?,
        Kind::Scan => readers::scan(out, bytes)?,
        Kind::CarveRecords => readers::carve(out, bytes)?,
        Kind::Window => readers::window(out, bytes)?,
        Kind::CarveEntries => images::carve(out, bytes)?,
        Kind::Decode => images::decode(out, bytes)?,
        Kind::Journal => {
            return Ok(Program {
                journal: bytes,
                image: &bytes[..0],
                used: 0,
            });
        }
        Kind::Image => {
            return Ok(Program {
                image: bytes,
                ..program
            });
        }
        Kind::Insert => {
            let key = paths::key_in(bytes);
            let info = paths::info_in(bytes);
            let answer = entry_table::insert(journal, image, slots, used, key, info);
            let used = paths::stored(out, answer, used)?;
            return Ok(Program { used, ..program });
        }
        Kind::InsertIfAbsent => {
            let key = paths::key_in(bytes);
            let info = paths::info_in(bytes);
            let answer = entry_table::insert_if_absent(journal, image, slots, used, key, info);
            let used = paths::stored(out, answer, used)?;
            return Ok(Program { used, ..program });
        }
        Kind::Seed => {
            let answer = paths::seed(journal, image, bytes, used, slots);
            let used = paths::stored(out, answer, used)?;
            return Ok(Program { used, ..program });
        }
        Kind::Path => paths::write_path(out, journal, image, bytes, used, slots)?,
        Kind::Name => paths::write_name(out, journal, image, bytes)?,
        Kind::Rewind => rewinds::rewind_journal(out, journal, image)?,
    }
    Ok(program)
}
