// The journal reader as C functions, for Rust or C to link: a slice is a pointer and a length, and an answer goes out as a
// number, 0 or a refusal's, with its words in a lent list.
//
//     usn_parse_record_v2, usn_parse_record_v3    the record that a slice begins with
//     usn_listed_record                           the record at an offset of an extract
//     usn_parse_journal                           the places of an extract's records
//     usn_reader_new, usn_reader_next, usn_reader_give
//                                                 the records of a journal that is delivered in pieces
//     usn_carve_records                           the places of the records in raw bytes
//
// Every function here is proved, and none has a `requires`. A refused call writes nothing, and one that answers writes the words
// of its answer alone: those past them stay as they were. Too few words for the answer are refused with 5 directly behind 1, before
// everything else; too few words of a window, which a call has to read, before 1 too.
#![tactic(auto)]

ghost use Rattle.usn_record.specs.Layout.{v2, v3};
ghost use Rattle.usn_ffi.specs.Promise.{ParsePromise, ListedPromise, ScanPromise, CarvePromise, NewPromise, NextPromise, GivePromise};

use base::DOMAIN;
use base::refusal::Refusal;
use base::words::{put_answer, short};
use usn_answers::window::{READER_WORDS, READING_WORDS, put_reader, put_reading, reader_of};
use usn_carver::words::STATS_WORDS;
use usn_record::words::RECORD_WORDS;
use usn_window::UsnJournalReader;
use window_numbers::STREAM_DOMAIN;

// The words of a scan's answer.
const COUNT_WORDS: usize = 1;

// The version 2 record that data begins with, as 19 words. Answers 0, or refuses: 1 data is above the domain, 5 fewer than 19
// words are lent, 2 data is shorter than 60 bytes, 3 the length field is outside 60..65536, 4 it passes data.
#[unsafe(no_mangle)]
pub extern "C" fn usn_parse_record_v2(data: &[u8], words: &mut [u64]) -> u32
    ensures { ParsePromise v2 «data» words result }
{
    if words.len() < RECORD_WORDS {
        return short(DOMAIN < data.len());
    }
    put_answer(usn_record::parse_usn_record_v2(data), words)
}

// The version 3 record that data begins with, as 19 words. Answers 0, or refuses: 1 data is above the domain, 5 fewer than 19
// words are lent, 2 data is shorter than 76 bytes, 3 the length field is outside 76..65536.
#[unsafe(no_mangle)]
pub extern "C" fn usn_parse_record_v3(data: &[u8], words: &mut [u64]) -> u32
    ensures { ParsePromise v3 «data» words result }
{
    if words.len() < RECORD_WORDS {
        return short(DOMAIN < data.len());
    }
    put_answer(usn_record::parse_usn_record_v3(data), words)
}

// The record at an offset of an extract, as 19 words. Answers 0, or refuses: 5 fewer than 19 words are lent, 12 no version 2 or
// 3 record that its parser accepts stands there.
#[unsafe(no_mangle)]
pub extern "C" fn usn_listed_record(extract: &[u8], offset: usize, words: &mut [u64]) -> u32
    ensures { ListedPromise extract offset words result }
{
    if words.len() < RECORD_WORDS {
        return Refusal::ListFull.number();
    }
    put_answer(usn_record::listed_record(extract, offset), words)
}

// The version 2 and 3 records of an extract, in order: how many, a word of out, and for each its offset and length, two words
// of list. Answers 0, or refuses: 1 the extract is above the domain, 5 out has no word, or list fewer than two for each record.
#[unsafe(no_mangle)]
pub extern "C" fn usn_parse_journal(extract: &[u8], list: &mut [usize], out: &mut [u64]) -> u32
    ensures { ScanPromise extract list out result }
{
    if out.len() < COUNT_WORDS {
        return short(DOMAIN < extract.len());
    }
    put_answer(usn_scan::parse_usn_journal(extract, list), out)
}

// A window over a journal of total bytes, as 6 words of reader: start, position, end, held, total, and 1 where it has ended,
// else 0. The calls below take these words and leave those of the window after the call.
// Answers 0, or refuses: 5 reader has fewer than 6 words.
#[unsafe(no_mangle)]
pub extern "C" fn usn_reader_new(total: u64, reader: &mut [u64]) -> u32
    ensures { NewPromise total reader result }
{
    if reader.len() < READER_WORDS {
        return Refusal::ListFull.number();
    }
    put_reader(UsnJournalReader::new(total as usize), reader)
}

// The next record of the journal, 22 words of out: 2, its offset in the journal, its length and its 19 words, the name's place
// counted from the buffer's start. Or 3 words: 1, from where on bytes are wanted first, how many; or 0, 0, 0 at the end.
// Answers 0, or refuses: 5 reader has fewer than 6 words, 1 the total is above 1099511627776, 5 out has fewer than 22 words,
// 11 the buffer is not 65536 long, 9 the numbers cannot be a window's.
#[unsafe(no_mangle)]
pub extern "C" fn usn_reader_next(reader: &mut [u64], buffer: &[u8], out: &mut [u64]) -> u32
    ensures { NextPromise reader buffer out result }
{
    if reader.len() < READER_WORDS {
        return Refusal::ListFull.number();
    }
    let w = reader_of(reader);
    if out.len() < READING_WORDS {
        return short(STREAM_DOMAIN < w.total);
    }
    put_reading(w.next(buffer), reader, out)
}

// Takes bytes of the journal into the buffer, from where the last ones ended. 3 words of out: 1, from where on bytes are still
// wanted, how many; or 0, 0, 0 at the end, which comes where none are given while some are wanted.
// Answers 0, or refuses: as the call above, and 10 more bytes are given than are wanted.
#[unsafe(no_mangle)]
pub extern "C" fn usn_reader_give(
    reader: &mut [u64],
    buffer: &mut [u8],
    bytes: &[u8],
    out: &mut [u64],
) -> u32
    ensures { GivePromise reader buffer bytes out result }
{
    if reader.len() < READER_WORDS {
        return Refusal::ListFull.number();
    }
    let w = reader_of(reader);
    if out.len() < READING_WORDS {
        return short(STREAM_DOMAIN < w.total);
    }
    put_reading(w.give(buffer, bytes), reader, out)
}

// The version 2 and 3 records in raw bytes: for each its offset and length, two words of list, and 5 words of out: the bytes
// scanned, the candidates examined, the records carved, the candidates rejected for their time and for their structure.
// Answers 0, or refuses: 1 the extract is above the domain, 5 out has fewer than 5 words, or list fewer than two for each record.
#[unsafe(no_mangle)]
pub extern "C" fn usn_carve_records(extract: &[u8], list: &mut [usize], out: &mut [u64]) -> u32
    ensures { CarvePromise extract list out result }
{
    if out.len() < STATS_WORDS {
        return short(DOMAIN < extract.len());
    }
    put_answer(usn_carver::carve_usn_records(extract, list), out)
}
