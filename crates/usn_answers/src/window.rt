// A window over a journal as words, and its answers as a number and words.
ghost use Rattle.std.specs.Prelude.{◌≡◌, ◌≤◌, length};
ghost use Rattle.base.specs.Outcome.{answered};
ghost use Rattle.base.specs.Words.{AnswerPromise};
ghost use Rattle.usn_answers.specs.Window.{reader_words, reader_of, given_words, reading_outcome, ReadingPromise};

use base::words::{Row, put_row, put_rows};
use usn_window::{Answer, Reading, UsnJournalReader};

// The words of a window, and those of its longest answer, a record's.
pub const READER_WORDS: usize = 6;

pub const READING_WORDS: usize = 22;

// The first word of an answer, as C reads it.
const KIND_END: u64 = 0;

const KIND_WANTS: u64 = 1;

const KIND_RECORD: u64 = 2;

// The window that the first words are.
pub fn reader_of(words: &[u64]) -> UsnJournalReader
    requires { 6 ≤ length words.now }
    ensures { result ≡ reader_of words.now }
{
    UsnJournalReader {
        start: words[0] as usize,
        position: words[1] as usize,
        end: words[2] as usize,
        held: words[3] as usize,
        total: words[4] as usize,
        ended: words[5] != 0,
    }
}

// The window's numbers in front of the lent words. Answers 0.
pub fn put_reader(w: UsnJournalReader, words: &mut [u64]) -> u32
    requires { 6 ≤ length words.old }
    ensures { AnswerPromise reader_words (answered w) words result }
{
    put_row(&reader_row(w), words)
}

// The window's numbers, a word each.
fn reader_row(w: UsnJournalReader) -> [u64; READER_WORDS]
    ensures { result ≡ reader_words w }
{
    [
        w.start as u64,
        w.position as u64,
        w.end as u64,
        w.held as u64,
        w.total as u64,
        w.ended as u64,
    ]
}

// A call's answer: 0 with the window's words and the answer's in front of the lent ones, or the refusal.
#[inline(always)]
pub fn put_reading(x: Reading, reader: &mut [u64], out: &mut [u64]) -> u32
    requires { (6 ≤ length reader.old) × (22 ≤ length out.old) }
    ensures { ReadingPromise (reading_outcome x) reader out result }
{
    match x.answer {
        Ok(answer) => {
            put_given(answer, out);
            put_reader(x.reader, reader)
        }
        Err(refusal) => refusal.number(),
    }
}

// The words of what is answered in front of the lent ones. Answers 0. An answer is no `Row`: how many words it has goes by its kind.
#[inline(always)]
fn put_given(answer: Answer, out: &mut [u64]) -> u32
    requires { 22 ≤ length out.old }
    ensures { AnswerPromise given_words (answered answer) out result }
{
    match answer {
        Answer::End => put_row(&[KIND_END, 0, 0], out),
        Answer::Wants { from, bytes } => put_row(&[KIND_WANTS, from as u64, bytes as u64], out),
        Answer::Record {
            offset,
            length,
            record,
        } => {
            let front = [KIND_RECORD, offset as u64, length as u64];
            put_rows(&front, &record.row(), out)
        }
    }
}
