// The window over a journal that is delivered in pieces: `next` answers the next record or says which bytes it wants, `give` takes them.
//
// Every function here is proved. No call has a `requires`: numbers that cannot be a window's, a buffer of another length and too many
// bytes are refused, and the window comes back equal.
//
// However the bytes of a journal are delivered, one or more of the wanted ones at a time, no call is refused, the end is reached within
// 4 calls a byte and 17 more, not counting those that ask again before all bytes are given, and the records are the same, with the
// bytes of their names in the buffer (proofs/FullReads.antt).
#![tactic(auto)]

mod turn;
mod window;

ghost use Rattle.std.specs.Prelude.{◌≡◌, length};
ghost use Rattle.usn_window.specs.Window.{fresh};
ghost use Rattle.usn_window.specs.Calls.{next_of};
ghost use Rattle.usn_window.specs.Promise.{GivePromise};
ghost use Rattle.usn_window.specs.Rule.{buffer_reads};

use base::refusal::Refusal;
use usn_record::UsnRecord;
use window_numbers::WINDOW_SIZE;

// The bytes of a window, and the length of the buffer that is lent for it.
pub const BUF_SIZE: usize = WINDOW_SIZE;

// The window's numbers. The buffer holds the stream's bytes from start on, up to held of them; records are read from position on up
// to end; ended says that nothing is wanted any more.
#[derive(Clone, Copy)]
pub struct UsnJournalReader {
    pub start: usize,
    pub position: usize,
    pub end: usize,
    pub held: usize,
    pub total: usize,
    pub ended: bool,
}

// What a call answers that is not refused.
#[derive(Clone, Copy)]
pub enum Answer {
    // A record: its place in the stream, and its fields. The place of its name counts from the start of the buffer.
    Record {
        offset: usize,
        length: usize,
        record: UsnRecord,
    },
    // So many bytes are wanted, from this place of the stream on.
    Wants {
        from: usize,
        bytes: usize,
    },
    // There is no further record.
    End,
}

// An answer or a refusal, and the window after it.
#[derive(Clone, Copy)]
pub struct Reading {
    pub answer: Result<Answer, Refusal>,
    pub reader: UsnJournalReader,
}

impl UsnJournalReader {
    // A window over a stream of total bytes, before its first refill.
    pub fn new(total: usize) -> UsnJournalReader
        ensures { result ≡ fresh total }
    {
        UsnJournalReader {
            start: 0,
            position: 0,
            end: 0,
            held: 0,
            total,
            ended: false,
        }
    }

    // The next record, the bytes that are wanted first, or the end. Refused: 1 the total is above 1099511627776, 11 the buffer is not
    // 65536 long, 9 the numbers cannot be a window's. The buffer is not written.
    pub fn next(self, buffer: &[u8]) -> Reading
        ensures { result ≡ next_of (buffer_reads buffer.now) (length buffer.now) self }
    {
        if let Err(refusal) = self.check(buffer.len()) {
            return Reading {
                answer: Err(refusal),
                reader: self,
            };
        }
        if self.ended {
            return Reading {
                answer: Ok(Answer::End),
                reader: self,
            };
        }
        if self.wanted() != 0 {
            return self.asking();
        }
        self.search(buffer)
    }

    // Takes bytes of the stream, from where the last ones ended: answers what is still wanted. None while some are wanted end the
    // reading for good. Refused: 1 the total is above 1099511627776, 11 the buffer is not 65536 long, 9 the numbers cannot be a
    // window's, 10 more bytes than are wanted.
    pub fn give(self, buffer: &mut [u8], bytes: &[u8]) -> Reading
        ensures { GivePromise self buffer bytes result }
    {
        if let Err(refusal) = self.check(buffer.len()) {
            return Reading {
                answer: Err(refusal),
                reader: self,
            };
        }
        let wanted = self.wanted();
        if wanted < bytes.len() {
            return Reading {
                answer: Err(Refusal::TooManyBytes),
                reader: self,
            };
        }
        if bytes.is_empty() {
            if wanted == 0 {
                return self.asking();
            }
            return Reading {
                answer: Ok(Answer::End),
                reader: self.finish(),
            };
        }
        base::put(buffer, self.held, bytes);
        self.fed(bytes.len()).asking()
    }
}
