// The turns of a window that has all its bytes, until one answers.
//
// What is known of the window and its buffer stands in the `requires` of the three methods and in no type: a move makes a window of
// which less is known, so that a type would be taken apart and made again at each.
ghost use Rattle.std.specs.Prelude.{◌≡◌, length, ◌+◌, ◌≤◌, ◌<◌};
ghost use Rattle.base.specs.Places.{place_from};
ghost use Rattle.usn_window.specs.Window.{Ready};
ghost use Rattle.usn_window.specs.Rule.{buffer_reads, named_from as named, or_end, turn_of, searched, Passes};

use crate::{Answer, BUF_SIZE, Reading, UsnJournalReader};
use base::Place;
use usn_record::bytes::le_u32;
use usn_record::zeros::skip_zeros;
use usn_record::{UsnRecord, listed_record};

// What a turn does: it answers, or goes on from another position.
#[derive(Clone, Copy)]
pub enum Turn {
    Done(Reading),
    Again(UsnJournalReader),
}

impl UsnJournalReader {
    // The answer of all turns: each goes on by the window that the one before it leaves.
    pub(crate) fn search(self, buffer: &[u8]) -> Reading
        requires { Ready self (length buffer.now) }
        ensures { result ≡ searched (buffer_reads buffer.now) self }
    {
        let mut w = self;
        loop {
            match w.turn(buffer) {
                Turn::Done(r) => {
                    return r;
                }
                Turn::Again(next) => {
                    w = next.past_zeros(buffer);
                }
            }
        }
    }

    // Past zero words of the window, as the turns would go.
    fn past_zeros(self, buffer: &[u8]) -> UsnJournalReader
        requires { Ready self (length buffer.now) }
        ensures { Passes buffer.now self result }
    {
        let limit = self.end - self.start;
        let at = self.position - self.start;
        if limit < at {
            return self;
        }
        let past = skip_zeros(&buffer[..limit], at);
        UsnJournalReader {
            position: self.start + past,
            ..self
        }
    }

    // One turn.
    fn turn(self, buffer: &[u8]) -> Turn
        requires { Ready self (length buffer.now) }
        ensures { result ≡ turn_of (buffer_reads buffer.now) self }
    {
        if self.end < self.position + 8 {
            return self.or_end(self.refill());
        }
        let at = self.position - self.start;
        let n = le_u32(buffer, at) as usize;
        if n < 8 {
            return Turn::Again(self.skip());
        }
        if BUF_SIZE < n {
            return Turn::Again(self.skip());
        }
        if self.end < self.position + n {
            if self.total < self.position + n {
                return self.or_end(self.refill().skip());
            }
            return self.or_end(self.refill());
        }
        match listed_record(buffer, at) {
            Ok(r) => Turn::Done(Reading {
                answer: Ok(Answer::Record {
                    offset: self.position,
                    length: n,
                    record: named_from(at, r),
                }),
                reader: self.advance(n),
            }),
            Err(_) => Turn::Again(self.advance(n)),
        }
    }

    // The end, where the window's end is the stream's; otherwise next is asked for.
    fn or_end(self, next: UsnJournalReader) -> Turn
        requires { (self.end ≡ self.total → ⊥) → next.start + next.held ≤ next.end }
        ensures { result ≡ or_end self next }
    {
        if self.end == self.total {
            Turn::Done(Reading {
                answer: Ok(Answer::End),
                reader: self.finish(),
            })
        } else {
            Turn::Done(next.asking())
        }
    }
}

// The record, with its name's place counted from o bytes before it.
fn named_from(o: usize, mut r: UsnRecord) -> UsnRecord
    requires { o + r.filename.offset < 2000000000000 }
    ensures { result ≡ named o r }
{
    r.filename = place_from(o, r.filename);
    r
}

// The place, counted from o bytes before it; an empty one stays 0, 0.
fn place_from(o: usize, p: Place) -> Place
    requires { o + p.offset < 2000000000000 }
    ensures { result ≡ place_from o p }
{
    if p.length == 0 {
        Place {
            offset: 0,
            length: 0,
        }
    } else {
        Place {
            offset: o + p.offset,
            length: p.length,
        }
    }
}
