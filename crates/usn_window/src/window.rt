// The window's numbers: which may be a window's, what it wants, and its moves, each a method that returns the next window.
ghost use Rattle.std.specs.Prelude.{◌≡◌, ◌+◌, ◌≤◌, ◌<◌};
ghost use Rattle.base.specs.Outcome.{outcome};
ghost use Rattle.base.specs.Words.{number};
ghost use Rattle.usn_window.specs.Window.{window_refusal, wanted_of, refilled, skipped, advanced, finished, fed_by};
ghost use Rattle.usn_window.specs.Rule.{asking as asks};

use crate::{Answer, Reading, UsnJournalReader};
use base::refusal::Refusal;
use window_numbers::{check, window_end};

impl UsnJournalReader {
    // Whether a call with a buffer of so many bytes is answered, or why it is refused.
    pub(crate) fn check(self, buffer_length: usize) -> Result<(), Refusal>
        ensures { number (outcome result) ≡ window_refusal self buffer_length }
    {
        check(
            self.start,
            self.position,
            self.end,
            self.held,
            self.total,
            buffer_length,
        )
    }

    // The bytes that the window still wants; none after an end.
    pub(crate) fn wanted(self) -> usize
        requires { self.start + self.held ≤ self.end }
        ensures { result ≡ wanted_of self }
    {
        if self.ended {
            0
        } else {
            self.end - self.start - self.held
        }
    }

    // The answer that wants the window's next bytes.
    pub(crate) fn asking(self) -> Reading
        requires { self.start + self.held ≤ self.end }
        ensures { result ≡ asks self }
    {
        Reading {
            answer: Ok(Answer::Wants {
                from: self.start + self.held,
                bytes: self.wanted(),
            }),
            reader: self,
        }
    }

    // A window that starts at the position, with no bytes yet.
    pub(crate) fn refill(self) -> UsnJournalReader
        ensures { result ≡ refilled self }
    {
        UsnJournalReader {
            start: self.position,
            position: self.position,
            end: window_end(self.position, self.total),
            held: 0,
            ..self
        }
    }

    // Past 8 bytes that begin no record.
    pub(crate) fn skip(self) -> UsnJournalReader
        requires { self.position < 2000000000000 }
        ensures { result ≡ skipped self }
    {
        UsnJournalReader {
            position: self.position + 8,
            ..self
        }
    }

    // Past a record of n bytes.
    pub(crate) fn advance(self, n: usize) -> UsnJournalReader
        requires { (self.position < 2000000000000) × (n ≤ 65536) }
        ensures { result ≡ advanced self n }
    {
        UsnJournalReader {
            position: self.position + (n + 7) / 8 * 8,
            ..self
        }
    }

    // With k bytes more in the buffer.
    pub(crate) fn fed(self, k: usize) -> UsnJournalReader
        requires { self.start + (self.held + k) ≤ self.end }
        ensures { result ≡ fed_by self k }
    {
        UsnJournalReader {
            held: self.held + k,
            ..self
        }
    }

    // At its end: nothing is wanted any more.
    pub(crate) fn finish(self) -> UsnJournalReader
        ensures { result ≡ finished self }
    {
        UsnJournalReader {
            ended: true,
            ..self
        }
    }
}
