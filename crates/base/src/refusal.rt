// Why a call is refused. A refused call writes nothing, and a state comes back equal.
ghost use Rattle.std.specs.Prelude.{◌≡◌};
ghost use Rattle.base.specs.Refusals.{number_of};

// A refusal. Each has a number, by which it goes out of a C function.
#[derive(Clone, Copy, Debug, PartialEq, Eq)]
pub enum Refusal {
    // A slice, an image or a stream is longer than is read.
    AboveDomain,
    // A slice is shorter than a record's fixed part.
    ShortSlice,
    // A record's length field is below its fixed part or above 65536.
    BadLength,
    // A record's length passes the slice.
    LengthPastSlice,
    // There are more results than the lent list takes.
    ListFull,
    // The used slots of a table and the different keys to be added are more than its slots.
    TableFull,
    // A name's place lies outside its slice.
    NameOutside,
    // The text buffer is too small.
    TextFull,
    // The numbers of a state cannot be those of one.
    BadState,
    // More bytes are given than are wanted.
    TooManyBytes,
    // A buffer has another length than it must.
    BadBuffer,
    // A listed offset has no version 2 or 3 record that its parser accepts.
    NotARecord,
}

impl Refusal {
    // The number of a refusal, from 1 to 12.
    pub fn number(self) -> u32
        ensures { result ≡ number_of self }
    {
        match self {
            Refusal::AboveDomain => 1,
            Refusal::ShortSlice => 2,
            Refusal::BadLength => 3,
            Refusal::LengthPastSlice => 4,
            Refusal::ListFull => 5,
            Refusal::TableFull => 6,
            Refusal::NameOutside => 7,
            Refusal::TextFull => 8,
            Refusal::BadState => 9,
            Refusal::TooManyBytes => 10,
            Refusal::BadBuffer => 11,
            Refusal::NotARecord => 12,
        }
    }
}
