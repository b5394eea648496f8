// The kinds of the cases.

// What a case is of. The numbers of the kinds are 1 to 15, in this order.
#[derive(Clone, Copy, Debug, PartialEq, Eq)]
pub(crate) enum Kind {
    ParseV2,
    ParseV3,
    Scan,
    CarveRecords,
    Window,
    CarveEntries,
    Decode,
    Journal,
    Image,
    Insert,
    InsertIfAbsent,
    Seed,
    Path,
    Name,
    Rewind,
}

// A number that no kind has.
#[derive(Clone, Copy, Debug, PartialEq, Eq)]
pub(crate) struct UnknownKind(pub(crate) u8);

impl TryFrom<u8> for Kind {
    type Error = UnknownKind;

    fn try_from(number: u8) -> Result<Kind, UnknownKind> {
        match number {
            1 => Ok(Kind::ParseV2),
            2 => Ok(Kind::ParseV3),
            3 => Ok(Kind::Scan),
            4 => Ok(Kind::CarveRecords),
            5 => Ok(Kind::Window),
            6 => Ok(Kind::CarveEntries),
            7 => Ok(Kind::Decode),
            8 => Ok(Kind::Journal),
            9 => Ok(Kind::Image),
            10 => Ok(Kind::Insert),
            11 => Ok(Kind::InsertIfAbsent),
            12 => Ok(Kind::Seed),
            13 => Ok(Kind::Path),
            14 => Ok(Kind::Name),
            15 => Ok(Kind::Rewind),
            _ => Err(UnknownKind(number)),
        }
    }
}
