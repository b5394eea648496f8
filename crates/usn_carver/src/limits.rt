// The times that a carved record may have.
ghost use Rattle.std.specs.Prelude.{◌≡◌};
ghost use Rattle.std.specs.Int.Signed.{lt_z};
ghost use Rattle.std.specs.Int.{w64};
ghost use Rattle.std.proofs.Common.{to_z};
ghost use Rattle.usn_carver.specs.Carve.{bad_time};

// The first and the last time, each by its 64 bits, which stand for a signed number.
#[derive(Clone, Copy)]
pub struct Limits {
    pub first: u64,
    pub last: u64,
}

// Whether a time lies outside the limits.
pub(crate) fn bad_time(time: u64, limits: Limits) -> bool
    ensures { result ≡ bad_time (to_z w64 limits.first) (to_z w64 limits.last) (to_z w64 time) }
{
    earlier(time, limits.first) || earlier(limits.last, time)
}

// Whether a is earlier than b: `<` of signed numbers, in the words of the definition.
fn earlier(a: u64, b: u64) -> bool
    ensures { result ≡ lt_z (to_z w64 a) (to_z w64 b) }
{
    a.cast_signed() < b.cast_signed()
}
