// An extract that is short enough to be read.
ghost use Rattle.std.specs.Prelude.{◌≤◌, length};
ghost use Rattle.base.specs.Refusals.{domain};

// The bytes of an extract within the domain, so that no offset in it or past its last record is too large.
#[derive(Clone, Copy)]
pub struct Extract<'a> {
    pub bytes: &'a [u8],
    ghost within: { length bytes.now ≤ domain },
}
