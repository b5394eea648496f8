// The names of an entry, and which of them is kept.
ghost use Rattle.std.specs.Prelude.{◌≡◌};
ghost use Rattle.mft_attributes.specs.Filename.{replaces};

use base::Place;
use usn_record::fields::Reference;

// Namespace Win32, preferred for display.
const NS_WIN32: u8 = 1;
// Namespace DOS, short names of 8 and 3 characters.
const NS_DOS: u8 = 2;
// One name for both, preferred as well.
const NS_WIN32_AND_DOS: u8 = 3;

// A name that an attribute gives: its place, the parent directory's reference, and its namespace, which is any byte, of which these three
// are told apart.
#[derive(Clone, Copy)]
pub struct Filename {
    pub place: Place,
    pub parent: Reference,
    pub namespace: u8,
}

// Whether a name of namespace new replaces one of namespace old.
#[tactic(auto, unfolding(crate::specs::Filename::replaces))]
pub(crate) fn dominated(old: u8, new: u8) -> bool
    ensures { result ≡ replaces old new }
{
    if old == NS_WIN32 {
        return false;
    }
    if old == NS_WIN32_AND_DOS {
        return false;
    }
    new != NS_DOS
}
