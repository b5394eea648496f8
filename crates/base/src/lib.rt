// What every reader of NTFS history shares: why a call is refused (refusal), places in lent slices, the stores of items in a lent list,
// and how an answer goes out of a C function (words). The definitions and laws of walks over offsets, lent lists and outcomes stand
// in specs/ and proofs/.
//
// Every function here is proved. The writers ask for room: they are helpers of our own crates and not offered as calls.
#![tactic(auto)]

pub mod refusal;
pub mod words;

ghost use Rattle.std.specs.Prelude.{◌≡◌, [], ◌∷◌, ◌+◌, ◌≤◌, length};
ghost use Rattle.std.proofs.lemmas.List.Edits.{sets};

// The most bytes of an extract or an image.
pub const DOMAIN: usize = 1073741824;

// An offset and a length in bytes, in a lent slice. An empty name has place 0, 0.
#[repr(C)]
#[derive(Clone, Copy)]
pub struct Place {
    pub offset: usize,
    pub length: usize,
}

// All of the items into a lent list, from i on. By `copy_from_slice` the archives for C would want memcpy and memmove from outside.
pub fn put<T: Copy>(list: &mut [T], i: usize, items: &[T])
    requires { i + length items.now ≤ length list.old }
    ensures { list.new ≡ sets list.old i items.now }
{
    for k in 0..items.len() {
        list[i + k] = items[k];
    }
}

// Two words of a lent list, from i on.
pub fn put_pair(list: &mut [usize], i: usize, a: usize, b: usize)
    requires { i + 2 ≤ length list.old }
    ensures { list.new ≡ sets list.old i (a ∷ b ∷ []) }
{
    put(list, i, &[a, b]);
}
