// Zero words, of which a sparse journal and raw disk data are full.
ghost use Rattle.usn_record.specs.Zeros.{PastZeros};

use crate::bytes::le_u64;

// An offset from o on up to which there are zero words of 8 bytes alone: four are passed at a time, up to four of which one is
// not zero. Where the word at o is not zero it is o, after one read.
//
// The loop counts the offset, which is the answer: a loop over chunks would have to make it of their number again.
pub fn skip_zeros(data: &[u8], o: usize) -> usize
    ensures { PastZeros «data».now o result }
{
    if le_u64(data, o) != 0 {
        return o;
    }
    let size = data.len();
    if size < 32 {
        return o;
    }
    let last = size - 32;
    let mut p = o;
    while p <= last {
        let first = le_u64(data, p) | le_u64(data, p + 8);
        let second = le_u64(data, p + 16) | le_u64(data, p + 24);
        if (first | second) != 0 {
            return p;
        }
        p += 32;
    }
    p
}
