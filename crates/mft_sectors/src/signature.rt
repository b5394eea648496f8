// The signature of an entry.
ghost use Rattle.std.specs.Prelude.{◌≡◌};
ghost use Rattle.mft_sectors.specs.Signature.{has_signature};

// Whether an entry begins with the bytes FILE.
#[tactic(auto, using(crate::proofs::SignatureLaws::signature_starts))]
pub fn has_signature(entry: &[u8]) -> bool
    ensures { result ≡ has_signature entry.now }
{
    entry.starts_with(b"FILE")
}
