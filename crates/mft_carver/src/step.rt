// What stands at one offset of an image.
ghost use Rattle.std.specs.Prelude.{◌≡◌};
ghost use Rattle.mft_carver.specs.Carve.{image_visit};
ghost use Rattle.mft_carver.specs.Step.{image_visit_of};

use crate::CarvedMftEntry;
use crate::entry::try_carve_entry;
use crate::image::Image;
use mft_sectors::signature::has_signature;

// A candidate is rejected, by its offset, or carved.
#[derive(Clone, Copy)]
pub enum Candidate {
    Rejected(usize),
    Carved(CarvedMftEntry),
}

// What a visit says, with the offset of the next one: the image ends, no candidate stands here, or one is met.
#[derive(Clone, Copy)]
pub enum CarveStep {
    Stop,
    Move(usize),
    Met(Candidate, usize),
}

// The visit of offset o. Inlined into the loops that count and that write: called, it hands each entry over in memory, and carving in the
// cache takes a tenth longer.
#[inline(always)]
#[tactic(auto, unfolding(crate::specs::Carve::image_visit))]
pub(crate) fn carve_step(image: Image, o: usize) -> CarveStep
    ensures { let i = image.entry in image_visit_of result ≡ image_visit i.settings i.bytes.now o }
{
    let end = image.bytes.len();
    let size = image.settings.size;
    if end < size || end - size < o {
        return CarveStep::Stop;
    }
    let next = o + size;
    let entry = &image.bytes[o..next];
    if !has_signature(entry) {
        return CarveStep::Move(next);
    }
    match try_carve_entry(entry, o, image.settings) {
        Some(carved) => CarveStep::Met(Candidate::Carved(carved), next),
        None => CarveStep::Met(Candidate::Rejected(o), next),
    }
}
