// What a call over a journal and an image is refused with that is lent too few words for its answer.
ghost use Rattle.std.specs.Prelude.{◌≡◌};
ghost use Rattle.base.specs.Words.{short_by};
ghost use Rattle.volume_answers.specs.Domain.{either_above};

use base::DOMAIN;
use base::refusal::Refusal;
use base::words::short;

// 1 where journal or image is above the domain, else 5, as C gets it.
pub fn short_over(journal: &[u8], image: &[u8]) -> u32
    ensures { result ≡ short_by (either_above journal.now image.now) }
{
    if DOMAIN < journal.len() {
        return Refusal::AboveDomain.number();
    }
    short(DOMAIN < image.len())
}
