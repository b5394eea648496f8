// A step without text.
ghost use Rattle.rewind.specs.Promise.{NextChainPromise};

use crate::{Rewind, Step};
use additions::entries::replaces_forward;
use chain::ResolvedPath;
use chain::way::list_chain;
use entry_table::adding::add;
use rewind_records::turn::next_record;

// What `rewind_next_chain` does.
pub(crate) fn next_chain(
    journal: &[u8],
    image: &[u8],
    records: &[usize],
    rewind: Rewind,
    forward: &mut [u64],
    list: &mut [u64],
) -> Step<ResolvedPath>
    ensures { NextChainPromise journal image records rewind forward list result }
{
    let image_length = image.len();
    match next_record(
        journal,
        image_length,
        records,
        forward,
        rewind.used,
        rewind.position,
    ) {
        Ok(Some(entry)) => match add(
            forward,
            rewind.used,
            entry.key,
            entry.info,
            replaces_forward(entry),
        ) {
            Ok(used) => {
                let info = entry.info;
                let above = list_chain(forward, used, info.parent, list);
                Step {
                    next: Ok(Some(above)),
                    rewind: Rewind {
                        used,
                        position: rewind.position + 1,
                    },
                }
            }
            Err(refusal) => Step {
                next: Err(refusal),
                rewind,
            },
        },
        Ok(None) => Step {
            next: Ok(None),
            rewind,
        },
        Err(refusal) => Step {
            next: Err(refusal),
            rewind,
        },
    }
}
