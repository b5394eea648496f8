// The text of a way up the lookup table, whose slots a lent list has: whether it has room, and its bytes, at the front of a text or
// behind what it holds.
//
// The functions here are helpers of our own crates: they ask for a way of slots whose names are inside.
ghost use Rattle.std.specs.Prelude.{◌≡◌, true, ◌+◌, ◌≤◌, length, leb};
ghost use Rattle.std.proofs.lemmas.List.Edits.{sets};
ghost use Rattle.entry_slots.specs.Names.{lengths_of, inside};
ghost use Rattle.chain.specs.Way.{chain_by};
ghost use Rattle.path_text.specs.Text.{end_text, path_text};
ghost use Rattle.path.specs.Ways.{entry_text};
ghost use Rattle.path.specs.Promise.{WayAsks, FrontPromise, BehindPromise};

use chain::way::{Climbed, step_bound};
use entry_slots::NamePlace;
use entry_slots::slots::info_at;
use path_text::text::{end_length, place_length, put_end, put_step};

// Whether the most bytes that a path can take, its end's and three for each unit of its names, are no more than the room.
fn surely_fits(up: Climbed, room: usize) -> bool
    ensures { result ≡ leb (length (end_text up.end) + up.bound) room }
{
    if room < up.bound {
        return false;
    }
    let end = up.end;
    end_length(end) <= room - up.bound
}

// Whether the bytes of a path are no more than the room. Counting stops as soon as they are not: each unit of a name takes a byte at
// least, so that no name is counted that has more units than there is room.
fn bytes_fit(
    journal: &[u8],
    image: &[u8],
    slots: &[u64],
    way: &[usize],
    up: Climbed,
    room: usize,
) -> bool
    requires { WayAsks journal.now image.now slots.now way.now up }
    ensures { result ≡ leb (length (path_text journal.now image.now (chain_by slots.now way.now up))) room }
{
    let end = up.end;
    let ending = end_length(end);
    if room < ending {
        return false;
    }
    let mut spare = room - ending;
    for left in (0..up.names).rev() {
        let name = info_at(slots, way[left]).name;
        if (spare as u64) <= name.length / 2 {
            return false;
        }
        let bytes = place_length(journal, image, name);
        if spare <= bytes {
            return false;
        }
        spare -= 1 + bytes;
    }
    true
}

// Whether a path has room. Its bytes are counted only where the most that they can be does not fit.
fn path_fits(
    journal: &[u8],
    image: &[u8],
    slots: &[u64],
    way: &[usize],
    up: Climbed,
    room: usize,
) -> bool
    requires { WayAsks journal.now image.now slots.now way.now up }
    ensures { result ≡ leb (length (path_text journal.now image.now (chain_by slots.now way.now up))) room }
{
    if surely_fits(up, room) {
        return true;
    }
    bytes_fit(journal, image, slots, way, up, room)
}

// Whether the path of an entry, by its parent's and its own name, has room.
fn entry_fits(
    journal: &[u8],
    image: &[u8],
    slots: &[u64],
    way: &[usize],
    up: Climbed,
    name: NamePlace,
    room: usize,
) -> bool
    requires way_asks { WayAsks journal.now image.now slots.now way.now up }
    requires name_value { inside (lengths_of journal.now image.now) name ≡ true }
    ensures { result ≡ leb (length (entry_text journal.now image.now (chain_by slots.now way.now up) name)) room }
{
    let most = step_bound(name);
    if most <= room {
        if surely_fits(up, room - most) {
            return true;
        }
    }
    if (room as u64) <= name.length / 2 {
        return false;
    }
    let own = 1 + place_length(journal, image, name);
    if room < own {
        return false;
    }
    bytes_fit(journal, image, slots, way, up, room - own)
}

// A path behind the first bytes of a text: its end, and then a backslash and a name for each slot of the way, from the top down.
fn put_way(
    journal: &[u8],
    image: &[u8],
    slots: &[u64],
    way: &[usize],
    up: Climbed,
    text: &mut [u8],
    at: usize,
) -> usize
    requires way_asks { WayAsks journal.now image.now slots.now way.now up }
    requires up_in_bounds { at + length (path_text journal.now image.now (chain_by slots.now way.now up)) ≤ length text.old }
    ensures value { result ≡ at + length (path_text journal.now image.now (chain_by slots.now way.now up)) }
    ensures text_after { text.new ≡ sets text.old at (path_text journal.now image.now (chain_by slots.now way.now up)) }
{
    let end = up.end;
    let mut to = put_end(text, at, end);
    for left in (0..up.names).rev() {
        let info = info_at(slots, way[left]);
        to = put_step(journal, image, info.name, text, to);
    }
    to
}

// A path at the front of a text, where there is room for it: where the text ends then. Otherwise nothing is written.
pub(crate) fn put_path(
    journal: &[u8],
    image: &[u8],
    slots: &[u64],
    way: &[usize],
    up: Climbed,
    text: &mut [u8],
) -> Option<usize>
    requires { WayAsks journal.now image.now slots.now way.now up }
    ensures { FrontPromise journal image slots way up text result }
{
    if !path_fits(journal, image, slots, way, up, text.len()) {
        return None;
    }
    Some(put_way(journal, image, slots, way, up, text, 0))
}

// The path of an entry, by its parent's and its own name, behind the first bytes of a text, where there is room for it: where the
// text ends then. Otherwise nothing is written.
pub fn put_behind(
    journal: &[u8],
    image: &[u8],
    slots: &[u64],
    way: &[usize],
    up: Climbed,
    name: NamePlace,
    text: &mut [u8],
    at: usize,
) -> Option<usize>
    requires way_asks { WayAsks journal.now image.now slots.now way.now up }
    requires name_value { (inside (lengths_of journal.now image.now) name ≡ true) × (at ≤ length text.old) }
    ensures { BehindPromise journal image slots way up name text at result }
{
    if !entry_fits(journal, image, slots, way, up, name, text.len() - at) {
        return None;
    }
    let above = put_way(journal, image, slots, way, up, text, at);
    Some(put_step(journal, image, name, text, above))
}
