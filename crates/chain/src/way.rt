// The way up from a key: the slots that its chain goes by, in a lent list, and the places of their names.
ghost use Rattle.std.specs.Prelude.{◌≡◌, ◌*◌, ◌≤◌, ◌<◌, length};
ghost use Rattle.entry_slots.specs.Slots.{stride};
ghost use Rattle.entry_slots.specs.Table.{table};
ghost use Rattle.entry_slots.specs.Index.{Indexed};
ghost use Rattle.chain.specs.Settings.{depth, levels as levels_of};
ghost use Rattle.chain.specs.Chain.{chain_of, resolved};
ghost use Rattle.chain.specs.Way.{Slots, way_places, step_bound, top_key, end_under, resolved_by};
ghost use Rattle.chain.specs.Tracing.{with_places};
ghost use Rattle.chain.specs.Promise.{RiseAsks, RisePromise, ClimbPromise};

use crate::steps::{Way, is_root, step};
use crate::{ChainEnd, DEPTH, ResolvedPath};
use base::put;
use entry_slots::slots::info_at;
use entry_slots::{EntryKey, NamePlace};

// The levels of a key that is asked for: one more than the depth, so that its parent has as many as the depth. No way has more slots.
pub(crate) const LEVELS: usize = DEPTH + 1;

// The words of a way: a slot for each level, and the most bytes that the names of its slots take.
pub const WAY_WORDS: usize = LEVELS + 1;

// The words of a place.
const PLACE_WORDS: usize = 3;

// The most bytes that a name counts for that is longer than any slice: more than any text has.
const TOO_LONG: usize = 1099511627776;

// The end of a way up: how many slots it has, each with a name, the most bytes that their text takes, and what they hang under.
#[derive(Clone, Copy)]
pub struct Climbed {
    pub names: usize,
    pub bound: usize,
    pub end: ChainEnd,
}

// The most bytes that a backslash and the name at a place take as text: three for each unit.
pub fn step_bound(name: NamePlace) -> usize
    ensures { (result ≡ step_bound name) × (result ≤ 1099511627776) }
{
    let units = name.length / 2;
    if units < 4294967296 {
        return 1 + 3 * (units as usize);
    }
    TOO_LONG
}

// The way up from a key with so many levels left: each key on it is resolved by its parent, with a level less. Its slots go behind those
// that the way has already, one for each level that is gone, whose names take so many bytes at most; the last word of the way gets the
// most that all names take. Answers how many slots the way has.
fn rise(
    slots: &[u64],
    used: usize,
    heads: &[u64],
    nexts: &[u64],
    key: EntryKey,
    levels: usize,
    way: &mut [usize],
    bound: usize,
) -> usize
    requires stride_in_bounds { (used * stride ≤ length slots.now) × (0 < length heads.now → used ≤ length nexts.now) }
    requires indexed { Indexed (table slots.now used) heads.now nexts.now }
    requires rise_asks { RiseAsks slots.now way.old levels key bound }
    ensures { RisePromise slots used key levels way bound result }
{
    match step(slots, used, heads, nexts, key, levels) {
        Way::End(_) => {
            let last = way.len() - 1;
            way[last] = bound;
            LEVELS - levels
        }
        Way::Slot(i) => {
            way[LEVELS - levels] = i;
            let info = info_at(slots, i);
            let parent = info.parent;
            rise(
                slots,
                used,
                heads,
                nexts,
                parent,
                levels - 1,
                way,
                bound + step_bound(info.name),
            )
        }
    }
}

// The key above the last slot of a way, or the key asked for where it has none.
fn top_key(slots: &[u64], way: &[usize], names: usize, key: EntryKey) -> EntryKey
    requires { Slots slots.now way.now names }
    ensures { result ≡ top_key slots.now way.now names key }
{
    if names == 0 {
        return key;
    }
    let info = info_at(slots, way[names - 1]);
    info.parent
}

// What a way of so many slots hangs under, by the key above them, where it goes no further.
fn end_under(names: usize, top: EntryKey) -> ChainEnd
    ensures { result ≡ end_under names top }
{
    if names == LEVELS {
        return ChainEnd::Unresolved(top);
    }
    if is_root(top) {
        return ChainEnd::Root;
    }
    ChainEnd::Unknown(top)
}

// The way up from a key that is asked for, in a lent list of one word more than there are levels.
pub fn climb(
    slots: &[u64],
    used: usize,
    heads: &[u64],
    nexts: &[u64],
    key: EntryKey,
    way: &mut [usize],
) -> Climbed
    requires stride_in_bounds { (used * stride ≤ length slots.now) × (0 < length heads.now → used ≤ length nexts.now) }
    requires indexed { Indexed (table slots.now used) heads.now nexts.now }
    requires levels_of_in_bounds { levels_of < length way.old }
    ensures { ClimbPromise slots used key way result }
{
    let names = rise(slots, used, heads, nexts, key, LEVELS, way, 0);
    let bound = way[way.len() - 1];
    let end = end_under(names, top_key(slots, way, names, key));
    Climbed { names, bound, end }
}

// The places of a way's names, the top one first, in a list that has room for all of them.
pub fn list_places(slots: &[u64], way: &[usize], names: usize, list: &mut [u64])
    requires { Slots slots.now way.now names }
    ensures { list.new ≡ with_places list.old (way_places slots.now way.now names) }
{
    if list.len() / PLACE_WORDS < names {
        return;
    }
    let mut i: usize = 0;
    for left in (0..names).rev() {
        let info = info_at(slots, way[left]);
        let name = info.name;
        let words = [name.source, name.offset, name.length];
        put(list, i, &words);
        i += PLACE_WORDS;
    }
}

// The names and the end of a way: two of its three fields, for which a From would say no more.
pub fn resolved(up: Climbed) -> ResolvedPath
    ensures { result ≡ resolved_by up }
{
    let end = up.end;
    ResolvedPath {
        names: up.names,
        end,
    }
}

// The names and the end of the chain of a key that is asked for, with its places in a list that has room for all of them.
pub fn list_chain(slots: &[u64], used: usize, key: EntryKey, list: &mut [u64]) -> ResolvedPath
    requires { used * stride ≤ length slots.now }
    ensures value { result ≡ resolved (chain_of (table slots.now used) depth key) }
    ensures list_after { list.new ≡ with_places list.old (chain_of (table slots.now used) depth key).places }
{
    let mut way: [usize; WAY_WORDS] = [0; WAY_WORDS];
    let up = climb(slots, used, &[], &[], key, &mut way);
    list_places(slots, &way, up.names, list);
    resolved(up)
}
