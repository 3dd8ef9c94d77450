//! Which refs of a listing stand: all but tombstones and the tags that have one.
#![tactic(auto)]

ghost use Rattle.std.specs.Prelude.{◌≡◌, ◌≤◌, drop, length};
ghost use Rattle.object_store.specs.Machine.{same_key};
ghost use Rattle.live_refs.specs.Live.{live, is_gone, first_and_live};
ghost use Rattle.live_refs.specs.Laws.{LiveLaw};

use ice_base::RefName;
use object_store::{Entry, Key};

/// Of an honest listing, the refs that are read are those that stand, and of tags those that have no
/// tombstone.
pub fn live_law()
    ensures { LiveLaw }
{}

/// The place of the next ref that stands, from this place on, or the end.
pub fn next_live(entries: &[Entry], from: usize) -> usize
    requires { from ≤ length entries.now }
    ensures live { live (drop from entries.now) ≡ first_and_live (drop result entries.now) }
    ensures behind { from ≤ result }
    ensures within { result ≤ length entries.now }
{
    for place in from..entries.len() {
        if !is_gone(&entries[place].key, &entries[place + 1..]) {
            return place;
        }
    }
    entries.len()
}

/// Whether the key is a tombstone, or the tag of the tombstone that is listed right behind it.
pub fn is_gone(key: &Key, behind: &[Entry]) -> bool
    ensures { result ≡ is_gone key.now behind.now }
{
    match key {
        Key::Tombstone(_) => true,
        Key::Tag(name) => !behind.is_empty() && is_tombstone(&behind[0].key, name),
        Key::Snapshot(_) | Key::Manifest(_) | Key::Txn(_) | Key::Chunk(_) => false,
        Key::Branch(_) | Key::Lease(_) => false,
    }
}

fn is_tombstone(key: &Key, name: &RefName) -> bool
    ensures { result ≡ same_key key.now (Key.Tombstone name.now) }
{
    match key {
        Key::Tombstone(gone) => gone == name,
        Key::Snapshot(_) | Key::Manifest(_) | Key::Txn(_) | Key::Chunk(_) => false,
        Key::Branch(_) | Key::Tag(_) | Key::Lease(_) => false,
    }
}
