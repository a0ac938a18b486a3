// Calls of the index.

ghost use Rattle.std.specs.Prelude.{◌≡◌, ◌+◌, ◌≤◌, ◌&&◌, IsTrue, OnOk};
ghost use Rattle.ubifs_base.specs.Key.{IsKey};
ghost use Rattle.index_tree.specs.Shape.{contents, shape_weight};
ghost use Rattle.index_tree.specs.Tree.{shape};
ghost use Rattle.index_tree.specs.Removal.{holds};
ghost use Rattle.log_replay.specs.Changes.{IsOfKey, put_over, taken_out};
ghost use Rattle.log_replay.specs.Placing.{is_key, moved_to};

use crate::application::{Place, at_place};
use index_tree::{Index, Leaf};
use std::alloc::Global;
use ubifs_base::{Key, Memory};

// The bits of a block's number or a hash.
const PART_BITS: u32 = 29;

// Puts a leaf in the place of the one that it makes obsolete, or behind all of no greater key where there is none.
pub(crate) fn put(
    alloc: Global,
    index: &mut Index,
    old: Option<Leaf>,
    leaf: Leaf,
) -> Result<(), Memory>
    requires { IsKey leaf.key }
    ensures leaves { OnOk result (IsOfKey leaf.key old → contents (shape index.new.root) ≡ put_over old leaf (contents (shape index.old.root))) }
    ensures weight { shape_weight index.old.fanout (shape index.new.root) ≤ shape_weight index.old.fanout (shape index.old.root) + 1 }
    ensures fanout { index.new.fanout ≡ index.old.fanout }
{
    match old {
        Some(old) if old.key == leaf.key => {
            index.replace(&old, leaf);
            Ok(())
        }
        _ => index.insert(alloc, leaf),
    }
}

// Takes a leaf out, if there is one.
pub(crate) fn take(index: &mut Index, old: Option<Leaf>)
    ensures leaves { contents (shape index.new.root) ≡ taken_out old (contents (shape index.old.root)) }
    ensures weight { shape_weight index.old.fanout (shape index.new.root) ≤ shape_weight index.old.fanout (shape index.old.root) }
    ensures fanout { index.new.fanout ≡ index.old.fanout }
{
    if let Some(old) = old {
        index.remove(&old);
    }
}

// Puts a leaf at another place.
pub(crate) fn swap_leaf(index: &mut Index, leaf: &Leaf, place: Place)
    ensures leaves { contents (shape index.new.root) ≡ moved_to place leaf.now (contents (shape index.old.root)) }
    ensures weight { shape_weight index.old.fanout (shape index.new.root) ≤ shape_weight index.old.fanout (shape index.old.root) }
    ensures fanout { index.new.fanout ≡ index.old.fanout }
{
    if is_key(leaf.key) {
        index.replace(leaf, at_place(leaf.key, place));
    }
}

// Whether a leaf is there. It is put at its own place.
pub(crate) fn stands(index: &mut Index, leaf: &Leaf) -> bool
    ensures answer { result ≡ (is_key leaf.now.key && holds leaf.now (contents (shape index.old.root))) }
    ensures leaves { contents (shape index.new.root) ≡ contents (shape index.old.root) }
    ensures weight { shape_weight index.old.fanout (shape index.new.root) ≤ shape_weight index.old.fanout (shape index.old.root) }
    ensures fanout { index.new.fanout ≡ index.old.fanout }
{
    is_key(leaf.key) && index.replace(leaf, *leaf)
}

// Whether the parts of a key fit.
pub(crate) fn is_key(key: Key) -> bool
    ensures is { result ≡ is_key key }
    ensures fits { IsTrue result → IsKey key }
{
    match key {
        Key::Ino { .. } => true,
        Key::Block { block, .. } => block < 1 << PART_BITS,
        Key::Dent { hash, .. } | Key::Xent { hash, .. } => hash < 1 << PART_BITS,
    }
}
