// The whole index.

ghost use Rattle.std.specs.Prelude.{◌≡◌, ◌+◌, ◌<◌, ◌≤◌, ℕ, if◌then◌else◌, true, OnOk, OnErr, IfOk, IfSome, IfNone, IsTrue, Contains, map, ◌↔◌, All, [], slice_get, length, ◌-◌, ◌^◌, min};
ghost use Rattle.index_tree.specs.Order.{ordered_from, of_rank, first_after, placed};
ghost use Rattle.index_tree.specs.Shape.{Shape, done, contents, node_count, shape_weight, fits, is_whole, with_leaf};
ghost use Rattle.index_tree.specs.Order.{key_rank, leaf_rank};
ghost use Rattle.index_tree.specs.Replacement.{swapped, replaced};
ghost use Rattle.index_tree.specs.RangeRemoval.{within_range, outside_range, without_range};
ghost use Rattle.index_tree.specs.Removal.{holds, without, without_leaf};
ghost use Rattle.index_tree.specs.Keyed.{HaveKeys, have_keys-prop};
ghost use Rattle.index_tree.specs.LastBlock.{last_block, blocks_of};
ghost use Rattle.index_tree.specs.Levels.{is_levelled};
ghost use Rattle.index_tree.specs.Listing.{listed_node, listed};
ghost use Rattle.index_tree.specs.Rebuild.{IsIndex};
ghost use Rattle.index_tree.specs.Tree.{shape, kept_root};
ghost use Rattle.ubifs_base.specs.Key.{IsKey};

use crate::after::after_rooted;
use crate::counts::Counts;
use crate::find::find_rooted;
use crate::index_node::IndexNode;
use crate::insertion::insert_rooted;
use crate::last::{is_block_of, last_rooted};
use crate::leaf::Leaf;
use crate::listing::{height_rooted, push_rooted};
use crate::node::Node;
use crate::range_removal::prune_rooted;
use crate::rank::{last_rank, rank};
use crate::rebuild::{parts_of, root_of, tally_rooted};
use crate::removal::remove_rooted;
use crate::replacement::replace_rooted;
use std::alloc::Global;
use ubifs_base::{Key, Memory};

// No memory holds so many nodes.
const MOST: u64 = 1 << 61;

// No memory holds a tree of more levels.
const MOST_LEVELS: u32 = 65_535;

/// An ordered list of leaves in the shape of a tree whose nodes have 1 to `fanout` children.
///
/// Contracts see it as `shape self.root`, and what it contains as `contents (shape self.root)`.
#[derive(Drop)]
pub struct Index {
    root: Option<Node>,
    fanout: u32,
    counts: Counts,
    ghost least: { 3 ≤ fanout },
    ghost most: { fanout ≤ 256 },
    ghost whole: { is_whole (shape root) ≡ true },
    ghost first_keys: { kept_root root ≡ true },
    ghost sound: { fits fanout (shape root) ≡ true },
    ghost ordered: { ordered_from 0 (contents (shape root)) ≡ true },
    ghost levels: { is_levelled (shape root) ≡ true },
    ghost keyed: { HaveKeys (contents (shape root)) } by { have_keys-prop (contents (shape root)) },
    ghost nodes_counted: { counts.nodes ≡ node_count (shape root) },
    ghost weight_counted: { counts.weight ≡ shape_weight fanout (shape root) },
}

impl Index {
    /// The empty index.
    pub fn new(fanout: u32) -> Result<Index, Memory>
        requires least { 3 ≤ fanout }
        requires most { fanout ≤ 256 }
        ensures empty { IfOk result (λ made. shape made.root ≡ done) }
        ensures fanout { IfOk result (λ made. made.fanout ≡ fanout) }
    {
        Ok(Index {
            root: None,
            fanout,
            counts: Counts {
                nodes: 0,
                weight: 0,
            },
        })
    }

    /// The index with these nodes, which are those of an index as `list` gives them: each level from
    /// left to right and the lowest level first.
    #[tactic(auto, using(crate::proofs::Rebuilding::rebuilding))]
    pub fn of(alloc: Global, fanout: u32, nodes: Vec<IndexNode>) -> Result<Index, Memory>
        requires least { 3 ≤ fanout }
        requires most { fanout ≤ 256 }
        requires of_an_index { (s : Shape) × IsIndex fanout s × (map listed_node nodes.items ≡ listed s) }
        ensures made { IfOk result (λ made. listed (shape made.root) ≡ map listed_node nodes.items) }
        ensures only { IfOk result (λ made. (s : Shape) → IsIndex fanout s → listed s ≡ map listed_node nodes.items → shape made.root ≡ s) }
        ensures fanout { IfOk result (λ made. made.fanout ≡ fanout) }
    {
        let mut parts = parts_of(alloc, nodes.as_slice())?;
        let root = root_of(&mut parts);
        let mut counts = Counts {
            nodes: 0,
            weight: 0,
        };
        tally_rooted(&root, fanout, &mut counts)?;
        Ok(Index {
            root,
            fanout,
            counts,
        })
    }

    /// Puts the leaf after all leaves whose key isn't greater.
    ///
    /// After `Memory` all is as before.
    #[tactic(auto, using(crate::proofs::Rooting::inserting))]
    pub fn insert(&mut self, alloc: Global, leaf: Leaf) -> Result<(), Memory>
        requires key { IsKey leaf.key }
        ensures ok { OnOk result (shape self.new.root ≡ with_leaf self.old.fanout leaf (shape self.old.root)) }
        ensures contents { OnOk result (contents (shape self.new.root) ≡ placed leaf (contents (shape self.old.root))) }
        ensures one_heavier { shape_weight self.old.fanout (shape self.new.root) ≤ shape_weight self.old.fanout (shape self.old.root) + 1 }
        ensures err { OnErr result (shape self.new.root ≡ shape self.old.root) }
        ensures fanout { self.new.fanout ≡ self.old.fanout }
    {
        if self.counts.nodes >= MOST || self.counts.weight >= MOST {
            return Err(Memory);
        }
        insert_rooted(&mut self.root, alloc, self.fanout, leaf, &mut self.counts)?;
        Ok(())
    }

    /// Puts a leaf at the place of another of its key; false exactly where that one isn't there.
    #[tactic(auto, using(crate::proofs::Replacing::replacing_rooted))]
    pub fn replace(&mut self, old: &Leaf, new: Leaf) -> bool
        requires key { IsKey new.key }
        requires one_key { leaf_rank new ≡ leaf_rank old.now }
        ensures answer { result ≡ holds old.now (contents (shape self.old.root)) }
        ensures there { IsKey old.now.key → IsTrue result ↔ Contains (contents (shape self.old.root)) old.now }
        ensures put { shape self.new.root ≡ replaced old.now new (shape self.old.root) }
        ensures contents { contents (shape self.new.root) ≡ swapped old.now new (contents (shape self.old.root)) }
        ensures as_heavy { shape_weight self.old.fanout (shape self.new.root) ≡ shape_weight self.old.fanout (shape self.old.root) }
        ensures fanout { self.new.fanout ≡ self.old.fanout }
    {
        replace_rooted(&mut self.root, old, new)
    }

    /// Takes the leaf out, with the nodes that this empties; false exactly where it isn't there.
    #[tactic(auto, using(crate::proofs::Removing::removing_rooted))]
    pub fn remove(&mut self, leaf: &Leaf) -> bool
        ensures answer { result ≡ holds leaf.now (contents (shape self.old.root)) }
        ensures there { IsKey leaf.now.key → IsTrue result ↔ Contains (contents (shape self.old.root)) leaf.now }
        ensures gone { shape self.new.root ≡ (if result then without_leaf leaf.now (shape self.old.root) else shape self.old.root) }
        ensures contents { contents (shape self.new.root) ≡ without leaf.now (contents (shape self.old.root)) }
        ensures no_heavier { shape_weight self.old.fanout (shape self.new.root) ≤ shape_weight self.old.fanout (shape self.old.root) }
        ensures fanout { self.new.fanout ≡ self.old.fanout }
    {
        remove_rooted(&mut self.root, leaf, self.fanout, &mut self.counts)
    }

    /// Takes out the leaves with keys from `from` to `to`, both included, and answers how many:
    /// `u64::MAX` stands for more as well.
    #[tactic(auto, using(crate::proofs::Pruning::pruning_rooted))]
    pub fn remove_range(&mut self, from: &Key, to: &Key) -> u64
        ensures answer { result ≡ min (length (within_range (key_rank from.now) (key_rank to.now) (contents (shape self.old.root)))) (2 ^ 64 - 1) }
        ensures gone { shape self.new.root ≡ without_range (key_rank from.now) (key_rank to.now) (shape self.old.root) }
        ensures contents { contents (shape self.new.root) ≡ outside_range (key_rank from.now) (key_rank to.now) (contents (shape self.old.root)) }
        ensures no_heavier { shape_weight self.old.fanout (shape self.new.root) ≤ shape_weight self.old.fanout (shape self.old.root) }
        ensures fanout { self.new.fanout ≡ self.old.fanout }
    {
        prune_rooted(
            &mut self.root,
            rank(from),
            rank(to),
            self.fanout,
            &mut self.counts,
        )
    }

    /// All nodes, each level from left to right and the lowest level first, so that the root is the last.
    #[tactic(auto, using(crate::proofs::NodeList::whole_list))]
    pub fn list(&self, alloc: Global) -> Result<Vec<IndexNode>, Memory>
        ensures nodes { IfOk result (λ nodes. map listed_node nodes.items ≡ listed (shape self.now.root)) }
        ensures of_an_index { IsIndex self.now.fanout (shape self.now.root) }
    {
        let high = height_rooted(&self.root);
        if high > MOST_LEVELS {
            return Err(Memory);
        }
        let high = high as u16;
        let mut nodes = Vec::new(alloc);
        for level in 0..high {
            push_rooted(&self.root, alloc, level, high, self.fanout, &mut nodes)?;
        }
        Ok(nodes)
    }

    /// The same index once more, made of the list of its nodes.
    pub fn copied(&self, alloc: Global) -> Result<Index, Memory>
        ensures same { IfOk result (λ made. shape made.root ≡ shape self.now.root) }
        ensures fanout { IfOk result (λ made. made.fanout ≡ self.now.fanout) }
    {
        let nodes = self.list(alloc)?;
        let made = Index::of(alloc, self.fanout, nodes)?;
        Ok(made)
    }

    /// The number of nodes.
    pub fn nodes(&self) -> u64
        ensures { result ≡ node_count (shape self.now.root) }
    {
        self.counts.nodes
    }

    /// The number of nodes plus the number of full ones.
    pub fn weight(&self) -> u64
        ensures { result ≡ shape_weight self.now.fanout (shape self.now.root) }
    {
        self.counts.weight
    }

    /// The leaf of this key behind `nth` others of the same key; none where there are too few.
    #[tactic(auto, using(crate::proofs::Rooting::inserting))]
    pub fn find(&self, key: &Key, nth: u32) -> Option<Leaf>
        ensures { result ≡ slice_get (of_rank (key_rank key.now) (contents (shape self.now.root))) nth }
    {
        match find_rooted(&self.root, rank(key), nth) {
            Ok(leaf) => Some(leaf),
            Err(_) => None,
        }
    }

    /// The first leaf of a greater key, so that a caller goes from key to key; none where there is none.
    ///
    /// It goes down one path, and at most one more.
    #[tactic(auto, using(crate::proofs::Rooting::inserting))]
    pub fn after(&self, key: &Key) -> Option<Leaf>
        ensures { result ≡ first_after (key_rank key.now) (contents (shape self.now.root)) }
    {
        after_rooted(&self.root, rank(key))
    }

    /// The greatest block leaf of this inode, the last one of equals; none where it has no block.
    #[tactic(auto, using(crate::proofs::LastLeaf::last_of_inode))]
    pub fn last_of(&self, ino: u32) -> Option<Leaf>
        ensures last { result ≡ last_block ino (contents (shape self.now.root)) }
        ensures greatest { IfSome result (λ x. All (λ y. leaf_rank y ≤ leaf_rank x) (blocks_of ino (contents (shape self.now.root)))) }
        ensures none { IfNone result (blocks_of ino (contents (shape self.now.root)) ≡ []) }
    {
        let leaf = last_rooted(&self.root, last_rank(ino))?;
        if is_block_of(&leaf.key, ino) {
            return Some(leaf);
        }
        None
    }
}
