// What is wrong with an index node that stands where one is wanted.

ghost use Rattle.std.specs.Prelude.{◌≡◌, IfSome, option_map};
ghost use Rattle.std.specs.List.{AllByRecursion, find};
ghost use Rattle.std.specs.Option.{option_map_or};
ghost use Rattle.ubifs_base.specs.Key.{IsKey};
ghost use Rattle.ubifs_base.specs.RawOf.{raw_of};
ghost use Rattle.media_sys.specs.Index.{index_of};
ghost use Rattle.sound_image.specs.IndexBreaches.{index_misfit as misfit_of, is_above as is_above_most, is_below as is_below_least, is_off_level as is_of_other_level, is_out as is_out_of_bounds, key_misfit as misfit_of_key};
ghost use Rattle.sound_image.specs.Properties.{is_marked_index as is_marked};
ghost use Rattle.index_check.specs.IndexWalk.{HasKeys, told_misfit, wanted_of};

use crate::key_order::{key_rank, key_value};
use crate::value_misfit::ValueMisfit;
use crate::wanted::Wanted;
use media_lpt::Lprop;
use media_sys::{Branch, IdxNode};
use ubifs_base::{Geometry, Key};

// Whether a LEB is a main LEB that is marked as the index's.
fn is_marked_index(geo: &Geometry, props: &[Lprop], lnum: u32) -> bool
    ensures { result ≡ is_marked (raw_of geo.now) props.now lnum }
{
    let first = geo.main_first();
    if lnum < first {
        return false;
    }
    let at = (lnum - first) as usize;
    if at >= props.len() {
        return false;
    }
    props[at].index
}

// Whether a key is below that of the branch.
fn is_below(wanted: &Wanted, key: Key) -> bool
    ensures { result ≡ is_below_least (wanted_of wanted.now) key }
{
    key_rank(key) < key_rank(wanted.branch.key)
}

// Whether a key is above the one that bounds it.
fn is_above(wanted: &Wanted, key: Key) -> bool
    ensures { result ≡ is_above_most (wanted_of wanted.now) key }
{
    let Some(most) = wanted.most else {
        return false;
    };
    key_rank(most) < key_rank(key)
}

// Whether a branch has a key that is out of bounds.
fn is_out(wanted: &Wanted, branch: &Branch) -> bool
    ensures { result ≡ is_out_of_bounds (wanted_of wanted.now) branch.now }
{
    if is_below(wanted, branch.key) {
        return true;
    }
    is_above(wanted, branch.key)
}

// Whether a node hasn't the level that it has to have.
fn is_off_level(wanted: &Wanted, node: &IdxNode) -> bool
    ensures { result ≡ is_of_other_level (wanted_of wanted.now) (index_of node.now) }
{
    let Some(level) = wanted.level else {
        return false;
    };
    node.level != level
}

// The limit that a key passes, and the key.
fn key_misfit(wanted: &Wanted, key: Key) -> ValueMisfit
    requires wanted { HasKeys wanted.now }
    requires key { IsKey key }
    ensures { told_misfit result ≡ misfit_of_key (wanted_of wanted.now) key }
{
    let found = key_value(key);
    if is_below(wanted, key) {
        return ValueMisfit {
            wanted: key_value(wanted.branch.key),
            found,
        };
    }
    let Some(most) = wanted.most else {
        return ValueMisfit { wanted: 0, found };
    };
    ValueMisfit {
        wanted: key_value(most),
        found,
    }
}

// What is wrong with the first of these branches that has a key out of bounds.
fn first_out(wanted: &Wanted, branches: &[Branch]) -> Option<ValueMisfit>
    requires wanted { HasKeys wanted.now }
    requires keys { AllByRecursion (λ branch. IsKey branch.key) branches.now }
    ensures { option_map told_misfit result ≡ option_map (λ branch. misfit_of_key (wanted_of wanted.now) branch.key) (find (is_out_of_bounds (wanted_of wanted.now)) branches.now) }
{
    let mut left = branches;
    'looking: while let Some((branch, rest)) = left.split_first() {
        if is_out(wanted, branch) {
            return Some(key_misfit(wanted, branch.key));
        }
        left = rest;
    }
    None
}

// The level that a node has to have; 0 for the root.
fn level_of(wanted: &Wanted) -> u16
    ensures { result ≡ option_map_or (λ level. level) wanted.now.level 0 }
{
    let Some(level) = wanted.level else {
        return 0;
    };
    level
}

/// What is wrong with a node first: it has more children than the fanout, its LEB isn't marked as the index's, it has
/// another level, or a child has a key out of its bounds.
pub(crate) fn index_misfit(
    geo: &Geometry,
    props: &[Lprop],
    wanted: &Wanted,
    node: &IdxNode,
) -> Option<ValueMisfit>
    requires wanted { HasKeys wanted.now }
    requires keys { AllByRecursion (λ branch. IsKey branch.key) node.now.branches.items }
    ensures { option_map told_misfit result ≡ misfit_of (raw_of geo.now) props.now (wanted_of wanted.now) (index_of node.now) }
{
    let count = node.branches.len();
    if count > geo.fanout as usize {
        return Some(ValueMisfit {
            wanted: geo.fanout as u64,
            found: count as u64,
        });
    }
    if !is_marked_index(geo, props, wanted.branch.lnum) {
        return Some(ValueMisfit {
            wanted: 1,
            found: 0,
        });
    }
    if is_off_level(wanted, node) {
        return Some(ValueMisfit {
            wanted: level_of(wanted) as u64,
            found: node.level as u64,
        });
    }
    first_out(wanted, &node.branches)
}
