// A volume in memory on which a run begins.

ghost use Rattle.std.specs.Prelude.{◌≡◌, ◌≤◌, ◌*◌, ◌<◌, ◌^◌, None, IfOk};
ghost use Rattle.ubifs_base.specs.Areas.{main_lebs};
ghost use Rattle.ubifs_base.specs.RawOf.{raw_of};
ghost use Rattle.small_areas.specs.Orphans.{orphan_limit};
ghost use Rattle.fs_model.specs.Backing.{IsSmall};
ghost use Rattle.fs_model.specs.Cover.{tree_bytes};
ghost use Rattle.fs_model.specs.Proper.{IsProper};
ghost use Rattle.fs_model.specs.Settled.{settled};
ghost use Rattle.plain_backing.specs.Covering.{IsCovering, leaf_count};
ghost use Rattle.plain_backing.specs.PlainBacking.{Covers, backing_state_of};
ghost use Rattle.fs_model.specs.declared.backing_answers.Mode.TheVariants.{ReadWrite};
ghost use Rattle.script_run.specs.Opening.{mounted_space};
ghost use Rattle.script_run.specs.Run.{LeavesOnly};

use fs_model::{Mode, Space};
use plain_backing::{PlainBacking, Tree};
use space_sums::{a_settled_store_has_no_cause, more_never_lowers_the_need};
use std::alloc::Global;
use ubifs_base::{Geometry, Memory};

/// A volume on which a run begins: its geometry, its tree of files, and the numbers of its LEBs. All that it has fits.
#[derive(Drop)]
pub(crate) struct Opening {
    pub(crate) geometry: Geometry,
    pub(crate) tree: Tree,
    pub(crate) space: Space,
    ghost main: { space.main ≡ main_lebs (raw_of geometry) },
    ghost small: { IsSmall space },
    ghost credits: { space.credits ≡ 0 },
    ghost index: { space.index ≡ 0 },
    ghost covers: { IsCovering (raw_of geometry) tree (record space { used = tree_bytes tree; held = 0 }) None },
}

/// A volume with this tree and these numbers, which may be written. An index takes no more LEBs behind a commit than twice those that its weight asks
/// for, and three times these are kept. So no sum of a run asks how many it takes now.
pub(crate) fn writable_volume(geometry: Geometry, tree: Tree, space: &Space) -> Opening
    requires proper { IsProper tree }
    requires weighed { leaf_count tree ≤ geometry.fanout * space.now.weight }
    requires small { IsSmall space.now }
    requires main { space.now.main ≡ main_lebs (raw_of geometry) }
    requires used { space.now.used ≡ tree_bytes tree }
    requires credits { space.now.credits ≡ 0 }
    requires settled { settled (raw_of geometry) space.now ≡ None }
    ensures geometry { result.geometry ≡ geometry }
    ensures tree { result.tree ≡ tree }
    ensures weight { result.space.weight ≡ space.now.weight }
{
    a_settled_store_has_no_cause();
    more_never_lowers_the_need();
    Opening {
        geometry,
        tree,
        space: Space {
            used: space.used,
            held: 0,
            credits: 0,
            empty: space.empty,
            index: 0,
            weight: space.weight,
            main: space.main,
        },
    }
}

/// The numbers with which a volume is mounted that has these files, and whose image has this space. Want of memory is also told of a weight of
/// 2^40 or more, or of one with fewer nodes than the leaves ask for, which no index has.
pub(crate) fn mounted_space(
    geometry: &Geometry,
    tree: &Tree,
    space: &Space,
) -> Result<Space, Memory>
    ensures space { IfOk result (λ found. found ≡ mounted_space (raw_of geometry.now) tree.now space.now) }
    ensures small { IfOk result IsSmall }
    ensures weighed { IfOk result (λ found. leaf_count tree.now ≤ geometry.now.fanout * found.weight) }
{
    let weight = space.weight;
    if weight >= 1 << 40 {
        return Err(Memory);
    }
    if tree.leaves() > geometry.fanout as u64 * weight {
        return Err(Memory);
    }
    Ok(Space {
        used: tree.bytes(),
        held: 0,
        credits: 0,
        empty: space.empty,
        index: space.index,
        weight,
        main: geometry.main_lebs(),
    })
}

/// A volume of this geometry and tree, with LEBs and a weight of this space, on which nothing was put since. All that it has
/// fits, and its list of orphans takes a LEB.
pub(crate) fn backing_of(
    alloc: Global,
    geometry: Geometry,
    tree: Tree,
    space: Space,
) -> Result<PlainBacking, Memory>
    requires main { space.main ≡ main_lebs (raw_of geometry) }
    requires small { IsSmall space }
    requires credits { space.credits ≡ 0 }
    requires covers { IsCovering (raw_of geometry) tree (record space { used = tree_bytes tree; held = 0 }) None }
    ensures tree { IfOk result (λ backing. (backing_state_of backing).tree ≡ tree) }
    ensures geometry { IfOk result (λ backing. (backing_state_of backing).geometry ≡ raw_of geometry) }
    ensures credits { IfOk result (λ backing. (backing_state_of backing).space.credits ≡ 0) }
    ensures mode { IfOk result (λ backing. (backing_state_of backing).mode ≡ ReadWrite) }
    ensures faults { IfOk result (λ backing. (backing_state_of backing).faults ≡ 0) }
    ensures strike { IfOk result (λ backing. backing.numbers.strike ≡ 0) }
    ensures covers { IfOk result (λ backing. Covers (backing_state_of backing)) }
    ensures orphans { IfOk result (λ backing. (backing_state_of backing).orphan_limit ≡ orphan_limit geometry.leb_size) }
    ensures closed { IfOk result (λ backing. (backing_state_of backing).closed ≡ 0) }
    ensures left { IfOk result (λ backing. LeavesOnly (backing_state_of backing).journal tree) }
    ensures weight { IfOk result (λ backing. ((backing_state_of backing).space.weight ≡ space.weight) × ((backing_state_of backing).space.index ≡ space.index)) }
{
    PlainBacking::new(
        alloc,
        geometry,
        tree,
        space,
        orphan_limit(geometry),
        Mode::ReadWrite,
    )
}

// How many numbers a list of orphans takes, in the one LEB to which it is written.
fn orphan_limit(geometry: Geometry) -> u64
    ensures { result ≡ orphan_limit geometry.leb_size }
{
    (geometry.leb_size as u64 - 32) / 8
}
