// The walk over an index.

ghost use Rattle.std.specs.Prelude.{◌≡◌, ℕ, List, [], IfOk, IfErr};
ghost use Rattle.ubifs_base.specs.RawOf.{raw_of};
ghost use Rattle.index_media.specs.PlacedRow.{PlacedRow};
ghost use Rattle.sound_image.specs.Index.{HasIndex};
ghost use Rattle.sound_image.specs.IndexBreaches.{IsWrongIndex};
ghost use Rattle.sound_image.specs.Wrong.{IsFirstWrong};
ghost use Rattle.image_check.specs.WrongValues.{wrong_at};
ghost use Rattle.index_check.specs.IndexWalk.{BeginsAtRoot, OnlyReads};
ghost use Rattle.index_check.specs.FoundIndex.{IsFoundIndex};

use crate::index_found::IndexFound;
use crate::index_walk::{IndexWalk, walk_step};
use crate::wanted::root_wanted;
use image_check::WrongValue;
use media_lpt::Lprop;
use media_sys::{Master, one_node};
use std::alloc::{AllocError, Global};
use ubi_volume::{AreaFault, Volume};
use ubifs_base::Geometry;

// Nothing was seen, and the root waits.
fn begin_walk(alloc: Global, geometry: &Geometry, master: &Master) -> Result<IndexWalk, AllocError>
    ensures { IfOk result (BeginsAtRoot (raw_of geometry.now) master.now) }
{
    let mut waiting = Vec::new(alloc);
    waiting.push(root_wanted(master))?;
    Ok(IndexWalk {
        waiting,
        nodes: Vec::new(alloc),
        leaves: Vec::new(alloc),
        first: None,
        room: geometry.main_lebs() as u64 * geometry.leb_size as u64,
    })
}

/// Goes over the index from its root down, and tells what it says, or what is wrong first.
pub(crate) fn go_over<V: Volume>(
    alloc: Global,
    volume: &mut V,
    geometry: &Geometry,
    master: &Master,
    props: &[Lprop],
) -> Result<Result<IndexFound, WrongValue>, AreaFault>
    ensures met { IfOk result (λ answer. IfOk answer (λ found. (placed : PlacedRow) × HasIndex (V.state volume.old).holds (raw_of geometry.now) master.now props.now placed × IsFoundIndex placed found)) }
    ensures broken { IfOk result (λ answer. IfErr answer (λ node. IsFirstWrong (IsWrongIndex (V.state volume.old).holds (raw_of geometry.now) master.now props.now) (wrong_at node))) }
    ensures reads { OnlyReads (V.state volume.old) (V.state volume.new) result }
{
    one_node();
    let mut walk = begin_walk(alloc, geometry, master)?;
    'walking: while let Some(wanted) = walk.waiting.pop() {
        walk_step(alloc, volume, geometry, props, &wanted, &mut walk)?;
    }
    match walk.first {
        Some(node) => Ok(Err(node)),
        None => Ok(Ok(IndexFound {
            leaves: walk.leaves,
            nodes: walk.nodes,
        })),
    }
}
