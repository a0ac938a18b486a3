// Whether something is wrong where a node is wanted.

ghost use Rattle.std.specs.Prelude.{◌≡◌, None, IfOk, IfErr};
ghost use Rattle.ubifs_base.specs.RawOf.{raw_of};
ghost use Rattle.media_sys.specs.Index.{index_of};
ghost use Rattle.index_media.specs.Stored.{IsIndexNodeAt};
ghost use Rattle.sound_image.specs.IndexBreaches.{index_misfit as misfit_of};
ghost use Rattle.image_check.specs.WrongValues.{wrong_at};
ghost use Rattle.index_check.specs.IndexWalk.{HasKeys, IsWrongWanted, OnlyReads, wanted_of};

use crate::misfits::index_misfit;
use crate::reading::{read_lack, read_node};
use crate::value_misfit::ValueMisfit;
use crate::wanted::Wanted;
use image_check::WrongValue;
use media_lpt::Lprop;
use media_sys::IdxNode;
use std::alloc::Global;
use ubi_volume::{AreaFault, Volume};
use ubifs_base::Geometry;

// What is wrong, at the place where a node is wanted.
fn wrong_there(wanted: &Wanted, misfit: ValueMisfit) -> WrongValue
    ensures lnum { result.lnum ≡ wanted.now.branch.lnum }
    ensures offs { result.offs ≡ wanted.now.branch.offs }
    ensures wanted { result.wanted ≡ misfit.wanted }
    ensures found { result.found ≡ misfit.found }
{
    WrongValue {
        lnum: wanted.branch.lnum,
        offs: wanted.branch.offs,
        wanted: misfit.wanted,
        found: misfit.found,
    }
}

/// The node that stands where one is wanted, if nothing is wrong with it; or what is wrong there.
pub(crate) fn judge_node<V: Volume>(
    alloc: Global,
    volume: &mut V,
    geometry: &Geometry,
    props: &[Lprop],
    wanted: &Wanted,
) -> Result<Result<IdxNode, WrongValue>, AreaFault>
    requires { HasKeys wanted.now }
    ensures sound { IfOk result (λ judged. IfOk judged (λ node. IsIndexNodeAt (V.state volume.old).holds wanted.now.branch (index_of node) × (misfit_of (raw_of geometry.now) props.now (wanted_of wanted.now) (index_of node) ≡ None))) }
    ensures broken { IfOk result (λ judged. IfErr judged (λ node. IsWrongWanted (V.state volume.old).holds (raw_of geometry.now) props.now (wanted_of wanted.now) (wrong_at node))) }
    ensures reads { OnlyReads (V.state volume.old) (V.state volume.new) result }
{
    let read = read_node(alloc, volume, &wanted.branch)?;
    let Some(node) = read else {
        let misfit = read_lack(alloc, volume, &wanted.branch)?;
        return Ok(Err(wrong_there(wanted, misfit)));
    };
    if let Some(misfit) = index_misfit(geometry, props, wanted, &node) {
        return Ok(Err(wrong_there(wanted, misfit)));
    }
    Ok(Ok(node))
}
