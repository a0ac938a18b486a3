// The rule on sums.

ghost use Rattle.std.specs.Prelude.{◌≡◌, ◌<◌, ℕ, IfErr, IfNone, IfOk, IfSome, get_or, length};
ghost use Rattle.ubifs_base.specs.Areas.{main_lebs};
ghost use Rattle.ubifs_base.specs.RawOf.{raw_of};
ghost use Rattle.index_media.specs.PlacedRow.{PlacedRow};
ghost use Rattle.sound_image.specs.Breaches.{IsWrongSum};
ghost use Rattle.sound_image.specs.Space.{HasSums};
ghost use Rattle.sound_image.specs.Wrong.{IsFirstWrong};
ghost use Rattle.sound_image.specs.declared.rule.Rule.TheVariants as rules;
ghost use Rattle.image_check.specs.Told.{IsBreachOf, IsNoVolumeFault, TellsBreach};
ghost use Rattle.space_check.specs.Sums.{IsFirstOther, ListsIndex};

use crate::adding::sums_of;
use image_check::CheckFault;
use index_tree::Leaf;
use media_lpt::Lprop;
use media_sys::Branch;
use sound_image::{Breach, Rule};
use std::alloc::Global;
use ubifs_base::Geometry;

/// The rule on sums (`HasSums` of crate sound_image): of each main LEB the free and dirty bytes, and those of the committed index, each
/// length rounded up to 8, are all its bytes (`dbg_check_lprops` of Linux fs/ubifs). The properties are those of all main LEBs, in order,
/// and nodes are the branches to all nodes of the index, in any order. `Unsound` tells the first LEB whose sum is another, and that sum.
/// Takes memory for a number a main LEB. Want of memory is also told of a sum that passes 64 bits.
pub fn check_sums(
    alloc: Global,
    geometry: &Geometry,
    props: &[Lprop],
    leaves: &[Leaf],
    nodes: &[Branch],
) -> Result<(), CheckFault>
    requires { length props.now ≡ main_lebs (raw_of geometry.now) }
    ensures met { (placed : PlacedRow) → ListsIndex placed leaves.now nodes.now → IfOk result (λ _. HasSums (raw_of geometry.now) props.now placed) }
    ensures broken { (placed : PlacedRow) → ListsIndex placed leaves.now nodes.now
        → IfErr result (TellsBreach (IsBreachOf rules.Sums (IsFirstWrong (IsWrongSum (raw_of geometry.now) props.now placed)))) }
    ensures no_volume { IsNoVolumeFault result }
{
    let first = geometry.main_first();
    let Ok(sums) = sums_of(alloc, first, props, leaves, nodes) else {
        return Err(CheckFault::Memory);
    };
    let Some(at) = first_other(geometry.leb_size, &sums) else {
        return Ok(());
    };
    Err(CheckFault::Unsound {
        breach: Breach::Damaged {
            rule: Rule::Sums,
            lnum: first + at as u32,
            offs: 0,
            wanted: geometry.leb_size as u64,
            found: sums[at],
        },
    })
}

// The first sum that is another than all bytes of a LEB; none where each is all of them.
fn first_other(whole: u32, sums: &[u64]) -> Option<usize>
    ensures none { IfNone result ((at : ℕ) → at < length sums.now → get_or sums.now at 0 ≡ whole) }
    ensures some { IfSome result (IsFirstOther whole sums.now) }
{
    for at in 0..sums.len() {
        if sums[at] != whole as u64 {
            return Some(at);
        }
    }
    None
}
