// The LEBs of buds, read from a volume.

ghost use Rattle.std.specs.Prelude.{◌≡◌, ◌<◌, IfOk, map};
ghost use Rattle.std.specs.List.{AllByRecursion};
ghost use Rattle.ubi_volume.specs.Volume.{Keeps, SameShape};
ghost use Rattle.ubi_volume.specs.Faults.{HasAreaCause, StaysSureArea};
ghost use Rattle.sound_image.specs.Buds.{bud_text};
ghost use Rattle.bud_check.specs.Findings.{IsInVolume};

use bud_log::HeadAt;
use journal_scan::BudText;
use std::alloc::Global;
use ubi_volume::{AreaFault, Volume, read_leb};
use ubifs_base::Bytes;

/// The LEBs that buds are, with their bytes. Each is read once.
pub(crate) fn read_buds<V: Volume>(
    alloc: Global,
    volume: &mut V,
    buds: &[HeadAt],
) -> Result<Vec<BudText>, AreaFault>
    requires { AllByRecursion (IsInVolume (V.state volume.old).leb_cnt) buds.now }
    ensures texts { IfOk result (λ texts. texts.items ≡ map (bud_text (V.state volume.old).holds) buds.now) }
    ensures keeps { Keeps (V.state volume.old) (V.state volume.new) }
    ensures shape { SameShape (V.state volume.old) (V.state volume.new) }
    ensures cause { HasAreaCause (V.state volume.old).faults (V.state volume.new).faults result }
    ensures sure { StaysSureArea (V.state volume.old) (V.state volume.new) result }
{
    let mut texts = Vec::new(alloc);
    let mut left = buds;
    'reading: while let Some((bud, rest)) = left.split_first() {
        let text = read_bud(alloc, volume, *bud)?;
        texts.push(text)?;
        left = rest;
    }
    Ok(texts)
}

// One of them.
fn read_bud<V: Volume>(alloc: Global, volume: &mut V, bud: HeadAt) -> Result<BudText, AreaFault>
    requires { bud.lnum < (V.state volume.old).leb_cnt }
    ensures text { IfOk result (λ text. text ≡ bud_text (V.state volume.old).holds bud) }
    ensures keeps { Keeps (V.state volume.old) (V.state volume.new) }
    ensures shape { SameShape (V.state volume.old) (V.state volume.new) }
    ensures cause { HasAreaCause (V.state volume.old).faults (V.state volume.new).faults result }
    ensures sure { StaysSureArea (V.state volume.old) (V.state volume.new) result }
{
    let mut bytes = vec![in alloc; 0; volume.leb_size() as usize]?;
    read_leb(volume, bud.lnum, &mut bytes)?;
    Ok(BudText {
        head: bud.head,
        lnum: bud.lnum,
        from: bud.offs,
        bytes: Bytes::from_vec(bytes),
    })
}
