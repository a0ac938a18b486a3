// The listing of a volume.

ghost use Rattle.std.specs.Prelude.{◌≡◌, ◌++◌, ◌^◌, ◌<◌, List, [], ℕ, OnOk, OnErr, length};
ghost use Rattle.image_dump.specs.Listing.{IsListing, IsLebListing, IsProperties};
ghost use Rattle.ubi_volume.specs.Volume.{Keeps, SameShape};
ghost use Rattle.ubi_volume.specs.Faults.{HasAreaCause, StaysSureArea};
ghost use Rattle.ubifs_base.specs.RawOf.{raw_of};

use crate::leb::{is_unwritten, push_text, push_whole_leb};
use std::alloc::{AllocError, Global};
use ubi_volume::{AreaFault, Volume, read_leb};
use ubifs_base::Geometry;

/// Appends the listing of all LEBs of the volume, in which those of the geometry's properties area are only named. After
/// a fault `out` is as it was.
pub fn dump<V: Volume>(
    alloc: Global,
    volume: &mut V,
    geometry: &Geometry,
    out: &mut Vec<u8>,
) -> Result<(), AreaFault>
    ensures listed { OnOk result ((text : List ℕ) × IsListing (raw_of geometry.now) (V.state volume.old).holds (V.state volume.old).leb_cnt text
        × (out.new.items ≡ out.old.items ++ text)) }
    ensures fault { OnErr result (out.new.items ≡ out.old.items) }
    ensures keeps { Keeps (V.state volume.old) (V.state volume.new) }
    ensures shape { SameShape (V.state volume.old) (V.state volume.new) }
    ensures cause { HasAreaCause (V.state volume.old).faults (V.state volume.new).faults result }
    ensures sure { StaysSureArea (V.state volume.old) (V.state volume.new) result }
{
    let mut text = Vec::new(alloc);
    list_lebs(alloc, volume, geometry, &mut text)?;
    out.extend_from_slice(&text)?;
    Ok(())
}

// Appends what is listed of each LEB.
fn list_lebs<V: Volume>(
    alloc: Global,
    volume: &mut V,
    geometry: &Geometry,
    text: &mut Vec<u8>,
) -> Result<(), AreaFault>
    requires { text.old.items ≡ [] }
    ensures listed { OnOk result (IsListing (raw_of geometry.now) (V.state volume.old).holds (V.state volume.old).leb_cnt text.new.items) }
    ensures keeps { Keeps (V.state volume.old) (V.state volume.new) }
    ensures shape { SameShape (V.state volume.old) (V.state volume.new) }
    ensures cause { HasAreaCause (V.state volume.old).faults (V.state volume.new).faults result }
    ensures sure { StaysSureArea (V.state volume.old) (V.state volume.new) result }
{
    let mut leb = vec![in alloc; 0; volume.leb_size() as usize]?;
    for lnum in 0..volume.leb_cnt() {
        list_leb(volume, geometry, lnum, &mut leb, text)?;
    }
    Ok(())
}

// Appends what is listed of a LEB, which is read into the buffer.
fn list_leb<V: Volume>(
    volume: &mut V,
    geometry: &Geometry,
    lnum: u32,
    leb: &mut [u8],
    text: &mut Vec<u8>,
) -> Result<(), AreaFault>
    requires lnum { lnum < (V.state volume.old).leb_cnt }
    requires whole { length leb.old ≡ (V.state volume.old).leb_size }
    requires size { length leb.old < 2 ^ 32 }
    ensures listed { OnOk result ((last : List ℕ) × IsLebListing (raw_of geometry.now) lnum ((V.state volume.old).holds lnum) last
        × (text.new.items ≡ text.old.items ++ last)) }
    ensures len { length leb.new ≡ length leb.old }
    ensures keeps { Keeps (V.state volume.old) (V.state volume.new) }
    ensures shape { SameShape (V.state volume.old) (V.state volume.new) }
    ensures cause { HasAreaCause (V.state volume.old).faults (V.state volume.new).faults result }
    ensures sure { StaysSureArea (V.state volume.old) (V.state volume.new) result }
{
    read_leb(volume, lnum, leb)?;
    push_leb(text, geometry, lnum, leb)?;
    Ok(())
}

// Appends what is listed of a LEB.
fn push_leb(
    text: &mut Vec<u8>,
    geometry: &Geometry,
    lnum: u32,
    leb: &[u8],
) -> Result<(), AllocError>
    requires { length leb.now < 2 ^ 32 }
    ensures { OnOk result ((last : List ℕ) × IsLebListing (raw_of geometry.now) lnum leb.now last × (text.new.items ≡ text.old.items ++ last)) }
{
    if geometry.lpt_first() <= lnum && lnum < geometry.orph_first() {
        return push_whole_leb(text, lnum, b"lpt".as_slice());
    }
    if is_unwritten(leb) {
        return push_whole_leb(text, lnum, b"empty".as_slice());
    }
    push_text(text, lnum, leb)
}
