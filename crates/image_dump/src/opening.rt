// The volume of an image.

ghost use Rattle.std.specs.Prelude.{◌≡◌, ℕ, IfOk, IfErr, IfSome, IfNone};
ghost use Rattle.ubifs_base.specs.RawOf.{raw_of};
ghost use Rattle.ubi_volume.specs.Loading.{IsLoaded};
ghost use Rattle.image_volume.specs.ImageVolume.{state_of};
ghost use Rattle.media_sys.specs.SystemNode.{IsSuper};
ghost use Rattle.media_sys.specs.declared.super_node.Super.{Super as ASuper};
ghost use Rattle.image_dump.specs.Opening.{IsImageOpened, IsFaulty, HasGeometry, HasVolume, shape_of, fault_of};

use crate::fault::ImageFault;
use image_volume::ImageVolume;
use media_sys::{Super, SuperField};
use sound_image::super_field;
use std::alloc::Global;
use ubi_volume::{LoadFault, VolShape};
use ubifs_base::Geometry;

/// The bytes of an image as a volume, and its geometry.
#[derive(Drop)]
pub struct Opened<'a> {
    pub volume: ImageVolume<'a>,
    pub geometry: Geometry,
}

/// The volume of an image, whose shape its superblock tells. What else stands in it isn't looked at, and nothing is copied. Errors are
/// those of `ImageFault`, the first that applies.
pub fn open_image<'a>(alloc: Global, image: &'a [u8]) -> Result<Opened<'a>, ImageFault>
    ensures opened { IfOk result (IsImageOpened image.now) }
    ensures fault { IfErr result (IsFaulty image.now) }
{
    let geometry = geometry_in(alloc, image)?;
    let volume = volume_of(image, &geometry)?;
    Ok(Opened { volume, geometry })
}

// The geometry that the superblock tells.
fn geometry_in(alloc: Global, image: &[u8]) -> Result<Geometry, ImageFault>
    ensures has { IfOk result (λ geometry. HasGeometry image.now (raw_of geometry)) }
    ensures fault { IfErr result (IsFaulty image.now) }
{
    if image.len() < 4096 {
        return Err(ImageFault::Short {
            len: image.len() as u64,
        });
    }
    let Some(node) = superblock_of(alloc, image.split_at(4096).0) else {
        return Err(ImageFault::Super {
            field: SuperField::Node,
        });
    };
    if let Some(what) = node.feature() {
        return Err(ImageFault::Feature {
            what,
            lnum: 0,
            offs: 0,
        });
    }
    match Geometry::new(&node.raw()) {
        Ok(geometry) => Ok(geometry),
        Err(fault) => Err(ImageFault::Super {
            field: super_field(fault.field),
        }),
    }
}

// The superblock that the bytes are.
fn superblock_of(alloc: Global, bytes: &[u8]) -> Option<Super>
    ensures some { IfSome result (λ node. (sqnum : ℕ) × (group : ℕ) × IsSuper bytes.now sqnum group node) }
    ensures none { IfNone result ((sqnum group : ℕ) (node : ASuper) → IsSuper bytes.now sqnum group node → ⊥) }
{
    let Ok(node) = Super::decode(alloc, bytes) else {
        return None;
    };
    node
}

// The volume of an image whose geometry is told.
fn volume_of<'a>(image: &'a [u8], geometry: &Geometry) -> Result<ImageVolume<'a>, ImageFault>
    requires { HasGeometry image.now (raw_of geometry.now) }
    ensures fits { IfOk result (λ _. HasVolume image.now (raw_of geometry.now)) }
    ensures loaded { IfOk result (λ volume. IsLoaded (shape_of (raw_of geometry.now)) image.now (state_of volume)) }
    ensures fault { IfErr result (IsFaulty image.now) }
{
    let shape = VolShape {
        leb_size: geometry.leb_size,
        min_io: geometry.min_io,
        leb_cnt: geometry.leb_cnt,
    };
    match ImageVolume::new(image, shape) {
        Ok(volume) => Ok(volume),
        Err(fault) => Err(fault_told(fault)),
    }
}

// Why the image isn't one of a volume.
fn fault_told(fault: LoadFault) -> ImageFault
    ensures { result ≡ fault_of fault }
{
    match fault {
        LoadFault::Memory => ImageFault::Memory,
        LoadFault::Short { len } => ImageFault::Short { len },
        LoadFault::Long { len, most } => ImageFault::Long { len, most },
    }
}
