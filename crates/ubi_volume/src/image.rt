// The bytes of a volume as one list.

ghost use Rattle.std.specs.Prelude.{◌≡◌, ◌↔◌, ◌*◌, IfOk, IfErr, IsErrOf, length};
ghost use Rattle.ubi_volume.specs.Loading.{Fits, IsLoaded, IsUnloaded, IsShort, IsLong};
ghost use Rattle.ubi_volume.specs.Shape.{IsShape};
ghost use Rattle.ubi_volume.specs.Volume.{image_of};
ghost use Rattle.ubi_volume.specs.MemVolume.{state_of, mem_of};
ghost use Rattle.ubi_volume.specs.Effects.{HasNoPast};

use crate::loading::{is_erased, loaded_lebs};
use crate::{LoadFault, MemVolume, VolShape};
use std::alloc::Global;
use ubifs_base::Memory;

/// The bytes of all LEBs, one after another. Unwritten bytes are 0xFF.
pub fn save_image(alloc: Global, volume: &MemVolume) -> Result<Vec<u8>, Memory>
    ensures { IfOk result (λ image. image.items ≡ image_of (state_of volume.now).holds (state_of volume.now).leb_cnt) }
{
    volume.image(alloc)
}

/// The volume that holds the bytes. LEBs behind their end are unwritten, and of each LEB the part behind its last unit that
/// isn't erased is open for writing. Errors are those of `LoadFault`, in the order `Short`, `Long`.
pub fn load_image(alloc: Global, bytes: &[u8], shape: VolShape) -> Result<MemVolume, LoadFault>
    requires { IsShape shape }
    ensures loaded { IfOk result (λ volume. IsLoaded shape bytes.now (state_of volume)) }
    ensures no_past { IfOk result (λ volume. HasNoPast (mem_of volume)) }
    ensures fits { IfOk result (λ _. Fits shape bytes.now) }
    ensures fault { IfErr result (IsUnloaded shape bytes.now) }
    ensures short { IsShort shape.leb_size bytes.now ↔ IsErrOf result (LoadFault.Short (length bytes.now)) }
    ensures long { IsLong shape bytes.now ↔ IsErrOf result (LoadFault.Long (length bytes.now) (shape.leb_size * shape.leb_cnt)) }
{
    let len = bytes.len() as u64;
    if len < 4096 {
        return Err(LoadFault::Short { len });
    }
    if len % shape.leb_size as u64 != 0 {
        return Err(LoadFault::Short { len });
    }
    let most = shape.leb_size as u64 * shape.leb_cnt as u64;
    if !is_erased(bytes, most) {
        return Err(LoadFault::Long { len, most });
    }
    let volume = MemVolume::loaded(alloc, bytes, shape)?;
    Ok(volume)
}
