// A new file system on a blank volume is sound, and its space is told.

use image_report::{ImageText, check_text};
use std::alloc::Global;
use std::thread::Threads;
use ubi_volume::{MemVolume, VolShape, save_image};
use ubifs_base::{Geometry, Memory, RawGeometry};
use volume_format::format;

// 64 main LEBs, of which all but two are empty.
const LINE: &[u8] = b"sound clean used 160 empty 62 index 1 weight 1\n";

fn formatted(alloc: Global) -> Result<Vec<u8>, Memory> {
    let Ok(geometry) = Geometry::new(&RawGeometry::plain(16384, 512, 64, 8)) else {
        return Err(Memory);
    };
    let shape = VolShape {
        leb_size: geometry.leb_size,
        min_io: geometry.min_io,
        leb_cnt: geometry.leb_cnt,
    };
    let mut volume = MemVolume::new(alloc, shape)?;
    let Ok(()) = format(alloc, &mut volume, &geometry, &[7; 16], 1_000) else {
        return Err(Memory);
    };
    save_image(alloc, &volume)
}

fn is_told<R: Threads + Sync>(rt: &R, alloc: Global) -> Result<bool, Memory> {
    match check_text(rt, alloc, &formatted(alloc)?)? {
        ImageText::Sound { text } => Ok(text.as_slice() == LINE),
        ImageText::Unsound { .. } => Ok(false),
    }
}

#[test]
fn a_new_file_system_is_sound(rt: HostRuntime) {
    assert_eq!(rt; is_told(&rt, rt.alloc()), Ok(true));
}
