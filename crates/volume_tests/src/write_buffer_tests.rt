// A buffer over a volume in memory: units of 512 bytes in LEBs of 16,384.

use std::alloc::Global;
use ubi_volume::{MemVolume, VolShape, Volume};
use write_buffer::Buffer;

const SHAPE: VolShape = VolShape {
    leb_size: 16384,
    min_io: 512,
    leb_cnt: 3,
};

fn full_units_are_written_and_the_rest_waits(alloc: Global) -> bool {
    let Ok(mut volume) = MemVolume::new(alloc, SHAPE) else {
        return false;
    };
    let Ok(mut buffer) = Buffer::new(alloc, 512) else {
        return false;
    };
    if (buffer.leb(), buffer.end()) != (None, 0) {
        return false;
    }
    buffer.attach(2);
    let Ok(()) = buffer.append(&mut volume, &[7; 632]) else {
        return false;
    };
    if (buffer.leb(), buffer.end(), buffer.tail().len()) != (Some(2), 632, 120) {
        return false;
    }
    let Ok(()) = buffer.append(&mut volume, &[8; 4000]) else {
        return false;
    };
    let mut bytes = [0u8; 4700];
    let Ok(()) = volume.read(2, 0, &mut bytes) else {
        return false;
    };
    (buffer.end(), buffer.tail().len()) == (4632, 24)
        && (bytes[511], bytes[631], bytes[632], bytes[4607], bytes[4608]) == (7, 7, 8, 8, 255)
}

// A padding node, with 364 bytes behind it.
fn a_sync_pads_the_unit_by_a_gap(alloc: Global) -> bool {
    let Ok(mut volume) = MemVolume::new(alloc, SHAPE) else {
        return false;
    };
    let Ok(mut buffer) = Buffer::new(alloc, 512) else {
        return false;
    };
    buffer.attach(1);
    let Ok(()) = buffer.append(&mut volume, &[7; 632]) else {
        return false;
    };
    let Ok(()) = buffer.sync(&mut volume) else {
        return false;
    };
    let Ok(()) = buffer.sync(&mut volume) else {
        return false;
    };
    let mut gap = [0u8; 27];
    let Ok(()) = volume.read(1, 631, &mut gap) else {
        return false;
    };
    (buffer.end(), buffer.tail().len()) == (1024, 0)
        && &gap[..5] == [7, 0x31, 0x18, 0x10, 0x06].as_slice()
        && &gap[25..] == [108, 1].as_slice()
}

#[test]
fn units_are_written_and_padded(rt: HostRuntime) {
    assert_eq!(rt;
        (
            full_units_are_written_and_the_rest_waits(rt.alloc()),
            a_sync_pads_the_unit_by_a_gap(rt.alloc())
        ),
        (true, true)
    );
}
