// A volume in memory, by hand.

use std::alloc::Global;
use ubi_volume::{LoadFault, MemVolume, VolShape, Volume, load_image, save_image};
use ubifs_base::{Arm, Cut, Memory};

const SMALL: VolShape = VolShape {
    leb_size: 8,
    min_io: 4,
    leb_cnt: 3,
};

// Writes, unmaps, maps and changes, and reads what is told of it.
fn keeps_what_is_written(alloc: Global) -> Result<bool, Memory> {
    let mut volume = MemVolume::new(alloc, SMALL)?;
    if volume.write(0, 4, b"abcd").is_err()
        || volume.change(2, b"efgh").is_err()
        || volume.change(1, b"ijklmnop").is_err()
    {
        return Ok(false);
    }
    let Ok(()) = volume.unmap(1) else {
        return Ok(false);
    };
    let Ok(()) = volume.map(1) else {
        return Ok(false);
    };
    let Ok(()) = volume.write(1, 0, b"qrst") else {
        return Ok(false);
    };
    let mut read = [0u8; 2];
    volume.arm(&Arm::Fail { call: 2 });
    let is_read = volume.read(0, 5, &mut read).is_ok();
    let is_kept = volume.unmap(0).is_err();
    let image = save_image(alloc, &volume)?;
    Ok(
        is_read
            && is_kept
            && read == [b'b', b'c']
            && image.as_slice()
                == b"\xff\xff\xff\xffabcdqrst\xff\xff\xff\xffefgh\xff\xff\xff\xff".as_slice()
            && (
                volume.leb_size(),
                volume.min_io(),
                volume.leb_cnt(),
                volume.faults(),
                volume.steps(),
            ) == (8, 4, 3, 1, 6),
    )
}

// Of three LEBs of two units, of which the last two are unmapped: the step of a cut, its pattern, what it leaves behind the
// first LEB, and whether it strikes. If it does, the write into the second and the read after it fail.
const CUTS: &[(u64, u64, &[u8], bool)] = &[
    (
        1,
        0,
        b"\xff\xff\xff\xff\xff\xff\xff\xff\xff\xff\xff\xff\xff\xff\xff\xff",
        true,
    ),
    (
        1,
        1,
        b"ABCD\xff\xff\xff\xff\xff\xff\xff\xff\xff\xff\xff\xff",
        true,
    ),
    (
        1,
        2,
        b"\0\0\0\0\xff\xff\xff\xff\xff\xff\xff\xff\xff\xff\xff\xff",
        true,
    ),
    (
        1,
        3,
        b"AB\xff\xff\xff\xff\xff\xff\xff\xff\xff\xff\xff\xff\xff\xff",
        true,
    ),
    (
        2,
        0,
        b"ABCD\xff\xff\xff\xff\xff\xff\xff\xff\xff\xff\xff\xff",
        true,
    ),
    (
        2,
        3,
        b"ABCDEF\xff\xff\xff\xff\xff\xff\xff\xff\xff\xff",
        true,
    ),
    (2, 6, b"ABCD\0\0\0\0abcd\xff\xff\xff\xff", true),
    (3, 0, b"ABCDEFGH\xff\xff\xff\xff\xff\xff\xff\xff", false),
    (3, 7, b"ABCDEFGHabcd\xff\xff\xff\xff", false),
];

fn is_left(alloc: Global, cut: Cut, behind: &[u8], strikes: bool) -> Result<bool, Memory> {
    let mut volume = MemVolume::new(alloc, SMALL)?;
    if volume.change(1, b"abcd").is_err() || volume.change(2, b"abcd").is_err() {
        return Ok(false);
    }
    let Ok(()) = volume.unmap(1) else {
        return Ok(false);
    };
    let Ok(()) = volume.unmap(2) else {
        return Ok(false);
    };
    volume.arm(&Arm::Cut { cut });
    let mut read = [0u8; 1];
    let cut_short = volume.write(1, 0, b"ABCDEFGH").is_err();
    let refused = volume.read(0, 0, &mut read).is_err();
    let is_cut = volume.is_cut();
    volume.revive();
    let image = save_image(alloc, &volume)?;
    let faults = if strikes { 2 } else { 0 };
    Ok(
        image.as_slice().ends_with(behind)
            && (cut_short, refused, is_cut) == (strikes, strikes, strikes)
            && volume.faults() == faults,
    )
}

const LARGE: VolShape = VolShape {
    leb_size: 4096,
    min_io: 512,
    leb_cnt: 2,
};

const LONGER: Option<LoadFault> = Some(LoadFault::Long {
    len: 12288,
    most: 8192,
});

// The length of the image, where it has a byte that isn't erased, and why it isn't loaded.
const IMAGES: &[(usize, usize, Option<LoadFault>)] = &[
    (0, 0, Some(LoadFault::Short { len: 0 })),
    (4095, 0, Some(LoadFault::Short { len: 4095 })),
    (4101, 0, Some(LoadFault::Short { len: 4101 })),
    (12288, 8192, LONGER),
    (12288, 12287, LONGER),
    (4096, 4095, None),
    (8192, 600, None),
    (12288, 8191, None),
];

// Whether an image is loaded and saved as it was, with unwritten bytes up to the volume's end, or isn't for this reason.
fn is_loaded(
    alloc: Global,
    len: usize,
    place: usize,
    fault: Option<LoadFault>,
) -> Result<bool, Memory> {
    let mut bytes = vec![in alloc; 0xff; len]?;
    if let Some(byte) = bytes.get_mut(place) {
        *byte = 0;
    }
    match load_image(alloc, &bytes, LARGE) {
        Err(found) => Ok(Some(found) == fault),
        Ok(volume) => {
            let image = save_image(alloc, &volume)?;
            Ok(
                fault.is_none()
                    && image.len() == 8192
                    && image.iter().position(|byte| *byte != 0xff) == Some(place),
            )
        }
    }
}

#[test]
fn volume_in_memory_keeps_what_is_written(rt: HostRuntime) {
    assert_eq!(rt; keeps_what_is_written(rt.alloc()), Ok(true));
}

#[test]
fn patterns_say_what_a_cut_leaves(rt: HostRuntime) {
    for (step, pattern, behind, strikes) in CUTS {
        let cut = Cut {
            step: *step,
            pattern: *pattern,
        };
        assert_eq!(rt;
            is_left(rt.alloc(), cut, behind, *strikes),
            Ok(true),
            "{step} {pattern}"
        );
    }
}

#[test]
fn image_is_loaded_or_told_why_not(rt: HostRuntime) {
    for (len, place, fault) in IMAGES {
        assert_eq!(rt;
            is_loaded(rt.alloc(), *len, *place, *fault),
            Ok(true),
            "{len} {place}"
        );
    }
}
