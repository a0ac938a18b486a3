// The check of an image.

use image_report::{ImageText, check_text};
use io_edges::{FileKeeper, Keeper, OutSink, Sink};
use std::alloc::Global;
use std::thread::Threads;
use std::time::{Duration, Instant};
use ubifs_base::{Memory, crc32};

/// How often each is done.
const TURNS: u32 = 25;

/// Reads the file of this name, checks its bytes 25 times, and takes the checksum of the same bytes in turns with that. Then it prints what is told of
/// the image, the nanoseconds of the best check and those of the best checksum, and a sum of the checksums.
pub(crate) fn timed<R: Threads + Sync>(
    rt: &HostRuntime,
    threads: &R,
    name: &str,
) -> anyhow::Result<()> {
    let mut keeper = FileKeeper::new(rt.alloc(), rt.clone()?);
    let image = keeper.read(name)?;
    let mut text = Vec::new(rt.alloc());
    let mut checked = Duration::MAX;
    let mut sum = 0u32;
    let mut summed = Duration::MAX;
    for _ in 0..TURNS {
        let start = Instant::now(rt)?;
        text = told(threads, rt.alloc(), &image)?;
        checked = checked.min(start.elapsed(rt)?);
        let start = Instant::now(rt)?;
        sum = sum.wrapping_add(crc32(&image));
        summed = summed.min(start.elapsed(rt)?);
    }
    let mut out = OutSink::new(rt.clone()?);
    out.write(text.as_slice())?;
    println!(rt; "{} {} {sum:08x}", checked.as_nanos(), summed.as_nanos())?;
    Ok(())
}

// What is told of an image, sound or not.
fn told<R: Threads + Sync>(rt: &R, alloc: Global, image: &[u8]) -> Result<Vec<u8>, Memory> {
    match check_text(rt, alloc, image)? {
        ImageText::Unsound { line } => Ok(line),
        ImageText::Sound { text } => Ok(text),
    }
}
