// A volume in memory, LEB by LEB.

ghost use Rattle.std.specs.Prelude.{◌≡◌};
ghost use Rattle.io_edges.specs.Pieces.{bytes_in};
ghost use Rattle.ubifs_tools.specs.Pieces.{pieces_of, volume_image};

use io_edges::Pieces;
use ubi_volume::{MemVolume, Volume, read_leb};
use ubifs_base::Memory;

/// The LEBs of a volume, one behind another: the bytes of its image.
#[derive(Drop)]
pub(crate) struct VolumePieces {
    volume: MemVolume,
}

impl VolumePieces {
    // All of a volume.
    pub(crate) fn new(volume: MemVolume) -> VolumePieces
        ensures { bytes_in (pieces_of result) ≡ volume_image volume }
    {
        VolumePieces { volume }
    }
}

impl Pieces for VolumePieces {
    ghost use Rattle.ubifs_tools.specs.Pieces.{pieces_of};

    ghost pieces = { pieces_of };

    fn count(&self) -> u32 {
        self.volume.leb_cnt()
    }

    fn size(&self) -> u32 {
        self.volume.leb_size()
    }

    // A volume on which nothing is armed doesn't fail.
    fn read(&mut self, number: u32, out: &mut [u8]) -> Result<(), Memory> {
        match read_leb(&mut self.volume, number, out) {
            Ok(()) => Ok(()),
            Err(_fault) => Err(Memory),
        }
    }
}
