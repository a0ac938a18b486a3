// Bytes that are given piece by piece.

ghost use Rattle.std.specs.Prelude.{◌≡◌, ◌<◌, length, OnOk};
ghost use Rattle.io_edges.specs.Pieces.{PieceList, SamePieces};

use ubifs_base::Memory;

/// Bytes that are given piece by piece. All pieces are of one size.
pub trait Pieces {
    /// The pieces in order.
    ghost pieces: { Self → PieceList };

    /// How many there are.
    fn count(&self) -> u32
        ensures { result ≡ (pieces self.now).count };

    /// How many bytes each has.
    fn size(&self) -> u32
        ensures { result ≡ (pieces self.now).size };

    /// Reads a piece by its number, from 0 on.
    fn read(&mut self, number: u32, out: &mut [u8]) -> Result<(), Memory>
        requires number { number < (pieces self.old).count }
        requires whole { length out.old ≡ (pieces self.old).size }
        ensures read { OnOk result (out.new ≡ (pieces self.old).piece number) }
        ensures same { SamePieces (pieces self.old) (pieces self.new) };
}
