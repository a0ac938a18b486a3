// Leaves whose keys come in an order that looks random.

ghost use Rattle.ubifs_base.specs.Key.{IsKey};

use index_tree::Leaf;
use ubifs_base::Key;

/// How many leaves are put and found.
pub(crate) const MANY: u32 = 1_000_000;

/// How many without a word.
pub(crate) const FEW: u32 = 1000;

/// The fanout that `mkfs.ubifs` takes.
pub(crate) const FANOUT: u32 = 8;

/// The leaf of a number.
pub(crate) fn leaf(i: u32) -> Leaf
    ensures { IsKey result.key }
{
    Leaf {
        key: Key::Ino { ino: mixed(i) },
        lnum: 1,
        offs: i,
        len: 160,
    }
}

/// A number for each number, no two the same, in an order that looks random.
pub(crate) fn mixed(i: u32) -> u32 {
    let x = (i ^ (i >> 16)).wrapping_mul(0x7feb_352d);
    let x = (x ^ (x >> 15)).wrapping_mul(0x846c_a68b);
    x ^ (x >> 16)
}
