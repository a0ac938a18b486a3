// The bytes at a leaf's place.

ghost use Rattle.std.specs.Prelude.{◌<◌, ◌^◌, length};
ghost use Rattle.std.specs.Option.{ForSome};

use index_tree::Leaf;

// A leaf with the bytes at its place, as many as it is long; none where no leaf node of its length can stand.
#[derive(Drop)]
pub(crate) struct LeafBytes {
    pub(crate) leaf: Leaf,
    pub(crate) bytes: Option<Vec<u8>>,
    pub(crate) ghost short: { ForSome bytes (λ read. length read.items < 2 ^ 32) },
}
