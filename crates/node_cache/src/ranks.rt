// A key's place in the order.

ghost use Rattle.std.specs.Prelude.{◌≡◌};
ghost use Rattle.index_tree.specs.LastBlock.{last_rank};
ghost use Rattle.index_tree.specs.Order.{key_rank};

use ubifs_base::Key;

const FIRST: u128 = 1 << 33;

const KIND: u128 = 1 << 29;

/// A number for each key: a greater one for a greater first word, or the same and a greater second.
#[tactic(auto, unfolding(index_tree::specs::Order::key_rank))]
pub fn rank(key: &Key) -> u128
    ensures { result ≡ key_rank key.now }
{
    match *key {
        Key::Ino { ino } => ino as u128 * FIRST,
        Key::Block { ino, block } => ino as u128 * FIRST + KIND + block as u128,
        Key::Dent { dir, hash } => dir as u128 * FIRST + 2 * KIND + hash as u128,
        Key::Xent { ino, hash } => ino as u128 * FIRST + 3 * KIND + hash as u128,
    }
}

/// The greatest rank that a block of this inode can have.
pub fn last_rank(ino: u32) -> u128
    ensures { result ≡ last_rank ino }
{
    ino as u128 * FIRST + 2 * KIND - 1
}
