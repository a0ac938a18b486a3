// Keys as numbers.

ghost use Rattle.std.specs.Prelude.{◌≡◌};
ghost use Rattle.ubifs_base.specs.Key.{IsKey};
ghost use Rattle.index_tree.specs.Order.{key_rank};
ghost use Rattle.sound_image.specs.IndexBreaches.{key_value as value_of};

use ubifs_base::Key;

const KIND: u64 = 1 << 29;

const WORD: u64 = 1 << 32;

/// A key as a number, its first word before its second.
pub(crate) fn key_value(key: Key) -> u64
    requires { IsKey key }
    ensures { result ≡ value_of key }
{
    match key {
        Key::Ino { ino } => ino as u64 * WORD,
        Key::Block { ino, block } => ino as u64 * WORD + (KIND + block as u64),
        Key::Dent { dir, hash } => dir as u64 * WORD + (2 * KIND + hash as u64),
        Key::Xent { ino, hash } => ino as u64 * WORD + (3 * KIND + hash as u64),
    }
}

const RANK_KIND: u128 = 1 << 29;

const RANK_WORD: u128 = 1 << 33;

/// A key's place in the order.
#[tactic(auto, unfolding(index_tree::specs::Order::key_rank))]
pub(crate) fn key_rank(key: Key) -> u128
    ensures { result ≡ key_rank key }
{
    match key {
        Key::Ino { ino } => ino as u128 * RANK_WORD,
        Key::Block { ino, block } => ino as u128 * RANK_WORD + RANK_KIND + block as u128,
        Key::Dent { dir, hash } => dir as u128 * RANK_WORD + 2 * RANK_KIND + hash as u128,
        Key::Xent { ino, hash } => ino as u128 * RANK_WORD + 3 * RANK_KIND + hash as u128,
    }
}
