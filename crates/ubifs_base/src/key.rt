// The simple key format: which inode, and which part of it.

ghost use Rattle.std.specs.Prelude.{◌≡◌, ◌≢◌, ◌++◌, IfSome, IfNone};
ghost use Rattle.byteorder.specs.Endian.{little_bytes};
ghost use Rattle.ubifs_base.specs.declared.key.Key.{Key};
ghost use Rattle.ubifs_base.specs.Key.{IsKey, key_spelled, key_of, key_from};

use byteorder::{ByteOrder, LittleEndian};

/// What a leaf of the index is: an inode, a block of a file, a directory entry or an extended entry,
/// as `UBIFS_SIMPLE_KEY_FMT` of ubifs-media.h numbers them. A block and a hash are below 2^29.
#[derive(Clone, Copy, Debug, PartialEq, Eq)]
pub enum Key {
    Ino { ino: u32 },
    Block { ino: u32, block: u32 },
    Dent { dir: u32, hash: u32 },
    Xent { ino: u32, hash: u32 },
}

const VALUE_BITS: u32 = 29;

/// The key's eight bytes: the inode number, then the type above the 29 bits of the value.
pub fn key_bytes(key: &Key) -> [u8; 8]
    requires { IsKey key.now }
    ensures { result ≡ key_spelled key.now }
{
    let (first, second) = match *key {
        Key::Ino { ino } => (ino, 0),
        Key::Block { ino, block } => (ino, (1 << VALUE_BITS) + block),
        Key::Dent { dir, hash } => (dir, (2 << VALUE_BITS) + hash),
        Key::Xent { ino, hash } => (ino, (3 << VALUE_BITS) + hash),
    };
    spelled(first, second)
}

fn spelled(first: u32, second: u32) -> [u8; 8]
    ensures { result ≡ little_bytes 4 first ++ little_bytes 4 second }
{
    let mut bytes = [0; 8];
    LittleEndian::write_u32(&mut bytes, first);
    LittleEndian::write_u32(&mut bytes[4..], second);
    bytes
}

/// The key that the bytes spell: none where the type is above 3, or an inode's key has a value.
#[tactic(auto, unfolding(crate::specs::Key::key_of))]
pub fn read_key(bytes: &[u8; 8]) -> Option<Key>
    ensures found { IfSome result (λ key. IsKey key × (key_spelled key ≡ bytes.now)) }
    ensures none { IfNone result ((key : Key) → IsKey key → key_spelled key ≢ bytes.now) }
    ensures exact { result ≡ key_of bytes.now }
{
    let ino = LittleEndian::read_u32(bytes);
    let second = LittleEndian::read_u32(bytes.split_at(4).1);
    key_from_words(ino, second)
}

fn key_from_words(first: u32, second: u32) -> Option<Key>
    ensures { result ≡ key_from first second }
{
    let value = second % (1 << VALUE_BITS);
    match second >> VALUE_BITS {
        0 if value == 0 => Some(Key::Ino { ino: first }),
        1 => Some(Key::Block {
            ino: first,
            block: value,
        }),
        2 => Some(Key::Dent {
            dir: first,
            hash: value,
        }),
        3 => Some(Key::Xent {
            ino: first,
            hash: value,
        }),
        _ => None,
    }
}
