// Fields at places of a body.

ghost use Rattle.std.specs.Prelude.{◌≡◌, ◌++◌, ◌+◌, ◌^◌, ◌<◌, ◌≤◌, length, drop};
ghost use Rattle.std.specs.Prelude.{[], ◌∷◌};
ghost use Rattle.ubifs_base.specs.Key.{IsKey};
ghost use Rattle.node_fields.specs.Fields.{AllFit, spelling, key_fields};
ghost use Rattle.byteorder.specs.Endian.{little_bytes, little_number};

use byteorder::{ByteOrder, LittleEndian};
use ubifs_base::{Key, key_bytes};

/// Writes a number of one byte at a place.
pub fn put_u8(body: &mut [u8], at: usize, number: u8)
    requires { at + 1 ≤ length body.old }
    ensures place { drop at body.new ≡ little_bytes 1 number ++ drop (at + 1) body.old }
    ensures fits { number < 256 ^ 1 }
{
    body.split_at_mut(at).1[0] = number;
}

/// Writes a number of two bytes at a place.
pub fn put_u16(body: &mut [u8], at: usize, number: u16)
    requires { at + 2 ≤ length body.old }
    ensures place { drop at body.new ≡ little_bytes 2 number ++ drop (at + 2) body.old }
    ensures fits { number < 256 ^ 2 }
{
    LittleEndian::write_u16(body.split_at_mut(at).1, number);
}

/// Writes a number of four bytes at a place.
pub fn put_u32(body: &mut [u8], at: usize, number: u32)
    requires { at + 4 ≤ length body.old }
    ensures place { drop at body.new ≡ little_bytes 4 number ++ drop (at + 4) body.old }
    ensures fits { number < 256 ^ 4 }
{
    LittleEndian::write_u32(body.split_at_mut(at).1, number);
}

/// Writes a number of eight bytes at a place.
pub fn put_u64(body: &mut [u8], at: usize, number: u64)
    requires { at + 8 ≤ length body.old }
    ensures place { drop at body.new ≡ little_bytes 8 number ++ drop (at + 8) body.old }
    ensures fits { number < 256 ^ 8 }
{
    LittleEndian::write_u64(body.split_at_mut(at).1, number);
}

/// Writes the bytes at the end, from a place on.
pub fn put_last(body: &mut [u8], at: usize, bytes: &[u8])
    requires { at + length bytes.now ≡ length body.old }
    ensures { drop at body.new ≡ bytes.now }
{
    body.split_at_mut(at).1.copy_from_slice(bytes);
}

/// Writes bytes at a place.
pub fn put_bytes(body: &mut [u8], at: usize, bytes: &[u8])
    requires { at + length bytes.now ≤ length body.old }
    ensures { drop at body.new ≡ bytes.now ++ drop (at + length bytes.now) body.old }
{
    copy_front(body.split_at_mut(at).1, bytes);
}

fn copy_front(body: &mut [u8], bytes: &[u8])
    requires { length bytes.now ≤ length body.old }
    ensures { body.new ≡ bytes.now ++ drop (length bytes.now) body.old }
{
    body.split_at_mut(bytes.len()).0.copy_from_slice(bytes);
}

/// Writes a name and a zero byte at the end, from a place on.
pub fn put_name(body: &mut [u8], at: usize, name: &[u8])
    requires { at + length name.now + 1 ≡ length body.old }
    ensures { drop at body.new ≡ name.now ++ (0 ∷ []) }
{
    put_u8(body, at + name.len(), 0);
    put_bytes(body, at, name);
}

/// Writes a key in front, and zeros in the eight bytes behind it.
#[tactic(auto, unfolding(crate::specs::Fields::spelling))]
pub fn put_key(body: &mut [u8], key: &Key)
    requires key { IsKey key.now }
    requires room { 16 ≤ length body.old }
    ensures spelling { body.new ≡ spelling (key_fields key.now) (drop 16 body.old) }
    ensures fits { AllFit (key_fields key.now) }
{
    put_u64(body, 8, 0);
    body.split_at_mut(8).0.copy_from_slice(&key_bytes(key));
}

/// The number of two bytes at a place.
pub fn u16_at(body: &[u8], at: usize) -> u16
    requires { at + 2 ≤ length body.now }
    ensures { result ≡ little_number 2 (drop at body.now) }
{
    LittleEndian::read_u16(body.split_at(at).1)
}

/// The number of four bytes at a place.
pub fn u32_at(body: &[u8], at: usize) -> u32
    requires { at + 4 ≤ length body.now }
    ensures { result ≡ little_number 4 (drop at body.now) }
{
    LittleEndian::read_u32(body.split_at(at).1)
}

/// The number of eight bytes at a place.
pub fn u64_at(body: &[u8], at: usize) -> u64
    requires { at + 8 ≤ length body.now }
    ensures { result ≡ little_number 8 (drop at body.now) }
{
    LittleEndian::read_u64(body.split_at(at).1)
}
