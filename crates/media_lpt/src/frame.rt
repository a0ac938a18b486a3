// What all properties nodes begin with: a checksum of 16 bits and a type of 4.

ghost use Rattle.std.specs.Prelude.{◌≡◌, ◌+◌, ◌*◌, ◌%◌, ◌^◌, ◌<◌, ◌≤◌, ◌↔◌, length, drop, replicate, IsTrue};
ghost use Rattle.byteorder.specs.Endian.{little_number};
ghost use Rattle.ubifs_base.specs.Crc.{crc16_of};
ghost use Rattle.media_lpt.specs.Packed.{bytes_number, IsFree, IsFramed};

use crate::packing::{get, put};
use byteorder::{ByteOrder, LittleEndian};
use ubifs_base::crc16;

/// The bits of the checksum and the type.
pub(crate) const HEAD_BITS: usize = 16 + 4;

/// Whether the bytes are a node of this type with so many bits behind its head.
pub(crate) fn is_framed(bytes: &[u8], kind: u32, bits: usize) -> bool
    requires { bits < 2 ^ 40 }
    ensures { IsTrue result ↔ IsFramed bytes.now kind bits }
{
    if bytes.len() != (HEAD_BITS + bits).div_ceil(8) {
        return false;
    }
    if get(bytes, 0, 16) != checksum(bytes) as u32 {
        return false;
    }
    if get(bytes, 16, 4) != kind {
        return false;
    }
    let filling = 8 * bytes.len() - (HEAD_BITS + bits);
    get(bytes, HEAD_BITS + bits, filling as u32) == 0
}

/// Makes all bytes 0 but for the type.
pub(crate) fn start(out: &mut [u8], kind: u32)
    requires kind { kind < 16 }
    requires room { 3 ≤ length out.old }
    ensures len { length out.new ≡ length out.old }
    ensures number { bytes_number out.new ≡ 2 ^ 16 * kind }
    ensures free { IsFree out.new 20 }
{
    clear(out);
    put(out, 16, 4, kind);
}

fn clear(out: &mut [u8])
    ensures { out.new ≡ replicate (length out.old) 0 }
{
    out.fill(0);
}

/// Writes the checksum, whose bits are 0.
pub(crate) fn seal(out: &mut [u8])
    requires room { 2 ≤ length out.old }
    requires open { bytes_number out.old % 2 ^ 16 ≡ 0 }
    ensures len { length out.new ≡ length out.old }
    ensures sum { bytes_number out.new ≡ bytes_number out.old + crc16_of (drop 2 out.new) }
{
    let crc = checksum(out);
    LittleEndian::write_u16(out, crc);
}

fn checksum(bytes: &[u8]) -> u16
    requires { 2 ≤ length bytes.now }
    ensures sum { result ≡ crc16_of (drop 2 bytes.now) }
    ensures low { little_number 2 bytes.now ≡ bytes_number bytes.now % 2 ^ 16 }
{
    crc16(bytes.split_at(2).1)
}
