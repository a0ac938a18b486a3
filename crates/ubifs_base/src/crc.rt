// The checksum of nodes, sixteen bytes a turn.

ghost use Rattle.std.specs.Prelude.{◌≡◌, ◌*◌, ◌<◌, ◌≤◌, length, take};
ghost use Rattle.ubifs_base.specs.Crc.{crc32_of, crc_byte, crc_bits, crc_from};

use crate::tables_high::TABLES_HIGH;
use crate::tables_low::TABLES_LOW;
use byteorder::{ByteOrder, LittleEndian};

/// The CRC-32 of the bytes (reflected polynomial 0xEDB88320, starting value 0xFFFFFFFF), without the
/// final inversion: the checksum of the common header of ubifs-media.h.
#[tactic(auto, using(crate::proofs::CrcLemmas::crc_from_parts), unfolding(crate::specs::Crc::crc32_of))]
pub fn crc32(bytes: &[u8]) -> u32
    ensures { result ≡ crc32_of bytes.now }
{
    let mut crc = 0xffff_ffff;
    let mut rest = bytes;
    while rest.len() >= 16 {
        crc = with_sixteen(crc, rest);
        rest = rest.split_at(16).1;
    }
    for byte in rest {
        crc = with_byte(crc, *byte);
    }
    crc
}

#[inline(always)]
fn with_sixteen(crc: u32, bytes: &[u8]) -> u32
    requires { 16 ≤ length bytes.now }
    ensures { result ≡ crc_from 0xEDB88320 crc (take 16 bytes.now) }
{
    let first = LittleEndian::read_u32(bytes);
    let after_first = bytes.split_at(4).1;
    let second = LittleEndian::read_u32(after_first);
    let after_second = after_first.split_at(4).1;
    let third = LittleEndian::read_u32(after_second);
    let fourth = LittleEndian::read_u32(after_second.split_at(4).1);
    // The next turn waits for the word that the checksum stands in, so it is taken last.
    let later = word_after(12, second) ^ (word_after(8, third) ^ word_after(4, fourth));
    later ^ word_after(16, crc ^ first)
}

// The word moves out, and bytes of zeros behind it, as many as are given in all.
#[inline(always)]
fn word_after(count: usize, word: u32) -> u32
    requires low { 4 ≤ count }
    requires high { count ≤ 16 }
    ensures { result ≡ crc_bits 0xEDB88320 (8 * count) word }
{
    byte_after(count, word & 0xff)
        ^ (byte_after(count - 1, (word >> 8) & 0xff)
            ^ (byte_after(count - 2, (word >> 16) & 0xff) ^ byte_after(count - 3, word >> 24)))
}

#[inline(always)]
fn with_byte(crc: u32, byte: u8) -> u32
    ensures { result ≡ crc_byte 0xEDB88320 crc byte }
{
    byte_after(1, (crc ^ byte as u32) & 0xff) ^ (crc >> 8)
}

#[inline(always)]
fn byte_after(count: usize, byte: u32) -> u32
    requires some { 1 ≤ count }
    requires high { count ≤ 16 }
    requires byte { byte < 256 }
    ensures { result ≡ crc_bits 0xEDB88320 (8 * count) byte }
{
    if count <= 8 {
        TABLES_LOW[count - 1][byte as usize]
    } else {
        TABLES_HIGH[count - 9][byte as usize]
    }
}
