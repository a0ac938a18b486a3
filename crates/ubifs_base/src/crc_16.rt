// The checksum of properties nodes.

ghost use Rattle.std.specs.Prelude.{◌≡◌};
ghost use Rattle.ubifs_base.specs.Crc.{crc16_of, crc_byte, crc_bits};

use crate::table_16::TABLE_16;

/// The CRC-16 of the bytes (reflected polynomial 0xA001, starting value 0xFFFF): the checksum of the
/// nodes of the properties tree (`UBIFS_LPT_CRC_BITS` of ubifs-media.h).
#[tactic(auto, unfolding(crate::specs::Crc::crc16_of))]
pub fn crc16(bytes: &[u8]) -> u16
    ensures { result ≡ crc16_of bytes.now }
{
    let mut crc = 0xffff;
    for byte in bytes {
        crc = with_byte(crc, *byte);
    }
    crc
}

fn with_byte(crc: u16, byte: u8) -> u16
    ensures { result ≡ crc_byte 0xA001 crc byte }
{
    byte_after(((crc ^ byte as u16) & 0xff) as u8) ^ (crc >> 8)
}

fn byte_after(byte: u8) -> u16
    ensures { result ≡ crc_bits 0xA001 8 byte }
{
    TABLE_16[byte as usize]
}
