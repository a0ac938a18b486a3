// Bytes that are all alike, eight at a time.

ghost use Rattle.std.specs.Prelude.{◌≡◌, ◌↔◌, ◌≤◌, length, take, replicate, IsTrue};
ghost use Rattle.leb_scan.specs.Text.{is_blank};

use node_fields::u64_at;

const WORD_OF_PADDING: u64 = 0xcece_cece_cece_cece;

// Whether all bytes are 0xFF.
pub(crate) fn is_unwritten(bytes: &[u8]) -> bool
    ensures { result ≡ is_blank bytes.now }
{
    let mut rest = bytes;
    while rest.len() >= 8 {
        if u64_at(rest, 0) != u64::MAX {
            return false;
        }
        rest = rest.split_at(8).1;
    }
    are_unwritten(rest)
}

fn are_unwritten(bytes: &[u8]) -> bool
    ensures { result ≡ is_blank bytes.now }
{
    bytes.iter().all(|byte| *byte == 0xff)
}

// Whether the first eight bytes are 0xCE.
pub(crate) fn begins_with_padding(bytes: &[u8]) -> bool
    ensures { IsTrue result ↔ (take 8 bytes.now ≡ replicate 8 0xCE) }
{
    if bytes.len() < 8 {
        return false;
    }
    u64_at(bytes, 0) == WORD_OF_PADDING
}
