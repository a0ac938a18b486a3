// Fields of any width in bytes.

ghost use Rattle.std.specs.Prelude.{◌≡◌, ◌+◌, ◌*◌, ◌/◌, ◌%◌, ◌^◌, ◌<◌, ◌≤◌, ◌∷◌, [], length, drop};
ghost use Rattle.media_lpt.specs.Packed.{field, bytes_number, IsPut, IsFree};

use byteorder::{ByteOrder, LittleEndian};

/// The number in so many bits from this bit on.
pub(crate) fn get(bytes: &[u8], bit: usize, width: u32) -> u32
    requires width { width ≤ 32 }
    requires room { bit + width ≤ 8 * length bytes.now }
    ensures number { result ≡ bytes_number bytes.now / 2 ^ bit % 2 ^ width }
    ensures small { result < 2 ^ width }
{
    if width == 0 {
        return 0;
    }
    low_bits(bytes.split_at(bit / 8).1, (bit % 8) as u32, width)
}

fn low_bits(bytes: &[u8], bit: u32, width: u32) -> u32
    requires bit { bit < 8 }
    requires some { 0 < width }
    requires most { width ≤ 32 }
    requires room { bit + width ≤ 8 * length bytes.now }
    ensures { result ≡ bytes_number bytes.now / 2 ^ bit % 2 ^ width }
{
    let count = (bit + width).div_ceil(8) as usize;
    let word = LittleEndian::read_uint(bytes, count);
    ((word >> bit) % (1 << width)) as u32
}

/// Puts a number into so many bits from this bit on, behind which nothing stands yet.
pub(crate) fn put(out: &mut [u8], bit: usize, width: u32, value: u32)
    requires width { width ≤ 32 }
    requires fits { value < 2 ^ width }
    requires room { bit + width ≤ 8 * length out.old }
    requires free { IsFree out.old bit }
    ensures put { IsPut out.old bit (field width value ∷ []) out.new }
    ensures free { IsFree out.new (bit + width) }
{
    if width == 0 {
        return;
    }
    add_above(out.split_at_mut(bit / 8).1, (bit % 8) as u32, width, value);
}

fn add_above(out: &mut [u8], bit: u32, width: u32, value: u32)
    requires bit { bit < 8 }
    requires some { 0 < width }
    requires most { width ≤ 32 }
    requires fits { value < 2 ^ width }
    requires room { bit + width ≤ 8 * length out.old }
    requires free { bytes_number out.old < 2 ^ bit }
    ensures { bytes_number out.new ≡ bytes_number out.old + 2 ^ bit * value }
{
    let count = (bit + width).div_ceil(8) as usize;
    let word = LittleEndian::read_uint(out, count);
    LittleEndian::write_uint(out, word + ((value as u64) << bit), count);
}
