// Bytes behind which all are erased.

ghost use Rattle.std.specs.Prelude.{◌≡◌, ◌↔◌, IsTrue, length, take, drop};
ghost use Rattle.ubi_volume.specs.Loading.{IsErased};
ghost use Rattle.ubi_volume.specs.Volume.{filled};

// The bytes from a place on: none behind their end.
pub(crate) fn bytes_from(bytes: &[u8], place: usize) -> &[u8]
    ensures { result.now ≡ drop place bytes.now }
{
    bytes.split_at(place.min(bytes.len())).1
}

// Fills the buffer with the first of the bytes, and with erased ones behind their end.
pub(crate) fn fill_from(out: &mut [u8], bytes: &[u8])
    ensures { out.new ≡ filled (length out.old) (take (length out.old) bytes.now) }
{
    let len = out.len().min(bytes.len());
    let (front, back) = out.split_at_mut(len);
    front.copy_from_slice(bytes.split_at(len).0);
    back.fill(0xff);
}

// Whether all bytes from a place on are erased.
pub(crate) fn is_erased(bytes: &[u8], place: usize) -> bool
    ensures { IsTrue result ↔ IsErased place bytes.now }
{
    bytes_from(bytes, place).iter().all(|byte| *byte == 0xff)
}
