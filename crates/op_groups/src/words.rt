// Words of an operation that are refused whatever the files are.

ghost use Rattle.std.specs.Prelude.{◌≡◌, ◌+◌, nat_lt};
ghost use Rattle.fs_model.specs.Handles.{is_bad_slot, size_limit};
ghost use Rattle.fs_model.specs.Making.{is_bad_mode, is_bad_target};

use ubifs_base::Name;

/// The greatest size of a file, in bytes.
const SIZE_LIMIT: u64 = 1 << 41;

/// Whether a mode has more than permission bits (chmod(2)).
pub fn is_bad_mode(mode: u32) -> bool
    ensures { result ≡ is_bad_mode mode }
{
    mode > 0o7777
}

/// Whether a slot is none of a caller's 16.
pub fn is_bad_slot(slot: u8) -> bool
    ensures { result ≡ is_bad_slot slot }
{
    slot > 15
}

/// Whether no symbolic link can have this target: an empty one, or one of more than 4,095 bytes (symlink(2)).
pub fn is_bad_target(target: &Name) -> bool
    ensures { result ≡ is_bad_target target.now }
{
    target.is_empty() || target.len() > 4095
}

/// Whether a read or a write is of more than 65,536 bytes.
pub fn is_bad_len(len: u32) -> bool
    ensures { result ≡ nat_lt 65536 len }
{
    len > 65_536
}

/// Whether no file can have this size, in bytes.
pub fn is_too_big(size: u64) -> bool
    ensures { result ≡ nat_lt size_limit size }
{
    size > SIZE_LIMIT
}

/// Whether so many bytes from a place on end where no file can.
pub fn ends_too_far(offs: u64, len: u32) -> bool
    ensures { result ≡ nat_lt size_limit (offs + len) }
{
    is_too_big(offs.saturating_add(len as u64))
}
