// Kinds of inodes, as modes and entries say them.

ghost use Rattle.std.specs.Prelude.{◌≡◌, ◌≤◌};
ghost use Rattle.group_nodes.specs.Nodes.{type_bits, type_of_entry, kind_of_bits, kind_of_type, bits_of};

use fs_model::Kind;

// The file type bits of a mode.
pub(crate) fn type_bits(kind: Kind) -> u32
    ensures bits { result ≡ type_bits kind }
    ensures few { result ≤ 49152 }
{
    match kind {
        Kind::File => 0o100000,
        Kind::Dir => 0o040000,
        Kind::Symlink => 0o120000,
        Kind::Block => 0o060000,
        Kind::Char => 0o020000,
        Kind::Fifo => 0o010000,
        Kind::Socket => 0o140000,
    }
}

// The type of an entry.
pub(crate) fn entry_type(kind: Kind) -> u8
    ensures { result ≡ type_of_entry kind }
{
    match kind {
        Kind::File => 0,
        Kind::Dir => 1,
        Kind::Symlink => 2,
        Kind::Block => 3,
        Kind::Char => 4,
        Kind::Fifo => 5,
        Kind::Socket => 6,
    }
}

/// The kind that a mode says.
pub fn kind_of_mode(mode: u32) -> Option<Kind>
    ensures { result ≡ kind_of_bits (bits_of mode) }
{
    kind_of_bits(mode / 0o10000 % 0o20 * 0o10000)
}

fn kind_of_bits(bits: u32) -> Option<Kind>
    ensures { result ≡ kind_of_bits bits }
{
    match bits {
        0o100000 => Some(Kind::File),
        0o040000 => Some(Kind::Dir),
        0o120000 => Some(Kind::Symlink),
        0o060000 => Some(Kind::Block),
        0o020000 => Some(Kind::Char),
        0o010000 => Some(Kind::Fifo),
        0o140000 => Some(Kind::Socket),
        _ => None,
    }
}

/// The kind that an entry's type says.
pub fn kind_of_type(code: u8) -> Option<Kind>
    ensures { result ≡ kind_of_type code }
{
    match code {
        0 => Some(Kind::File),
        1 => Some(Kind::Dir),
        2 => Some(Kind::Symlink),
        3 => Some(Kind::Block),
        4 => Some(Kind::Char),
        5 => Some(Kind::Fifo),
        6 => Some(Kind::Socket),
        _ => None,
    }
}
