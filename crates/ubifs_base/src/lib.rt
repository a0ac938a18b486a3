//! What a byte on the flash means, for all crates above: geometry, checksums, keys, frames and names.
//!
//! Each answer is a function of the bytes or numbers that are handed in, and `specs/` says which, as
//! the public format does. Checksums are defined bit by bit and computed by tables; a key and a
//! header are written as their bytes and read as exactly what those bytes say. A `Geometry` carries
//! the fact that its fields are in range, so that whoever holds one can rely on it.
#![tactic(auto)]

mod arm;
mod bytes;
mod crc;
mod crc_16;
mod gap;
mod geometry;
mod header;
mod journal_head;
mod key;
mod lengths;
mod memory;
mod name;
mod name_hash;
mod node_type;
mod properties;
mod ranges;
mod raw_geometry;
mod table_16;
mod tables_high;
mod tables_low;

pub use crate::arm::{Arm, Cut};
pub use crate::bytes::Bytes;
pub use crate::crc::crc32;
pub use crate::crc_16::crc16;
pub use crate::gap::fill_gap;
pub use crate::geometry::Geometry;
pub use crate::header::{FrameFault, Head, MAGIC, frame, unframe};
pub use crate::journal_head::JournalHead;
pub use crate::key::{Key, key_bytes, read_key};
pub use crate::lengths::{
    BLOCK_SIZE, BRANCH_LEN, COMMIT_START_NODE_LEN, DATA_NODE_LEN, ENTRY_NODE_LEN, HEADER_LEN,
    INDEX_NODE_LEN, INODE_NODE_LEN, MASTER_NODE_LEN, ORPHAN_NODE_LEN, PADDING_NODE_LEN,
    REFERENCE_NODE_LEN, SUPERBLOCK_NODE_LEN, TRUNCATION_NODE_LEN,
};
pub use crate::memory::Memory;
pub use crate::name::Name;
pub use crate::name_hash::r5;
pub use crate::node_type::NodeType;
pub use crate::raw_geometry::{GeomFault, GeomField, RawGeometry};
