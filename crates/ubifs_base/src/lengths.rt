// The lengths of nodes.

/// The bytes of a node's header (`struct ubifs_ch` of ubifs-media.h).
pub const HEADER_LEN: u32 = 24;

/// The bytes of an inode node without data of its own (`struct ubifs_ino_node`).
pub const INODE_NODE_LEN: u32 = 160;

/// The bytes of a data node in front of its block (`struct ubifs_data_node`).
pub const DATA_NODE_LEN: u32 = 48;

/// The bytes of an entry node in front of its name, which a zero byte follows (`struct ubifs_dent_node`).
pub const ENTRY_NODE_LEN: u32 = 56;

/// The bytes of a truncation node (`struct ubifs_trun_node`).
pub const TRUNCATION_NODE_LEN: u32 = 56;

/// The bytes of a padding node in front of its gap (`struct ubifs_pad_node`).
pub const PADDING_NODE_LEN: u32 = 28;

/// The bytes of a superblock node (`struct ubifs_sb_node`).
pub const SUPERBLOCK_NODE_LEN: u32 = 4096;

/// The bytes of a master node (`struct ubifs_mst_node`).
pub const MASTER_NODE_LEN: u32 = 512;

/// The bytes of a reference node (`struct ubifs_ref_node`).
pub const REFERENCE_NODE_LEN: u32 = 64;

/// The bytes of an index node in front of its branches (`struct ubifs_idx_node`).
pub const INDEX_NODE_LEN: u32 = 28;

/// The bytes of a branch with a simple key (`struct ubifs_branch`).
pub const BRANCH_LEN: u32 = 20;

/// The bytes of a commit start node (`struct ubifs_cs_node`).
pub const COMMIT_START_NODE_LEN: u32 = 32;

/// The bytes of an orphan node in front of its inode numbers (`struct ubifs_orph_node`).
pub const ORPHAN_NODE_LEN: u32 = 32;

/// The most bytes of a block of a file (`UBIFS_BLOCK_SIZE`), and of what an inode node carries of its own.
pub const BLOCK_SIZE: u32 = 4096;
