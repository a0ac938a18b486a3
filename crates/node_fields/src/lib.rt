//! Which bytes are a list of fields, and which a node of a family.
//!
//! What follows a node's header is a list of fields with a tail of bytes behind it: numbers, lowest
//! byte first, and gaps that nobody looks at. `specs/Fields.antt` says which bytes spell such a list,
//! and `specs/Form.antt` what a family of nodes is and which bytes are a node of it. A node is written
//! from its last field to its first, so that what stands behind a field is already as it stays; it is
//! read field by field. That a family's bytes are at most one node, and that what is written is read,
//! is proved here once, from a reader of each kind's bodies.
#![tactic(auto)]

mod fields;
mod opening;

pub use crate::fields::{
    put_bytes, put_key, put_last, put_name, put_u8, put_u16, put_u32, put_u64, u16_at, u32_at,
    u64_at,
};
pub use crate::opening::opened_node;
