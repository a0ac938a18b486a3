//! Properties nodes: what the tree of LEB properties, its own table and the save table say, packed bit by bit.
//!
//! A node is a list of fields, each a number of so many bits, and the bytes are one number, the first byte lowest: the
//! checksum of all that follows it, the type, then the fields, each above the one before. So the grammar of all four
//! nodes is one sentence over fields, a pair of functions puts a field into bytes and reads one from them, and each node
//! says only which fields it has. Of encoding the invariant is that the bytes are the number of the fields put so far,
//! with nothing above it.
#![tactic(auto)]

mod frame;
mod laws;
mod leb_kind;
mod lprop;
mod lsave;
mod ltab;
mod nnode;
mod packing;
mod pnode;
mod widths;

pub use crate::laws::{big_model_lengths, one_node, one_spelling};
pub use crate::leb_kind::LebKind;
pub use crate::lprop::Lprop;
pub use crate::lsave::Lsave;
pub use crate::ltab::{LptRow, Ltab};
pub use crate::nnode::{LptPlace, Nnode};
pub use crate::pnode::Pnode;
