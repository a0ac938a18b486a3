//! Which tree of files does a manifest make?
//!
//! A line of a manifest makes a directory, a file, a symbolic link or a further name, in the tree that the lines before it
//! made; the first begins on the root alone. `specs/ManifestTree.antt` says what each makes, by the groups of changes that
//! the operations of that kind put, and when a line isn't in the grammar because of what stands there. The idea: each line
//! is a group or a few, which `Tree::apply` makes wholly or not at all, so no line costs more than its own names and bytes.
//! A file that is copied is empty at first, so no file need be read to find the first bad line; its bytes come at the end.
#![tactic(auto)]

mod copied;
mod file_bytes;
mod filling;
mod links;
mod made;
mod making;
mod places;
mod read;
mod walks;

pub use crate::copied::CopiedFile;
pub use crate::file_bytes::fill_copied;
pub use crate::made::make_lines;
pub use crate::read::{
    MadeManifest, NamedManifest, one_named_manifest, one_tree_manifest, read_names, read_tree,
};
