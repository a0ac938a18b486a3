//! Tests of texts, of the host's files and output, and of a new file system.
//!
//! They stand above the crates whose public calls they make, since a crate that has tests is proved twice: by itself, and with its tests. They stand below the
//! program, so that they are proved beside it and not behind it.
#![tactic(auto)]

#[cfg(test)]
mod io_edges_tests;
#[cfg(test)]
mod script_text_tests;
#[cfg(test)]
mod volume_format_tests;
