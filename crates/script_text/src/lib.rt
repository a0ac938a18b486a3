//! What do the lines of a manifest and of a script say, and how is a reply written as a line?
//!
//! Texts are lines of words, with one space between them. A reader answers the parts that the text spells, or the
//! number of the first line that isn't in the grammar, and never both: `specs/Script.antt` and `specs/Manifest.antt` say
//! which texts are spelled how, and the laws of this crate say that each text has one answer. A part can have several
//! lines, since a mode may begin with zeros and a byte of a path may be escaped, so a line of a part is a relation. The
//! idea is that a newline ends a line and a space ends a word, and no word has a blank in it, so that a text can be cut in
//! one way only. The reader keeps that the text is lines of the parts so far and then the rest, and whether a volume is
//! mounted behind them.
#![tactic(auto)]

mod arguments;
mod cut;
mod fault;
mod law;
mod listed;
mod listing;
mod manifest;
mod manifest_line;
mod number;
mod operations;
mod part;
mod reply;
mod run;
mod script;
mod verb;
mod words;

pub use crate::fault::TextFault;
pub use crate::law::{
    manifest_has_no_bad_line, manifest_lines_are_given, one_bad_line, one_bad_manifest_line,
    one_listing, one_manifest, one_script, parts_are_in_range, script_has_no_bad_line,
};
pub use crate::listed::{ListedManifest, list_manifest};
pub use crate::manifest::{Manifest, read_manifest};
pub use crate::manifest_line::ManifestLine;
pub use crate::part::Part;
pub use crate::reply::{write_mount_for_reading, write_reply};
pub use crate::script::{Script, read_script};
