// What breaks a rule.

use crate::rule::Rule;
use media_sys::{Feature, SuperField};

/// What is wrong with an image first: a field of the superblock, or that it has no intact superblock node; a feature that
/// isn't known here, with the LEB and the offset of the node that needs it; that it has no master; or a rule that is broken,
/// with the LEB and the offset at which it is, the value that it wants there and the one that was found.
#[derive(Clone, Copy, Debug, PartialEq, Eq)]
pub enum Breach {
    Super {
        field: SuperField,
    },
    Feature {
        what: Feature,
        lnum: u32,
        offs: u32,
    },
    NoMaster,
    Damaged {
        rule: Rule,
        lnum: u32,
        offs: u32,
        wanted: u64,
        found: u64,
    },
}
