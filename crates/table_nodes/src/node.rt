// A node of the table.

use crate::link::Link;
use crate::seen::MediumSeen;
use told_value::Told;
use ubifs_base::Key;

/// Where a node stands on the medium: the LEB, and the offset and the length in bytes.
#[derive(Clone, Copy, Debug, PartialEq, Eq)]
pub struct NodePlace {
    pub lnum: u32,
    pub offs: u32,
    pub len: u32,
}

/// A node: how far it stands above the lowest level, where it stands on the medium (none: it is dirty), and its
/// children from left to right (`struct ubifs_znode` of Linux). One that isn't loaded has a place and no links: it tells
/// what the LEBs held when it was met, so contracts see what is below it.
#[derive(Drop)]
pub struct TableNode {
    pub level: u16,
    pub place: Option<NodePlace>,
    pub links: Vec<Link>,
    pub beyond: Option<Told<MediumSeen>>,
}

/// The topmost node of an index, by its number. No branch of a parent gives it a key: whoever reads an index takes that of
/// its first branch.
#[derive(Clone, Copy, Debug, PartialEq, Eq)]
pub struct Root {
    pub key: Key,
    pub number: u64,
}
