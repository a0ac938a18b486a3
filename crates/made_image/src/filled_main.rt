// What was laid into the main LEBs.

use media_sys::Branch;

/// What was laid into the main LEBs, from the first one on: the bytes that leaves take of each LEB, those that index nodes take of each LEB
/// behind, the branch to the root of the index, and the highest inode number that was ever used.
#[derive(Debug, Drop)]
pub struct FilledMain {
    pub leaves: Vec<u32>,
    pub index: Vec<u32>,
    pub root: Branch,
    pub highest: u32,
}
