// A master and where it stands.

use media_sys::Master;

/// A master node, its place in bytes in a LEB, and its sequence number.
#[derive(Clone, Copy, Debug, PartialEq, Eq)]
pub struct PlacedMaster {
    pub lnum: u32,
    pub offs: u32,
    pub sqnum: u64,
    pub master: Master,
}
