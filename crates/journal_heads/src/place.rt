// A place in a LEB.

/// Where a byte stands: in which LEB, and behind how many bytes of it.
#[derive(Clone, Copy, Debug, PartialEq, Eq)]
pub struct Place {
    pub lnum: u32,
    pub offs: u32,
}
