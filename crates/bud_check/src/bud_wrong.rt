// What is wrong in a bud.

use media_sys::Feature;

/// What is wrong at a place: a feature that isn't known here is needed, or a node of the type with this number may not stand there.
#[derive(Clone, Copy, Debug, PartialEq, Eq)]
pub(crate) enum BudMisfit {
    Needs { what: Feature },
    Unwanted { kind: u8 },
}

/// The LEB, the offset in bytes, and what is wrong there.
#[derive(Clone, Copy, Debug, PartialEq, Eq)]
pub(crate) struct BudWrong {
    pub lnum: u32,
    pub offs: u32,
    pub misfit: BudMisfit,
}
