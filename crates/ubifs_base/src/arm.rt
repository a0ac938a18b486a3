// What a volume is armed with.

/// A power cut that falls within the given step, counted from arming (the first is 1). The digits of
/// the pattern in base 4, lowest first, choose what the unit under way and the unmaps that may still
/// be undone leave.
#[derive(Clone, Copy, Debug, PartialEq, Eq)]
pub struct Cut {
    pub step: u64,
    pub pattern: u64,
}

/// What a volume is armed with: a power cut, or one failing call (counted from arming, the first is 1).
#[derive(Clone, Copy, Debug, PartialEq, Eq)]
pub enum Arm {
    Cut { cut: Cut },
    Fail { call: u64 },
}
