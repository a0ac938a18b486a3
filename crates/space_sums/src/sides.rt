// The two sides of the admission test.

/// The two sides of the admission test, in bytes: a store has room where `need` is at most `limit`.
#[derive(Clone, Copy, Debug, PartialEq, Eq)]
pub struct Room {
    pub need: u64,
    pub limit: u64,
}
