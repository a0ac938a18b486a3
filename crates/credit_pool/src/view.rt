// What the owners of the seats and the master know of the credits. No value of these types is made.

use std::collections::LinkedList;

/// What the owner of a seat knows.
pub struct SeatView {
    pub caller: u16,
    pub held: u64,
    /// The room that its last load or exchange found.
    pub found: u64,
    /// How many loads and exchanges it has made.
    pub count: u64,
    /// The master has taken its credits, and the seat is gone.
    pub spent: bool,
}

/// What the owner of the master knows.
pub struct MasterView {
    pub issued: u64,
    pub held: u64,
    /// The callers whose seat is out.
    pub out: LinkedList<u16>,
    /// The caller who gets the next seat.
    pub next: u16,
}

/// What one of them knows.
pub enum View {
    Master(MasterView),
    Seat(SeatView),
}
