// Where a worker waits.

use std::sync::Wait;

/// Where a worker waits between a pick and its put. It holds no lock there.
pub trait Gate {
    /// Lets the worker go on to a put. The `ticket` numbers the worker's puts, from 1.
    fn wait_before_put<R: Wait>(&self, rt: &R, worker: u16, ticket: u64);
}

/// A gate at which nobody waits.
#[derive(Drop)]
pub struct OpenGate {}

impl Gate for OpenGate {
    fn wait_before_put<R: Wait>(&self, _rt: &R, _worker: u16, _ticket: u64) {}
}
