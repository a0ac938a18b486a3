// An event that was made.

ghost use Rattle.std.specs.Prelude.{◌≡◌};

use crate::event::{Event, Outcome};
use fs_model::Backing;
use std::marker::PhantomData;

/// An event that was made on an `Fs` over such a backing, and its outcome. `Fs::act` alone makes one.
#[derive(Drop)]
pub struct Done<B: Backing> {
    pub(crate) event: Event,
    pub(crate) outcome: Outcome,
    pub(crate) of: PhantomData<B>,
}

impl<B: Backing> Done<B> {
    /// The event. Takes no memory.
    pub fn event(&self) -> &Event
        ensures { result.now ≡ self.now.event }
    {
        &self.event
    }

    /// What came of it. Takes no memory.
    pub fn outcome(&self) -> &Outcome
        ensures { result.now ≡ self.now.outcome }
    {
        &self.outcome
    }

    /// What came of it, without the event. Takes no memory.
    pub fn into_outcome(self) -> Outcome
        ensures { result ≡ self.outcome }
    {
        self.outcome
    }
}
