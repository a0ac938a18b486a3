// Text in memory.

use crate::schedule::Schedule;
use crate::{Sink, SinkFault};
use std::alloc::Global;

/// Text in memory, and the numbers of the calls that fail.
#[derive(Drop)]
pub struct MemSink {
    text: Vec<u8>,
    calls: Schedule,
    shortages: u64,
}

impl MemSink {
    ghost use Rattle.std.specs.Prelude.{◌≡◌, []};
    ghost use Rattle.io_edges.specs.MemSink.{text_of, calls_of, shortages_of};

    /// An empty text. Of its calls of `write` those fail whose numbers are in `fails`, where the first call has the
    /// number 1. A call that fails adds nothing.
    pub fn new(alloc: Global, fails: Vec<u64>) -> MemSink
        ensures text { text_of result ≡ [] }
        ensures calls { calls_of result ≡ record { listed = fails.items; made = 0; failed = 0 } }
        ensures shortages { shortages_of result ≡ 0 }
    {
        MemSink {
            text: Vec::new(alloc),
            calls: Schedule::new(fails),
            shortages: 0,
        }
    }

    /// The bytes that were written.
    pub fn text(&self) -> &[u8]
        ensures { result.now ≡ text_of self.now }
    {
        self.text.as_slice()
    }
}

impl Sink for MemSink {
    ghost use Rattle.std.specs.Prelude.{◌≡◌, ◌++◌, true, OnOk, OnErr};
    ghost use Rattle.io_edges.specs.Counts.{TakesCall};
    ghost use Rattle.io_edges.specs.Sink.{IsFailed, IsCounted, IsShort};
    ghost use Rattle.io_edges.specs.MemSink.{text_of, calls_of, shortages_of};

    ghost state = { λ sink. record {
      tells = true;
      text = text_of sink;
      faults = (calls_of sink).failed;
      shortages = shortages_of sink;
    } };

    fn write(&mut self, bytes: &[u8]) -> Result<(), SinkFault>
        ensures added { OnOk result (text_of self.new ≡ text_of self.old ++ bytes.now) }
        ensures nothing { OnErr result (text_of self.new ≡ text_of self.old) }
        ensures counted { IsCounted (calls_of self.old).failed (calls_of self.new).failed result }
        ensures listed { TakesCall (calls_of self.old) (calls_of self.new) (IsFailed result) }
        ensures short { IsShort (shortages_of self.old) (shortages_of self.new) result }
    {
        if let Some(count) = self.calls.next_call() {
            return Err(SinkFault::Failed { count });
        }
        if self.text.extend_from_slice(bytes).is_err() {
            self.shortages = self.shortages.saturating_add(1);
            return Err(SinkFault::Memory);
        }
        Ok(())
    }

    fn faults(&self) -> u64 {
        self.calls.failed()
    }
}
