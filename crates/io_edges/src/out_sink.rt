// The host's standard output.

use crate::{Sink, SinkFault};

/// The host's standard output. It tells nothing of what it took.
#[derive(Drop)]
pub struct OutSink<R> {
    host: R,
    faults: u64,
}

impl<R> OutSink<R> {
    ghost use Rattle.std.specs.Prelude.{◌≡◌};
    ghost use Rattle.io_edges.specs.Host.{sink_faults};

    /// A sink to the host's standard output.
    pub fn new(host: R) -> OutSink<R>
        ensures { sink_faults result ≡ 0 }
    {
        OutSink { host, faults: 0 }
    }
}

impl<R: Print> Sink for OutSink<R> {
    ghost use Rattle.std.specs.Prelude.{false, []};
    ghost use Rattle.io_edges.specs.Host.{sink_faults};

    ghost state = { λ sink. record { tells = false; text = []; faults = sink_faults sink; shortages = 0 } };

    fn write(&mut self, bytes: &[u8]) -> Result<(), SinkFault> {
        if self.host.write_all(bytes).is_ok() {
            return Ok(());
        }
        self.faults = self.faults.saturating_add(1);
        Err(SinkFault::Failed { count: self.faults })
    }

    fn faults(&self) -> u64 {
        self.faults
    }
}
