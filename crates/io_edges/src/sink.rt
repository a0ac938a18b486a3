// Where text goes.

ghost use Rattle.std.specs.Prelude.{◌≡◌, ◌++◌, IsTrue, OnOk, OnErr, IsErrOf};
ghost use Rattle.io_edges.specs.Sink.{SinkState, AddsPrefix, IsCounted, IsShort};

use thiserror::Error;

/// Why a [`Sink`] didn't take a piece.
#[derive(Clone, Copy, Debug, PartialEq, Eq, Error)]
pub enum SinkFault {
    /// The sink failed, and took a first part of the piece. `count` is its count of faults at the end of the call.
    #[error("the output failed, with {count} faults so far")]
    Failed { count: u64 },
    /// The sink took nothing.
    #[error("out of memory")]
    Memory,
}

/// Takes text, piece by piece.
pub trait Sink {
    /// What there is to say of the sink now.
    ghost state: { Self → SinkState };

    /// Adds the bytes behind those that were written before.
    fn write(&mut self, bytes: &[u8]) -> Result<(), SinkFault>
        ensures added { OnOk result (IsTrue (state self.old).tells → (state self.new).text ≡ (state self.old).text ++ bytes.now) }
        ensures prefix { OnErr result (IsTrue (state self.old).tells → AddsPrefix (state self.old).text bytes.now (state self.new).text) }
        ensures nothing { IsErrOf result SinkFault.Memory → (state self.new).text ≡ (state self.old).text }
        ensures telling { (state self.new).tells ≡ (state self.old).tells }
        ensures counted { IsCounted (state self.old).faults (state self.new).faults result }
        ensures short { IsShort (state self.old).shortages (state self.new).shortages result };

    /// How many calls have failed.
    fn faults(&self) -> u64
        ensures { result ≡ (state self.now).faults };
}
