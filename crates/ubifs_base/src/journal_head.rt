// Which heads the journal has.

/// A head of the journal (`GCHD`, `BASEHD` and `DATAHD` of ubifs-media.h): the collector's takes what it moves, the base
/// takes the nodes other than data, and the third takes data.
#[derive(Clone, Copy, Debug, PartialEq, Eq)]
pub enum JournalHead {
    Collector,
    Base,
    Data,
}

impl JournalHead {
    ghost use Rattle.std.specs.Prelude.{◌≡◌};
    ghost use Rattle.ubifs_base.specs.JournalHead.{head_number, head_numbered};

    /// The number that a reference has.
    pub fn number(self) -> u8
        ensures { result ≡ head_number self }
    {
        match self {
            JournalHead::Collector => 0,
            JournalHead::Base => 1,
            JournalHead::Data => 2,
        }
    }

    /// The head of this number; none from 3 on.
    pub fn of(number: u32) -> Option<JournalHead>
        ensures { result ≡ head_numbered number }
    {
        match number {
            0 => Some(JournalHead::Collector),
            1 => Some(JournalHead::Base),
            2 => Some(JournalHead::Data),
            _ => None,
        }
    }
}
