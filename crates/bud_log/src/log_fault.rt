// Why a bud wasn't opened.

ghost use Rattle.std.specs.Prelude.{◌≡◌};

use thiserror::Error;
use ubi_volume::VolFault;

/// Why a bud wasn't opened: the ring has no unit left for its reference, with the LEBs in use and how many may be, or the
/// volume failed, with its count of faults at the end of the call.
#[derive(Clone, Copy, Debug, PartialEq, Eq, Error)]
pub enum LogFault {
    #[error("the log is full: {used} of {limit} LEBs are in use")]
    Full { used: u32, limit: u32 },
    #[error("the volume failed, with {count} faults so far")]
    Volume { count: u64 },
}

impl From<VolFault> for LogFault {
    ghost use Rattle.std.specs.Prelude.{◌≡◌};
    ghost use Rattle.bud_log.specs.declared.log_fault.LogFault.TheVariants.{Volume};
    ghost use Rattle.ubi_volume.specs.Faults.{count_of};

    ghost from_gives = { λ fault e. e ≡ Volume (count_of fault) };

    fn from(fault: VolFault) -> LogFault {
        let VolFault::Failed { count } = fault;
        LogFault::Volume { count }
    }
}
