// Why no sound image was told.

use sound_image::Breach;
use thiserror::Error;

/// Why a check didn't answer that a rule is met: there was no memory, the volume failed, with its count of faults at the end of
/// the call, or the contents break the rule. The breach is the first of that rule.
#[derive(Clone, Copy, Debug, PartialEq, Eq, Error)]
pub enum CheckFault {
    #[error("out of memory")]
    Memory,
    #[error("the volume failed, with {count} faults so far")]
    Volume { count: u64 },
    #[error("no sound image")]
    Unsound { breach: Breach },
}
