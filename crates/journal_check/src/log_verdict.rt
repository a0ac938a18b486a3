// What a check of the log says.

use crate::log_found::LogFound;
use image_check::WrongValue;

/// The rule on the log holds, with what the log says; or it is broken, first here.
#[derive(Debug, Drop)]
pub(crate) enum LogVerdict {
    Sound { log: LogFound },
    Broken { at: WrongValue },
}
