// What a check answers.

ghost use Rattle.std.specs.Prelude.{◌≡◌};
ghost use Rattle.image_check.specs.Told.{told_answer, told_fault};

use crate::fault::CheckFault;
use sound_image::Breach;
use ubi_volume::AreaFault;

// What was read, or the breach that was found, as a check answers it.
pub(crate) fn told<T>(answer: Result<Result<T, Breach>, AreaFault>) -> Result<T, CheckFault>
    ensures { result ≡ told_answer answer }
{
    match answer {
        Ok(found) => match found {
            Ok(read) => Ok(read),
            Err(breach) => Err(CheckFault::Unsound { breach }),
        },
        Err(fault) => Err(fault_told(fault)),
    }
}

// A fault of a call over a volume.
fn fault_told(fault: AreaFault) -> CheckFault
    ensures { result ≡ told_fault fault }
{
    match fault {
        AreaFault::Memory => CheckFault::Memory,
        AreaFault::Volume { count } => CheckFault::Volume { count },
    }
}
