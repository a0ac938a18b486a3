// Faults, told as refusals.

ghost use Rattle.std.specs.Prelude.{◌≡◌, Ok, IfOk, IfErr};
ghost use Rattle.fs_model.specs.declared.refusal.Refusal.TheVariants.{Enomem};
ghost use Rattle.buffered_files.specs.Calls.{refusal_of};
ghost use Rattle.fs_model.specs.declared.backing_answers.StoreFault.{StoreFault as AnyFault};
ghost use Rattle.std.specs.Prelude.{Err};

use fs_model::{Refusal, StoreFault};
use ubifs_base::Memory;

/// What was found, or that memory ran out.
pub(crate) fn or_memory<T>(found: Result<T, Memory>) -> Result<T, Refusal>
    ensures ok { IfOk result (λ x. found ≡ Ok x) }
    ensures err { IfErr result (λ refusal. refusal ≡ Enomem) }
{
    match found {
        Ok(found) => Ok(found),
        Err(_) => Err(Refusal::Enomem),
    }
}

/// What was found, or the backing's fault, told as a refusal.
pub fn or_fault<T>(found: Result<T, StoreFault>) -> Result<T, Refusal>
    ensures ok { IfOk result (λ x. found ≡ Ok x) }
    ensures err { IfErr result (λ refusal. (fault : AnyFault) × (found ≡ Err fault) × (refusal ≡ refusal_of fault)) }
{
    match found {
        Ok(found) => Ok(found),
        Err(fault) => Err(Refusal::from(fault)),
    }
}
