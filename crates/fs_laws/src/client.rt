// A client of a backing, proved from the laws and the trait alone.

ghost use Rattle.std.specs.Prelude.{◌≡◌, IfOk, if◌then◌else◌};
ghost use Rattle.fs_model.specs.Backing.{FitsOrphans};
ghost use Rattle.fs_model.specs.Change.{apply};
ghost use Rattle.fs_model.specs.Proper.{IsProper};
ghost use Rattle.fs_laws.specs.Asked.{IsAsked};

use crate::law::{an_operation_asks_for_little, an_operation_fits_its_grant};
use fs_model::{Backing, Group, Need, StoreFault};

/// Admits the group of an operation and puts it, and answers whether there was room.
pub fn put_operation<B: Backing>(
    backing: &mut B,
    need: &Need,
    group: &Group,
) -> Result<bool, StoreFault>
    requires asked { IsAsked (B.state backing.old).tree need.now group.now }
    requires orphans { FitsOrphans (B.state backing.old).tree (B.state backing.old).closed (B.state backing.old).orphan_limit group.now }
    ensures ok { IfOk result (λ put. (B.state backing.new).tree ≡ (if put then apply (B.state backing.old).tree group.now else (B.state backing.old).tree)) }
    ensures proper { IsProper (B.state backing.new).tree }
{
    an_operation_asks_for_little();
    an_operation_fits_its_grant();
    if let Err(_) = backing.admit(need) {
        return Ok(false);
    }
    backing.put_group(group)?;
    Ok(true)
}
