// Inodes without a name go.

ghost use Rattle.std.specs.Prelude.{◌≡◌, ◌+◌, ◌≤◌, IsTrue, OnOk, OnErr, length};
ghost use Rattle.fs_model.specs.declared.change.Change.TheVariants.{DropInode};
ghost use Rattle.fs_model.specs.Backing.{Goes, HasCause, IsNotReadOnly, KeepsFiles, next_orphans};
ghost use Rattle.fs_model.specs.Change.{without_inode};
ghost use Rattle.fs_model.specs.Orphan.{is_nameless};
ghost use Rattle.fs_model.specs.Proper.{IsProper};
ghost use Rattle.buffered_files.specs.Calls.{GrowsBy, SureGoes};
ghost use Rattle.buffered_files.specs.Follow.{follow};
ghost use Rattle.buffered_files.specs.Present.{IsKept, present};

use crate::kept::Kept;
use fs_laws::trees_built_alike_are_proper;
use fs_model::{Backing, StoreFault};

/// Removes an inode without a name from the backing, with its blocks, and from what is kept: its dirty pages go along, whose
/// credits are given back. It is for one that nobody opens any more. After a fault all is as it was.
pub fn drop_orphan<B: Backing>(backing: &mut B, kept: &mut Kept, ino: u32) -> Result<(), StoreFault>
    requires kept { IsKept (B.state backing.old).tree kept.old }
    requires paid { length kept.old.pages.dirty ≤ (B.state backing.old).space.credits }
    requires nameless { IsTrue (is_nameless (present (B.state backing.old).tree kept.old).tree ino) }
    requires proper { IsProper (without_inode (present (B.state backing.old).tree kept.old).tree ino) }
    ensures kept { IsKept (B.state backing.new).tree kept.new }
    ensures paid { length kept.new.pages.dirty ≤ (B.state backing.new).space.credits }
    ensures ok { OnOk result (present (B.state backing.new).tree kept.new ≡ record (present (B.state backing.old).tree kept.old) { tree = without_inode (present (B.state backing.old).tree kept.old).tree ino }) }
    ensures issued { (B.state backing.new).space.credits + length kept.old.pages.dirty ≡ (B.state backing.old).space.credits + length kept.new.pages.dirty }
    ensures same { OnErr result (kept.new ≡ kept.old) }
    ensures files { OnErr result (KeepsFiles (B.state backing.old) (B.state backing.new)) }
    ensures journal { (B.state backing.new).journal ≡ (B.state backing.old).journal }
    ensures goes { Goes 0 (B.state backing.old) (B.state backing.new) }
    ensures grows { GrowsBy 0 (B.state backing.old) (B.state backing.new) kept.old kept.new }
    ensures orphans { next_orphans (B.state backing.new) ≤ next_orphans (B.state backing.old) }
    ensures cause { HasCause (B.state backing.old) (B.state backing.new) result }
    ensures mode { IsNotReadOnly result }
    ensures sure { SureGoes (B.outlook backing.old) (B.outlook backing.new) (B.state backing.old) (B.state backing.new) }
{
    trees_built_alike_are_proper();
    backing.drop_orphan(ino)?;
    let gone = let_go(kept, ino);
    backing.give_back(gone);
    Ok(())
}

// Lets go of an inode and its pages, and answers how many of these were dirty. Takes no memory.
fn let_go(kept: &mut Kept, ino: u32) -> u64
    ensures kept { kept.new ≡ follow kept.old (DropInode ino) }
    ensures gone { result + length kept.new.pages.dirty ≡ length kept.old.pages.dirty }
{
    let before = kept.pages.dirty();
    kept.inodes.remove(ino);
    kept.pages.cut(ino, 0);
    before - kept.pages.dirty()
}
