// What a power cut leaves of a backing in memory, by callers that are proved over any backing.

ghost use Rattle.std.specs.Prelude.{◌≡◌, ◌∷◌, [], true, IfOk};
ghost use Rattle.fs_model.specs.Backing.{IsModest, FitsGroup, FitsOrphans};
ghost use Rattle.fs_model.specs.Change.{apply};
ghost use Rattle.fs_model.specs.Files.{Tree};
ghost use Rattle.fs_model.specs.Journal.{Leaves, IfTold, MayLeave, base_head};
ghost use Rattle.fs_model.specs.Orphan.{without_nameless};
ghost use Rattle.fs_model.specs.Proper.{IsProper};
ghost use Rattle.fs_model.specs.Worked.{fresh};
ghost use Rattle.fs_model.specs.declared.space.Class.TheVariants.{Ordinary};
ghost use Rattle.operation_tests.specs.Sample.{sample_group};
ghost use Rattle.plain_backing.specs.PlainBacking.{backing_state_of};

use crate::vfs_ops_fs_tests::file_group;
use crate::vfs_ops_tests::fresh_backing;
use fs_model::{Backing, Class, Group, Need, StoreFault, a_cut_keeps_what_was_synced};
use plain_backing::PlainBacking;
use std::alloc::Global;
use ubifs_base::Memory;

// Admits a group, puts it and syncs, and answers whether there was room. Then a cut leaves the tree with the group, but for
// what has no name.
fn put_and_sync<B: Backing>(backing: &mut B, need: &Need, group: &Group) -> Result<bool, StoreFault>
    requires modest { IsModest need.now }
    requires proper { IsProper (B.state backing.old).tree }
    requires group { FitsGroup (B.state backing.old).tree (record { bytes = need.now.bytes; nodes = need.now.nodes }) group.now }
    requires orphans { FitsOrphans (B.state backing.old).tree (B.state backing.old).closed (B.state backing.old).orphan_limit group.now }
    ensures left { IfOk result (λ put. put ≡ true → (tree : Tree) → MayLeave (B.state backing.new).journal tree → tree ≡ without_nameless (apply (B.state backing.old).tree group.now)) }
{
    a_cut_keeps_what_was_synced();
    if let Err(_) = backing.admit(need) {
        return Ok(false);
    }
    backing.put_group(group)?;
    backing.sync()?;
    Ok(true)
}

// Admits a group and puts it while a commit runs, and answers whether there was room. A cut may leave what it might have
// left before, with the group put on that.
fn put_in_a_commit<B: Backing>(
    backing: &mut B,
    need: &Need,
    group: &Group,
) -> Result<bool, StoreFault>
    requires modest { IsModest need.now }
    requires proper { IsProper (B.state backing.old).tree }
    requires group { FitsGroup (B.state backing.old).tree (record { bytes = need.now.bytes; nodes = need.now.nodes }) group.now }
    requires orphans { FitsOrphans (B.state backing.old).tree (B.state backing.old).closed (B.state backing.old).orphan_limit group.now }
    ensures cut { IfOk result (λ put. put ≡ true → Leaves (B.state backing.old).journal (B.state backing.new).journal ((base_head, group.now) ∷ [])) }
{
    if let Err(_) = backing.admit(need) {
        return Ok(false);
    }
    backing.commit_start()?;
    backing.put_group(group)?;
    backing.commit_step()?;
    backing.commit_end()?;
    Ok(true)
}

// Does nothing: a cut now may leave the tree, where the journal is told.
fn show_cut<B: Backing>(backing: &B)
    ensures { IfTold (B.state backing.now).journal (λ medium. MayLeave (B.state backing.now).journal (without_nameless (B.state backing.now).tree)) }
{
    let _ = backing.faults();
}

// Makes a file on a fresh volume and syncs all, and answers whether there was room. A cut then leaves the file, and may leave it.
fn file_synced(alloc: Global, backing: &mut PlainBacking) -> Result<bool, Memory>
    requires fresh { (backing_state_of backing.old).tree ≡ fresh.tree }
    ensures left { IfOk result (λ put. put ≡ true → (tree : Tree) → MayLeave (backing_state_of backing.new).journal tree → tree ≡ without_nameless (apply fresh.tree sample_group)) }
    ensures may { IfOk result (λ put. put ≡ true → MayLeave (backing_state_of backing.new).journal (without_nameless (backing_state_of backing.new).tree)) }
{
    let group = file_group(alloc)?;
    match put_and_sync(backing, &file_need(), &group) {
        Ok(true) => {
            show_cut(backing);
            Ok(true)
        }
        _ => return Ok(false),
    }
}

pub(crate) fn is_synced(alloc: Global) -> Result<bool, Memory> {
    let mut backing = fresh_backing(alloc, 1)?;
    file_synced(alloc, &mut backing)
}

// Makes a file on a fresh volume while a commit runs.
fn file_in_a_commit(alloc: Global, backing: &mut PlainBacking) -> Result<bool, Memory>
    requires fresh { (backing_state_of backing.old).tree ≡ fresh.tree }
{
    let group = file_group(alloc)?;
    Ok(put_in_a_commit(backing, &file_need(), &group) == Ok(true))
}

pub(crate) fn is_made_in_a_commit(alloc: Global) -> Result<bool, Memory> {
    let mut backing = fresh_backing(alloc, 1)?;
    file_in_a_commit(alloc, &mut backing)
}

// What the file's group asks for.
fn file_need() -> Need
    ensures { result ≡ record { credits = 0; bytes = 384; nodes = 3; class = Ordinary } }
{
    Need {
        credits: 0,
        bytes: 384,
        nodes: 3,
        class: Class::Ordinary,
    }
}
