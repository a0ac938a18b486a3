// The orphans that are listed.

ghost use Rattle.std.specs.Prelude.{◌≡◌, List};
ghost use Rattle.std.specs.BTreeMap.{get};
ghost use Rattle.std.specs.Ordering.{nat_cmp};
ghost use Rattle.leaf_map.specs.Kept.{Kept};
ghost use Rattle.leaf_map.specs.Recovered.{without_orphan};
ghost use Rattle.log_replay.specs.Changes.{DropsOrphan, IsHeavier, is_without_links};
ghost use Rattle.log_replay.specs.Standing.{StandsForLeaves};
ghost use Rattle.log_replay.specs.Told.{without_orphans};

use crate::application::drop_inode;
use crate::standing::Standing;
use leaf_map::indexes_follow;

// The listed inodes go that have no links.
pub(crate) fn drop_listed(standing: &mut Standing, listed: &[u32])
    ensures stands { (kept : List Kept) → StandsForLeaves kept standing.old → StandsForLeaves (without_orphans kept listed.now) standing.new }
    ensures weight { IsHeavier 0 standing.old standing.new }
{
    for ino in listed {
        drop_orphan(standing, *ino);
    }
}

// A listed inode goes if it has no links.
fn drop_orphan(standing: &mut Standing, ino: u32)
    ensures stands { (kept : List Kept) → StandsForLeaves kept standing.old → StandsForLeaves (without_orphan kept ino) standing.new }
    ensures weight { IsHeavier 0 standing.old standing.new }
{
    indexes_follow();
    drop_bare(standing, ino);
}

// An inode goes if it is there and has no links.
fn drop_bare(standing: &mut Standing, ino: u32)
    ensures does { DropsOrphan ino standing.old standing.new }
    ensures weight { IsHeavier 0 standing.old standing.new }
{
    if is_bare(standing, ino) {
        drop_inode(standing, ino);
    }
}

// Whether an inode is there and has no links.
fn is_bare(standing: &Standing, ino: u32) -> bool
    ensures { result ≡ is_without_links (get nat_cmp standing.now.inodes ino) }
{
    match standing.inodes.get(&ino) {
        Some(linked) => !*linked,
        None => false,
    }
}
