// Whether an image of a tree can be made.

ghost use Rattle.std.specs.Prelude.{◌≡◌, ◌*◌, ◌-◌, IsTrue, [], OnOk, OnErr, IfErr};
ghost use Rattle.std.specs.List.{list_all};
ghost use Rattle.ubifs_base.specs.Areas.{main_lebs};
ghost use Rattle.ubifs_base.specs.Geometry.{leb_reserve};
ghost use Rattle.ubifs_base.specs.RawOf.{raw_of};
ghost use Rattle.fs_model.specs.Orphan.{nameless};
ghost use Rattle.laid_tree.specs.Standing.{is_plain};
ghost use Rattle.whole_image.specs.Made.{CanBeLaid, IsNotPlain, IsPlainTree, IsImageRefused, most_leaf_bytes};

use crate::make_fault::MakeFault;
use plain_backing::Tree;
use ubifs_base::Geometry;

// Tests the tree and the room of its leaves.
pub(crate) fn test_tree(geometry: &Geometry, tree: &Tree) -> Result<(), MakeFault>
    ensures ok { OnOk result (CanBeLaid (raw_of geometry.now) tree.now) }
    ensures err { IfErr result (IsImageRefused (raw_of geometry.now) tree.now) }
{
    test_inodes(tree)?;
    let need = tree.bytes();
    let room = most_bytes(geometry);
    if need > room {
        return Err(MakeFault::Full { need, room });
    }
    Ok(())
}

// Tests the tree: numbers up to 64 are reserved, each inode has a name, and none is an attribute's.
pub(crate) fn test_inodes(tree: &Tree) -> Result<(), MakeFault>
    ensures ok { OnOk result (IsPlainTree tree.now) }
    ensures err { IfErr result (IsNotPlain tree.now) }
{
    let highest = tree.highest();
    if highest < 64 {
        return Err(MakeFault::Unreserved { highest });
    }
    let count = tree.orphans();
    if count > 0 {
        return Err(MakeFault::Nameless { count });
    }
    if !are_plain(tree) {
        return Err(MakeFault::Attribute);
    }
    Ok(())
}

// Whether no inode's flags say that it is an attribute's.
fn are_plain(tree: &Tree) -> bool
    ensures { result ≡ list_all is_plain tree.now.inodes }
{
    let mut rest = tree.inodes();
    'looking: while let Some((_ino, inode)) = rest.next() {
        if inode.flags & 0x20 != 0 {
            return false;
        }
    }
    true
}

// The bytes of main LEBs that are for leaves: of all LEBs but six, what is behind a reserve.
fn most_bytes(geometry: &Geometry) -> u64
    ensures { result ≡ most_leaf_bytes (raw_of geometry.now) }
{
    let lebs = (geometry.main_lebs() as u64).saturating_sub(6);
    lebs * (geometry.leb_size - geometry.leb_reserve()) as u64
}
