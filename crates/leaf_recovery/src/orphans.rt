// The orphans that are listed.

ghost use Rattle.std.specs.Prelude.{◌≡◌, fold, IfOk};
ghost use Rattle.std.specs.List.{list_any};
ghost use Rattle.leaf_recovery.specs.Applied.{is_spared_by, is_unknown_told, listed_left_told, without_orphan_told, without_parts};
ghost use Rattle.leaf_recovery.specs.Things.{is_unlinked_told};

use crate::lost::is_nothing;
use crate::recovered_leaf::RecoveredLeaf;
use crate::thing::{is_part, is_unlinked};
use journal_scan::NodeContent;
use log_replay::CommittedLeaf;
use media_sys::RefNode;
use std::alloc::Global;
use ubifs_base::{Key, Memory};

// The list without the inodes whose own node has links although its mode names no kind.
pub(crate) fn listed_left(
    alloc: Global,
    references: &[RefNode],
    committed: &[CommittedLeaf],
    listed: &[u32],
) -> Result<Vec<u32>, Memory>
    ensures { IfOk result (λ left. left.items ≡ listed_left_told references.now committed.now listed.now) }
{
    let mut left = Vec::new(alloc);
    for ino in listed {
        if !is_spared(references, committed, *ino) {
            left.push(*ino)?;
        }
    }
    Ok(left)
}

fn is_spared(references: &[RefNode], committed: &[CommittedLeaf], ino: u32) -> bool
    ensures { result ≡ list_any (is_spared_by references.now ino) committed.now }
{
    for leaf in committed {
        if is_spared_by(references, leaf, ino) {
            return true;
        }
    }
    false
}

fn is_spared_by(references: &[RefNode], leaf: &CommittedLeaf, ino: u32) -> bool
    ensures { result ≡ is_spared_by references.now ino leaf.now }
{
    match &leaf.found {
        Some(node) => { is_unknown(ino, &node.content) && is_nothing(references, &leaf.leaf, node) }
        None => false,
    }
}

// Whether a node is that of this inode, of no known kind, and has links.
fn is_unknown(ino: u32, content: &NodeContent) -> bool
    ensures { result ≡ is_unknown_told ino content.now }
{
    match content {
        NodeContent::Unknown {
            key: Key::Ino { ino: number },
            linked,
        } => *number == ino && *linked,
        NodeContent::Unknown { .. }
        | NodeContent::Inode { .. }
        | NodeContent::Block { .. }
        | NodeContent::Entry { .. }
        | NodeContent::Truncation { .. } => false,
    }
}

// The listed inodes go that have no links.
pub(crate) fn drop_listed(kept: &mut Vec<RecoveredLeaf>, listed: &[u32])
    ensures { kept.new.items ≡ fold without_orphan_told kept.old.items listed.now }
{
    for ino in listed {
        drop_orphan(kept, *ino);
    }
}

// An inode goes with its blocks if it has no links.
fn drop_orphan(kept: &mut Vec<RecoveredLeaf>, ino: u32)
    ensures { kept.new.items ≡ without_orphan_told kept.old.items ino }
{
    if has_unlinked(kept.as_slice(), ino) {
        drop_parts(kept, ino);
    }
}

fn has_unlinked(kept: &[RecoveredLeaf], ino: u32) -> bool
    ensures { result ≡ list_any (λ x. is_unlinked_told ino x.content) kept.now }
{
    for leaf in kept {
        if is_unlinked(ino, &leaf.content) {
            return true;
        }
    }
    false
}

fn drop_parts(kept: &mut Vec<RecoveredLeaf>, ino: u32)
    ensures { kept.new.items ≡ without_parts ino kept.old.items }
{
    kept.retain(|leaf| !is_part(ino, &leaf.content));
}
