// What calls do to the numbers of a backing in memory.

ghost use Rattle.std.specs.Prelude.{◌≡◌, ◌≢◌, ◌↔◌, ◌+◌, ◌<◌, ◌≤◌, ◌^◌, ◌==◌, IsTrue, IsOk, IfErr, IfOk, OnOk, OnErr};
ghost use Rattle.ubifs_base.specs.Areas.{main_lebs};
ghost use Rattle.ubifs_base.specs.RawOf.{raw_of};
ghost use Rattle.fs_model.specs.Backing.{IsModest, IsSmall};
ghost use Rattle.fs_model.specs.Cover.{needed, room_for};
ghost use Rattle.plain_backing.specs.PlainBacking.{counted_call, failed, IsChangeRefused, admitted, with_nodes_put, page_spent, group_spent, begun, with_closed, ended_as};
ghost use Rattle.std.specs.List.{list_any};
ghost use Rattle.fs_model.specs.Orphan.{nameless};
ghost use Rattle.fs_model.specs.declared.backing_answers.Mode.TheVariants.{ReadWrite};
ghost use Rattle.fs_model.specs.declared.backing_answers.StoreFault.TheVariants.{Volume};

use crate::Tree;
use crate::numbers::Numbers;
use fs_model::{Cause, Grant, Mode, Need, NoSpace, Space, StoreFault};
use space_sums::room;
use std::alloc::Global;
use ubifs_base::{Geometry, Memory};

/// Counts a call that may fail, and fails it where it is the one.
pub(crate) fn count_call(numbers: &mut Numbers) -> Result<(), StoreFault>
    ensures ok { OnOk result ((numbers.new ≡ counted_call numbers.old) × (numbers.old.strike ≢ 1)) }
    ensures err { OnErr result ((numbers.new ≡ failed numbers.old) × (numbers.old.strike ≡ 1)) }
    ensures told { IfErr result (λ fault. fault ≡ Volume numbers.new.faults) }
    ensures faults { numbers.old.faults ≤ numbers.new.faults }
{
    if numbers.strike != 1 {
        numbers.strike = numbers.strike.saturating_sub(1);
        return Ok(());
    }
    let count = numbers.faults.saturating_add(1);
    numbers.strike = 0;
    numbers.faults = count;
    if let Mode::ReadWrite = numbers.mode {
        numbers.mode = Mode::ReadOnly {
            cause: Cause::Faulted { count },
        };
    }
    Err(StoreFault::Volume { count })
}

/// The same of a call that changes the store, which is refused where it is read-only.
pub(crate) fn changing_call(numbers: &mut Numbers) -> Result<(), StoreFault>
    ensures ok { OnOk result ((numbers.new ≡ counted_call numbers.old) × (numbers.old.strike ≢ 1) × (numbers.old.mode ≡ ReadWrite)) }
    ensures told { IfErr result (λ fault. IsChangeRefused numbers.old numbers.new fault) }
    ensures faults { numbers.old.faults ≤ numbers.new.faults }
{
    if let Mode::ReadOnly { cause } = numbers.mode {
        return Err(StoreFault::ReadOnly { cause });
    }
    count_call(numbers)
}

/// Covers a need's credits and makes its bytes and nodes the grant, where there is room for it in this space.
pub(crate) fn admit(
    numbers: &mut Numbers,
    geo: &Geometry,
    space: &Space,
    need: &Need,
) -> Result<(), NoSpace>
    requires modest { IsModest need.now }
    requires small { IsSmall space.now }
    requires main { space.now.main ≡ main_lebs (raw_of geo.now) }
    requires credits { space.now.credits ≡ numbers.old.credits }
    ensures covered { IsOk result ↔ (needed space.now need.now ≤ room_for (raw_of geo.now) space.now need.now) }
    ensures ok { OnOk result ((numbers.new ≡ admitted numbers.old need.now) × (numbers.old.credits + need.now.credits < 2 ^ 40)) }
    ensures err { OnErr result (numbers.new ≡ numbers.old) }
    ensures told { IfErr result (λ found. (found.need ≡ needed space.now need.now) × (found.room ≡ room_for (raw_of geo.now) space.now need.now)) }
{
    let sides = room(geo, space, need);
    if sides.need > sides.limit {
        return Err(NoSpace {
            need: sides.need,
            room: sides.limit,
        });
    }
    numbers.credits += need.credits;
    numbers.grant = Some(Grant {
        bytes: need.bytes,
        nodes: need.nodes,
    });
    Ok(())
}

/// Whether so many more nodes leave the weight a number that admission reckons with.
pub(crate) fn has_weight_for(numbers: &Numbers, nodes: usize) -> bool
    requires { numbers.now.weight < 2 ^ 40 }
    ensures { IsTrue result ↔ (numbers.now.weight + nodes < 2 ^ 40) }
{
    (nodes as u64) < (1 << 40) - numbers.weight
}

/// Counts nodes that were put.
pub(crate) fn count_nodes(numbers: &mut Numbers, nodes: usize)
    requires { numbers.old.weight + nodes < 2 ^ 40 }
    ensures { numbers.new ≡ with_nodes_put numbers.old nodes }
{
    let nodes = nodes as u64;
    numbers.weight += nodes;
    numbers.nodes = numbers.nodes.saturating_add(nodes);
    numbers.later = numbers.later.saturating_add(nodes);
}

/// Starts a commit.
pub(crate) fn start(numbers: &mut Numbers)
    ensures { numbers.new ≡ begun numbers.old }
{
    numbers.running = Some(numbers.ended.saturating_add(1));
    numbers.later = 0;
    numbers.closed = 0;
}

/// Counts an orphan that was closed, where the last commit's list names it.
pub(crate) fn count_closed(numbers: &mut Numbers, listed: &[u32], ino: u32)
    ensures { numbers.new ≡ with_closed numbers.old (list_any (λ n. n == ino) listed.now) }
{
    if is_listed(listed, ino) {
        numbers.closed = numbers.closed.saturating_add(1);
    }
}

// Whether a list has a number.
fn is_listed(listed: &[u32], ino: u32) -> bool
    ensures { result ≡ list_any (λ n. n == ino) listed.now }
{
    for number in listed {
        if *number == ino {
            return true;
        }
    }
    false
}

/// The inodes without a name: what a commit lists.
pub(crate) fn listed_orphans(alloc: Global, tree: &Tree) -> Result<Vec<u32>, Memory>
    ensures { IfOk result (λ listed. listed.items ≡ nameless tree.now) }
{
    let mut listed = Vec::new(alloc);
    let mut rest = tree.inodes();
    'listing: while let Some((ino, inode)) = rest.next() {
        if inode.nlink == 0 {
            listed.push(ino)?;
        }
    }
    Ok(listed)
}

/// Ends the commit of this number, whose index weighs so much.
pub(crate) fn end(numbers: &mut Numbers, cmt_no: u64, index: u64)
    ensures { numbers.new ≡ ended_as numbers.old cmt_no index }
{
    numbers.running = None;
    numbers.ended = cmt_no;
    numbers.nodes = numbers.later;
    numbers.weight = numbers.weight.min(numbers.base.max(index));
}

/// Spends a credit on a page of two nodes.
pub(crate) fn spend_page(numbers: &mut Numbers)
    requires credit { 0 < numbers.old.credits }
    requires weight { numbers.old.weight + 2 < 2 ^ 40 }
    ensures { numbers.new ≡ page_spent numbers.old }
{
    numbers.credits -= 1;
    count_nodes(numbers, 2);
}

/// Ends the grant with a group of so many nodes.
pub(crate) fn spend_grant(numbers: &mut Numbers, nodes: usize)
    requires { numbers.old.weight + nodes < 2 ^ 40 }
    ensures { numbers.new ≡ group_spent numbers.old nodes }
{
    numbers.grant = None;
    count_nodes(numbers, nodes);
}
