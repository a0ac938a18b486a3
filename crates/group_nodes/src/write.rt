// Groups of changes as bytes.

ghost use Rattle.std.specs.Prelude.{◌≡◌, ◌+◌, ◌*◌, ◌^◌, ◌<◌, ◌≤◌, ℕ, IsTrue, length, sum_by};
ghost use Rattle.std.specs.List.{list_all};
ghost use Rattle.fs_model.specs.Backing.{is_node};
ghost use Rattle.group_nodes.specs.Texts.{text_bytes};
ghost use Rattle.group_nodes.specs.Groups.{group_text, group_type, texts_from};

use crate::node::{text_len, write_text};
use fs_model::Change;
use std::alloc::Global;

/// How many bytes a group takes on the medium, whatever its sequence numbers. Takes no memory.
pub fn group_len(changes: &[Change]) -> u64
    requires nodes { IsTrue (list_all is_node changes.now) }
    requires few { length changes.now < 2 ^ 32 }
    ensures { (sqnum : ℕ) → result ≡ length (group_text sqnum changes.now) }
{
    len_of(changes)
}

// The same, as a sum.
fn len_of(changes: &[Change]) -> u64
    requires nodes { IsTrue (list_all is_node changes.now) }
    requires few { length changes.now < 2 ^ 32 }
    ensures len { result ≡ sum_by text_bytes changes.now }
    ensures most { result ≤ 4256 * length changes.now }
{
    match changes.split_first() {
        None => 0,
        Some((first, rest)) => text_len(first) as u64 + len_of(rest),
    }
}

/// Writes a group over all of `out`: the nodes of its changes in order, each with 0xCE behind it up to a multiple of 8. They
/// have the sequence numbers after `sqnum`, which is then the last of them, and the group types of a group (Hunter 2008,
/// "The journal"). Takes no memory: the allocator makes empty lists alone.
pub fn write_group(alloc: Global, changes: &[Change], sqnum: &mut u64, out: &mut [u8])
    requires nodes { IsTrue (list_all is_node changes.now) }
    requires numbers { sqnum.old + length changes.now < 2 ^ 64 }
    requires room { length out.old ≡ length (group_text sqnum.old changes.now) }
    ensures text { out.new ≡ group_text sqnum.old changes.now }
    ensures number { sqnum.new ≡ sqnum.old + length changes.now }
{
    write_from(alloc, changes.len(), 0, changes, *sqnum, out);
    *sqnum += changes.len() as u64;
}

// Writes the changes from place i on among n.
fn write_from(alloc: Global, n: usize, i: usize, changes: &[Change], sqnum: u64, out: &mut [u8])
    requires nodes { IsTrue (list_all is_node changes.now) }
    requires place { i + length changes.now ≡ n }
    requires numbers { sqnum + length changes.now < 2 ^ 64 }
    requires room { length out.old ≡ sum_by text_bytes changes.now }
    ensures { out.new ≡ texts_from n i sqnum changes.now }
{
    let Some((first, rest)) = changes.split_first() else {
        return;
    };
    let (front, back) = out.split_at_mut(text_len(first));
    write_text(alloc, first, sqnum + 1, group_type(n, i), front);
    write_from(alloc, n, i + 1, rest, sqnum + 1, back);
}

// The group type of the node at place i among n.
fn group_type(n: usize, i: usize) -> u8
    requires { i < n }
    ensures kind { result ≡ group_type n i }
    ensures known { result ≤ 2 }
{
    if n == 1 {
        return 0;
    }
    if i + 1 == n {
        return 2;
    }
    1
}
