// A node of the index that is wanted, and those below it.

ghost use Rattle.std.specs.Prelude.{◌≡◌, ◌++◌, OnOk, Some};
ghost use Rattle.sound_image.specs.IndexBreaches.{root_wanted as root_of};
ghost use Rattle.index_check.specs.IndexWalk.{told_branch as told_of, waiting_in, wanted_below, wanted_of};

use media_sys::{Branch, Master};
use std::alloc::AllocError;
use ubifs_base::Key;

/// The branch that leads there, the level that the node has to have, and the key that bounds its keys above. The root has neither.
#[derive(Clone, Copy, Debug)]
pub(crate) struct Wanted {
    pub branch: Branch,
    pub level: Option<u16>,
    pub most: Option<Key>,
}

/// The root, by the master's address.
pub(crate) fn root_wanted(master: &Master) -> Wanted
    ensures { wanted_of result ≡ root_of master.now }
{
    Wanted {
        branch: Branch {
            lnum: master.root_lnum,
            offs: master.root_offs,
            len: master.root_len,
            key: Key::Ino { ino: 0 },
        },
        level: None,
        most: None,
    }
}

/// The branch by which a node is told: the root's has its first child's key.
pub(crate) fn told_branch(wanted: &Wanted, branches: &[Branch]) -> Branch
    ensures { result ≡ told_of (wanted_of wanted.now) branches.now }
{
    if wanted.level.is_some() {
        return wanted.branch;
    }
    let Some((first, _)) = branches.split_first() else {
        return wanted.branch;
    };
    Branch {
        lnum: wanted.branch.lnum,
        offs: wanted.branch.offs,
        len: wanted.branch.len,
        key: first.key,
    }
}

/// Puts the nodes to which branches lead in front of those that wait, the first in front.
pub(crate) fn push_children(
    waiting: &mut Vec<Wanted>,
    level: u16,
    most: Option<Key>,
    branches: &[Branch],
) -> Result<(), AllocError>
    ensures { OnOk result (waiting_in waiting.new.items ≡ wanted_below level most branches.now ++ waiting_in waiting.old.items) }
{
    let mut left = branches;
    let mut bound = most;
    'pushing: while let Some((last, before)) = left.split_last() {
        waiting.push(Wanted {
            branch: *last,
            level: Some(level),
            most: bound,
        })?;
        bound = Some(last.key);
        left = before;
    }
    Ok(())
}
