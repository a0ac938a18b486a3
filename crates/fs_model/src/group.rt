// Groups of changes.

ghost use Rattle.std.specs.Prelude.{◌≡◌, ◌++◌, ◌∷◌, [], OnOk, OnErr};

use crate::Change;
use std::alloc::Global;
use std::marker::Model;
use ubifs_base::Memory;

/// Changes that are made together or not at all (Hunter 2008, "The journal"), which contracts see as the list of them in
/// order.
#[derive(Drop)]
pub struct Group {
    changes: Vec<Change>,
}

impl Model for Group {
    ghost use Rattle.std.specs.Prelude.{List};
    ghost use Rattle.fs_model.specs.declared.change.Change.{Change};

    ghost Value = { List Change };

    ghost view = { λ b. b.changes.items };
}

impl Group {
    /// No changes.
    pub fn new(alloc: Global) -> Group
        ensures { result ≡ [] }
    {
        Group {
            changes: Vec::new(alloc),
        }
    }

    /// Takes over the changes. Takes no memory.
    pub fn from_vec(changes: Vec<Change>) -> Group
        ensures { result ≡ changes.items }
    {
        Group { changes }
    }

    /// Appends a change. Where there is no memory the group is as it was.
    pub fn push(&mut self, change: Change) -> Result<(), Memory>
        ensures ok { OnOk result (self.new ≡ self.old ++ change ∷ []) }
        ensures err { OnErr result (self.new ≡ self.old) }
    {
        Ok(self.changes.push(change)?)
    }

    /// The changes.
    pub fn as_slice(&self) -> &[Change]
        ensures { result.now ≡ self.now }
    {
        self.changes.as_slice()
    }

    /// Gives the changes back. Takes no memory.
    pub fn into_vec(self) -> Vec<Change>
        ensures { result.items ≡ self }
    {
        self.changes
    }
}
