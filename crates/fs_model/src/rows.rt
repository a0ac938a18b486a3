// Entries of a directory, as a list.

ghost use Rattle.std.specs.Prelude.{◌≡◌};

use crate::Entry;
use std::marker::Model;

/// Entries of a directory in the order in which they are listed, which contracts see as a list.
#[derive(Drop)]
pub struct Rows {
    items: Vec<Entry>,
}

impl Model for Rows {
    ghost use Rattle.std.specs.Prelude.{List};
    ghost use Rattle.fs_model.specs.declared.inode.Entry.{Entry};

    ghost Value = { List Entry };

    ghost view = { λ b. b.items.items };
}

impl Rows {
    /// Takes over the entries. Takes no memory.
    pub fn from_vec(items: Vec<Entry>) -> Rows
        ensures { result ≡ items.items }
    {
        Rows { items }
    }

    /// The entries.
    pub fn as_slice(&self) -> &[Entry]
        ensures { result.now ≡ self.now }
    {
        self.items.as_slice()
    }

    /// Gives the entries back. Takes no memory.
    pub fn into_vec(self) -> Vec<Entry>
        ensures { result.items ≡ self }
    {
        self.items
    }
}
