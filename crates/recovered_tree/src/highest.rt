// The highest inode number that an image says was ever used.

ghost use Rattle.std.specs.Prelude.{◌≡◌, fold, max};
ghost use Rattle.ubifs_base.specs.Key.{key_words};
ghost use Rattle.recovered_tree.specs.Highest.{highest_image_read};

use index_tree::Leaf;
use sound_check::ImageRead;
use ubifs_base::Key;

/// The highest of the master's, of those in the keys of the committed leaves, and of those in the keys of the journal's nodes.
pub(crate) fn highest_of(read: &ImageRead) -> u32
    ensures { result ≡ highest_image_read read.now }
{
    let committed = highest_in(
        read.latest.master.highest_inum,
        read.index.leaves.as_slice(),
    );
    committed.max(read.buds.read.highest)
}

// The highest number of a first one and of those in the keys of leaves.
fn highest_in(first: u32, leaves: &[Leaf]) -> u32
    ensures { result ≡ fold (λ n leaf. max n (key_words leaf.key).0) first leaves.now }
{
    let mut highest = first;
    for leaf in leaves {
        highest = highest.max(number_of(&leaf.key));
    }
    highest
}

// The inode number of a key.
fn number_of(key: &Key) -> u32
    ensures { result ≡ (key_words key.now).0 }
{
    match *key {
        Key::Ino { ino } | Key::Block { ino, .. } | Key::Xent { ino, .. } => ino,
        Key::Dent { dir, .. } => dir,
    }
}
