// Which places the log names.

ghost use Rattle.std.specs.Prelude.{◌≡◌};
ghost use Rattle.leaf_recovery.specs.Named.{in_bud_told, is_named_told};

use index_tree::Leaf;
use media_sys::RefNode;

// Whether a LEB is named by the log.
pub(crate) fn is_named(references: &[RefNode], lnum: u32) -> bool
    ensures { result ≡ is_named_told references.now lnum }
{
    for reference in references {
        if reference.lnum == lnum {
            return true;
        }
    }
    false
}

// Whether a leaf's place is one of the journal's.
pub(crate) fn in_bud(references: &[RefNode], leaf: &Leaf) -> bool
    ensures { result ≡ in_bud_told references.now leaf.now }
{
    for reference in references {
        if reference.lnum == leaf.lnum && reference.offs <= leaf.offs {
            return true;
        }
    }
    false
}
