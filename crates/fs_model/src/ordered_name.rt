// Names as keys of a map.

ghost use Rattle.std.specs.Prelude.{◌≡◌, [], nat_eq};
ghost use Rattle.std.proofs.Common.{refl};
ghost use Rattle.std.specs.declared.option.Option.TheVariants.{Some};
ghost use Rattle.std.specs.Ordering.{nat_cmp};
ghost use Rattle.std.specs.Cmp.{partial_equiv_from_equiv};
ghost use Rattle.std.specs.Cmp.Lexicographic.{nat_list_cmp_total, nat_list_eq_equiv, pointwise, slice_cmp, texts_po, texts_ties};

use std::alloc::Global;
use std::cmp::Ordering;
use std::marker::Model;
use ubifs_base::Name;

/// A name's bytes as a key of a map: names are in order of their bytes.
#[derive(Drop)]
pub struct OrderedName {
    items: Vec<u8>,
}

impl Model for OrderedName {
    ghost use Rattle.std.specs.Prelude.{ℕ, List};

    ghost Value = { List ℕ };

    ghost view = { λ b. b.items.items };
}

impl OrderedName {
    /// The name of no bytes, which is the first. Takes no memory.
    pub fn first(alloc: Global) -> OrderedName
        ensures { result ≡ [] }
    {
        OrderedName {
            items: Vec::new(alloc),
        }
    }

    /// Takes over a name. Takes no memory.
    pub fn from_name(name: Name) -> OrderedName
        ensures { result ≡ name }
    {
        OrderedName {
            items: name.into_vec(),
        }
    }

    /// Gives the name back. Takes no memory.
    pub fn into_name(self) -> Name
        ensures { result ≡ self }
    {
        Name::from_vec(self.items)
    }

    /// The bytes.
    pub fn as_slice(&self) -> &[u8]
        ensures { result.now ≡ self.now }
    {
        self.items.as_slice()
    }
}

impl PartialEq for OrderedName {
    ghost eq = { pointwise nat_eq };

    ghost laws = { partial_equiv_from_equiv nat_list_eq_equiv };

    fn eq(&self, other: &OrderedName) -> bool {
        self.as_slice() == other.as_slice()
    }
}

impl Eq for OrderedName {
    ghost laws = { nat_list_eq_equiv };
}

impl PartialOrd for OrderedName {
    ghost partial_cmp = { λ x y. Some (slice_cmp nat_cmp x y) };

    ghost laws = { texts_po };

    fn partial_cmp(&self, other: &OrderedName) -> Option<Ordering> {
        Some(self.cmp(other))
    }
}

impl Ord for OrderedName {
    ghost cmp = { slice_cmp nat_cmp };

    ghost total = { nat_list_cmp_total };

    ghost matches_partial_cmp = { λ x y. refl };

    ghost matches_eq = { texts_ties };

    fn cmp(&self, other: &OrderedName) -> Ordering {
        self.as_slice().cmp(other.as_slice())
    }
}
