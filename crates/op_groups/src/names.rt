// Names, and lists of the components of a path.

ghost use Rattle.std.specs.Prelude.{◌≡◌, IfSome, is_some, not};
ghost use Rattle.fs_model.specs.Path.{is_same_name, is_empty, front_of, last_of};
ghost use Rattle.fs_model.specs.Rename.{is_under};

use ubifs_base::Name;

/// Whether two names are one.
pub fn is_same_name(one: &Name, other: &Name) -> bool
    ensures { result ≡ is_same_name one.now other.now }
{
    one == other
}

/// Whether the path of the second components lies under that of the first.
pub fn is_under(old: &[Name], new: &[Name]) -> bool
    ensures { result ≡ is_under old.now new.now }
{
    old.len() < new.len() && new.starts_with(old)
}

/// All components but the last: those of the directory in which the last one stands.
pub fn front_of(names: &[Name]) -> &[Name]
    ensures { result.now ≡ front_of names.now }
{
    match names {
        [] => &[],
        [front @ .., _] => front,
    }
}

/// The last component, which has no byte where there is none.
pub fn last_of(names: &[Name]) -> &[u8]
    ensures { result.now ≡ last_of names.now }
{
    match names {
        [] => &[],
        [.., name] => name.as_slice(),
    }
}

/// Takes the last component off, where there is one; those of its directory stay.
pub fn pop_last(names: &mut Vec<Name>) -> Option<Name>
    ensures front { names.new.items ≡ front_of names.old.items }
    ensures last { IfSome result (λ name. name ≡ last_of names.old.items) }
    ensures some { is_some result ≡ not (is_empty names.old.items) }
{
    names.pop()
}
