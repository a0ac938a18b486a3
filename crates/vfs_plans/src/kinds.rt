// Kinds of inodes.

ghost use Rattle.std.specs.Prelude.{◌≡◌};
ghost use Rattle.fs_model.specs.Attributes.{is_symlink};
ghost use Rattle.fs_model.specs.Path.{is_dir, is_file};

use fs_model::Kind;

pub(crate) fn is_dir(kind: Kind) -> bool
    ensures { result ≡ is_dir kind }
{
    matches!(kind, Kind::Dir)
}

pub(crate) fn is_file(kind: Kind) -> bool
    ensures { result ≡ is_file kind }
{
    matches!(kind, Kind::File)
}

pub(crate) fn is_symlink(kind: Kind) -> bool
    ensures { result ≡ is_symlink kind }
{
    matches!(kind, Kind::Symlink)
}
