// Paths: `/`, or components each after a slash.

ghost use Rattle.std.specs.Prelude.{◌≡◌, ◌||◌, IfOk, length, nat_lt};
ghost use Rattle.std.specs.List.{list_any};
ghost use Rattle.fs_model.specs.Making.{is_name_path};
ghost use Rattle.fs_model.specs.Path.{between_slashes, components, has_long_name, is_absolute, is_dots, is_empty, is_path, is_root, root_entry};

use fs_model::{Entry, Kind};
use std::alloc::Global;
use ubifs_base::{Memory, Name};

/// Whether an operation takes a path: no empty component, none that is `.` or `..`, and no zero byte. Takes no memory.
pub fn is_path(path: &Name) -> bool
    ensures { result ≡ is_path path.now }
{
    let bytes = path.as_slice();
    is_absolute(bytes) && !bytes.contains(&0) && !has_bad_part(bytes)
}

/// Whether it is a path of a name that can be made, taken away or moved: any path but `/`. Takes no memory.
pub fn is_name_path(path: &Name) -> bool
    ensures { result ≡ is_name_path path.now }
{
    is_path(path) && !is_root(path)
}

/// Whether a component has more than 255 bytes. Takes no memory.
pub fn has_long_name(path: &Name) -> bool
    ensures { result ≡ has_long_name path.now }
{
    match path.as_slice() {
        [] | [_] => false,
        [_, names @ ..] => names
            .split(|byte| *byte == b'/')
            .any(|name| name.len() > 255),
    }
}

/// Whether a path has no component, as `/`.
pub fn is_root(path: &Name) -> bool
    ensures { result ≡ is_root path.now }
{
    path.len() <= 1
}

/// The components of a path, of which `/` has none.
pub fn components(alloc: Global, path: &Name) -> Result<Vec<Name>, Memory>
    ensures { IfOk result (λ names. names.items ≡ components path.now) }
{
    match path.as_slice() {
        [] | [_] => Ok(Vec::new(alloc)),
        [_, names @ ..] => parts_of(alloc, names),
    }
}

// What stands between the slashes.
fn parts_of(alloc: Global, names: &[u8]) -> Result<Vec<Name>, Memory>
    ensures { IfOk result (λ parts. parts.items ≡ between_slashes names.now) }
{
    let mut parts = Vec::new(alloc);
    for name in names.split(|byte| *byte == b'/') {
        parts.push(Name::from_slice(alloc, name)?)?;
    }
    Ok(parts)
}

/// The entry that `/` stands for, where a walk begins. Takes no memory.
pub fn root_entry(alloc: Global) -> Entry
    ensures { result ≡ root_entry }
{
    Entry {
        dir: 1,
        name: Name::from_vec(Vec::new(alloc)),
        ino: 1,
        kind: Kind::Dir,
    }
}

// Whether it begins with a slash.
fn is_absolute(path: &[u8]) -> bool
    ensures { result ≡ is_absolute path.now }
{
    matches!(path, [b'/', ..])
}

// Whether a component is empty, `.` or `..`.
fn has_bad_part(path: &[u8]) -> bool
    ensures { result ≡ list_any (λ c. is_empty c || is_dots c) (components path.now) }
{
    match path {
        [] | [_] => false,
        [_, names @ ..] => names.split(|byte| *byte == b'/').any(is_bad_part),
    }
}

fn is_bad_part(name: &[u8]) -> bool
    ensures { result ≡ (is_empty name.now || is_dots name.now) }
{
    matches!(name, [] | [b'.'] | [b'.', b'.'])
}
