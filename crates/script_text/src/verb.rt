// The words for operations that have words behind them.

ghost use Rattle.std.specs.Prelude.{◌≡◌, IsTrue, IfSome, IfNone};
ghost use Rattle.script_text.specs.Verbs.{verb_name, is_verb_of_names};
ghost use Rattle.script_text.specs.declared.verb.Verb.{Verb};

/// An operation that has words behind its own.
#[derive(Clone, Copy)]
pub enum Verb {
    Create,
    Mkdir,
    Symlink,
    Link,
    Unlink,
    Rmdir,
    Rename,
    Open,
    Close,
    Read,
    Write,
    Truncate,
    Fsync,
    List,
    Stat,
    Readlink,
    Chmod,
}

/// The operation that has this name.
pub fn verb_of(name: &[u8]) -> Option<Verb>
    ensures found { IfSome result (λ verb. name.now ≡ verb_name verb) }
    ensures none { IfNone result ((verb : Verb) → name.now ≡ verb_name verb → ⊥) }
{
    if let Some(verb) = verb_of_names(name) {
        return Some(verb);
    }
    if name == b"open".as_slice() {
        return Some(Verb::Open);
    }
    if name == b"close".as_slice() {
        return Some(Verb::Close);
    }
    if name == b"read".as_slice() {
        return Some(Verb::Read);
    }
    if name == b"write".as_slice() {
        return Some(Verb::Write);
    }
    if name == b"truncate".as_slice() {
        return Some(Verb::Truncate);
    }
    if name == b"fsync".as_slice() {
        return Some(Verb::Fsync);
    }
    if name == b"list".as_slice() {
        return Some(Verb::List);
    }
    if name == b"stat".as_slice() {
        return Some(Verb::Stat);
    }
    if name == b"readlink".as_slice() {
        return Some(Verb::Readlink);
    }
    if name == b"chmod".as_slice() {
        return Some(Verb::Chmod);
    }
    None
}

// The same of the operations that make, move or take away a name.
fn verb_of_names(name: &[u8]) -> Option<Verb>
    ensures found { IfSome result (λ verb. name.now ≡ verb_name verb) }
    ensures none { IfNone result ((verb : Verb) → IsTrue (is_verb_of_names verb) → name.now ≡ verb_name verb → ⊥) }
{
    if name == b"create".as_slice() {
        return Some(Verb::Create);
    }
    if name == b"mkdir".as_slice() {
        return Some(Verb::Mkdir);
    }
    if name == b"symlink".as_slice() {
        return Some(Verb::Symlink);
    }
    if name == b"link".as_slice() {
        return Some(Verb::Link);
    }
    if name == b"unlink".as_slice() {
        return Some(Verb::Unlink);
    }
    if name == b"rmdir".as_slice() {
        return Some(Verb::Rmdir);
    }
    if name == b"rename".as_slice() {
        return Some(Verb::Rename);
    }
    None
}
