// Keys that stop workers.

ghost use Rattle.std.specs.Prelude.{◌≡◌, All, IfSome, length};

use std::alloc::Global;
use std::marker::{Model, Send};
use std::mem::replace;

/// What stops a worker. Whoever leaves keys says what holds of each, and no call makes one.
pub trait StopKind: Send + Drop {
    ghost may_stop: { Self → Type 0 };
}

// The keys that are left, of each of which that holds.
#[derive(Drop)]
pub(crate) struct LeftKeys<K: StopKind> {
    keys: Vec<K>,
}

impl<K: StopKind> Model for LeftKeys<K> {
    ghost use Rattle.std.specs.Prelude.{List, All};

    ghost Value = { List K };

    ghost view = { λ k. k.keys.items };

    ghost invariant = { λ k. All K.may_stop k.keys.items };
}

impl<K: StopKind> LeftKeys<K> {
    // No key.
    pub(crate) fn new(alloc: Global) -> LeftKeys<K> {
        LeftKeys {
            keys: Vec::new(alloc),
        }
    }

    // Leaves these keys in place of those that were left before.
    pub(crate) fn exchange(&mut self, keys: Vec<K>) -> Vec<K>
        requires { All K.may_stop keys.items }
        ensures left { self.new ≡ keys.items }
        ensures back { result.items ≡ self.old }
        ensures same { All K.may_stop result.items }
    {
        replace(&mut self.keys, keys)
    }

    // Takes a key out.
    pub(crate) fn take(&mut self) -> Option<K>
        ensures { IfSome result (λ key. K.may_stop key) }
    {
        self.keys.pop()
    }
}
