// A value that contracts alone see.

ghost use Rattle.std.specs.Prelude.{◌≡◌};
ghost use base.Fml.{ftrue};

use std::marker::{Model, PhantomData};

/// A value that contracts alone see, of the type that they see of an S. It has no bytes.
pub struct Told<S> {
    marker: PhantomData<S>,
    pub ghost value: { S },
}

impl<S> Model for Told<S> {
    ghost also_owns = { λ _. ftrue };
}

// It owns nothing, so it may go to another thread.
unsafe impl<S> Send for Told<S> {}

impl<S> Drop for Told<S> {
    fn drop(self) {
        let Self { marker: _ } = self;
    }
}

/// What a function makes of this value, told. Takes no memory.
pub fn tell_of<T, S>(x: &T) -> Told<S>
    ghost f: { T → S }
    ensures { result.value ≡ f x.now }
{
    let _ = x;
    Told {
        marker: PhantomData,
    }
}
