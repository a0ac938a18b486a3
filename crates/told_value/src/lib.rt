//! Values that contracts alone see. A struct that keeps a `Told` can say in its model what its code doesn't keep: which
//! tree was committed, what each journal head got. Such a value has no bytes. It is made by `tell_of` of what is there,
//! so no value can be told of which contracts say nothing; what ties it to the rest is the invariant of who keeps it.
//! The type that is told is that which contracts see of a type parameter.
#![tactic(auto)]

mod told;

pub use crate::told::{Told, tell_of};
