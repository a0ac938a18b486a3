//! What does a volume hold that is the bytes of an image, if nothing is to be written to it?
//!
//! [`ImageVolume`] is a `Volume` over borrowed bytes: it takes no memory, and a read copies what it is asked for. Bytes behind the
//! image's end read as erased ones. A call that would write is refused, and of the LEB of the first of them the state then says
//! that more than all of it is closed (`closed_to`). So whoever calls what keeps all, as a check does, knows that it has tried to
//! write nothing, and that the volume is still sure (`never_spent`).
#![tactic(auto)]

mod image_volume;
mod reading;
mod refusals;

pub use crate::image_volume::ImageVolume;
