//! Volumes of logical erase blocks (LEBs), as UBI gives them, and what a power cut may leave of them.
//!
//! A volume's contents are a list of bytes for each LEB. Of each LEB one more thing is told: what a power cut now may
//! leave of it. That is what it holds, and after an unmapping that isn't final also what it held before; during a write
//! the units of that write may be anything, and during a change the LEB is wholly old or wholly new. The clock joins
//! these to what a cut at any moment since then might have left, so a caller of several calls says in one clause what a
//! cut at any moment of its own leaves. [`Volume`] is what file systems are written against; [`MemVolume`] is one in
//! memory.
#![tactic(auto)]

mod arming;
pub mod client;
mod fault;
mod image;
mod leb;
mod loading;
mod mem_volume;
mod settling;
mod tear;
mod volume;
mod whole;

pub use crate::fault::{AreaFault, LoadFault, VolFault};
pub use crate::image::{load_image, save_image};
pub use crate::mem_volume::{MemVolume, VolShape};
pub use crate::volume::Volume;
pub use crate::whole::read_leb;
