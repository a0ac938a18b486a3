//! Does a volume hold a sound image, what does it say, and what is wrong with it first?
//!
//! Crate sound_image says it by twelve rules, and each of them has a call in a crate below. Here they are joined: [`read_image`] makes
//! these calls in the order of the rules, and [`check`] tells of the image whether it is clean, and its space. The idea: each stage tests two
//! or three rules more. What it answers is that some image meets all rules so far, and that all that was read is this image's. So what is
//! wrong by the next rule is wrong first.
#![tactic(auto)]

mod areas;
mod begun;
mod image_read;
mod journal;
mod laws;
mod leaves;
mod reading;
mod sound;
mod space;
mod summary;

pub use crate::image_read::ImageRead;
pub use crate::laws::one_thing_is_told;
pub use crate::reading::read_image;
pub use crate::sound::Sound;
pub use crate::summary::{check, summary_of};
