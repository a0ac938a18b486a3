//! When are contents that were laid at once, without a journal, a sound image, and of which tree?
#![tactic(auto)]

mod law;

pub use crate::law::a_laid_image_is_sound;
