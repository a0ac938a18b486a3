//! What is told of the bytes of an image: that they are sound, what stands in them, or what is wrong with them first?
//!
//! An image is opened, and the whole check is made of its volume, before anything is told. So a listing is of a sound image, and what
//! is wrong is a line: that of a fault of its bytes (crate image_dump), or of the first breach of its contents (crate sound_image).
//! `specs/Lines.antt` has the words, and `specs/Told.antt` which of them is told of which bytes.
#![tactic(auto)]

mod breach_line;
mod files;
mod law;
mod looking;
mod sound_line;
mod texts;
mod volume_law;

pub use crate::files::{ImageFiles, image_files};
pub use crate::law::one_text_is_told;
pub use crate::texts::{ImageText, check_text, dump_text};
pub use crate::volume_law::{bytes_hold_one_tree, the_bytes_of_a_volume_hold_what_it_holds};
