//! Which bytes are a sound image, and what is wrong first with those that aren't?
//!
//! An image is contents: bytes by LEB. There are twelve rules, each a relation between contents and what they say: from the
//! superblock on, one part leads to the next. `specs/Image.antt` has the parts, a file of `specs/` has each rule, and
//! `SoundImage` of `specs/Sound.antt` has one field for each. `specs/Breaches.antt` says what breaks a rule, and where. The
//! idea: whoever writes, mounts or checks an image cites the same twelve definitions, so that they can't disagree.
#![tactic(auto)]

mod breach;
mod geometry_field;
mod laws;
mod rule;

pub use crate::breach::Breach;
pub use crate::geometry_field::super_field;
pub use crate::laws::{
    a_bud_of_plain_nodes_is_sound, a_first_breach_is_one, a_fresh_log_meets_the_rule,
    a_log_that_was_read_meets_the_rule, a_mount_can_read_a_sound_image, contents_say_one_thing,
    damaged_images_are_told, lost_nodes_are_told, of_some_places_one_is_first,
    plain_nodes_need_no_feature, sums_and_links_are_right_or_one_is_wrong,
    the_least_image_is_sound, the_tree_of_a_mount_is_proper,
    the_tree_of_a_sound_image_hangs_together, what_a_sound_image_says_can_be_replayed,
    what_is_written_meets_the_rules, what_was_read_stands,
};
pub use crate::rule::Rule;
