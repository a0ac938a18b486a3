//! Is what a volume holds a sound image, rule by rule, and what is wrong with it first?
//!
//! The rules, and what breaks them, are those of sound_image: definitions over contents. Each call here reads what its rule
//! speaks of. It answers Ok only if the contents meet it, and a breach only if they don't: that of the rule that is the first. LEBs
//! are tested one after another, so the invariant is that all LEBs so far meet the rule. The properties tree is gone over level by
//! level, and what is wrong first of all its nodes is kept on the way (`specs/PropertyWalk.antt`).
#![tactic(auto)]

mod fault;
mod features;
mod laws;
mod masters;
mod orphan_lists;
mod places;
mod properties;
mod property_rows;
mod superblock;
mod told;
mod wrong_value;

pub use crate::fault::CheckFault;
pub use crate::features::needed_feature;
pub use crate::laws::{a_breach_is_first, the_sooner_of_both_is_first};
pub use crate::masters::check_masters;
pub use crate::orphan_lists::check_orphans;
pub use crate::places::{type_byte, type_number};
pub use crate::properties::check_properties;
pub use crate::superblock::check_superblock;
pub use crate::wrong_value::{WrongValue, sooner};
