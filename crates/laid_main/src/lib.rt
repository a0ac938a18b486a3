//! What is taken of main LEBs into which nodes were laid one behind another, and which properties do these LEBs have?
#![tactic(auto)]

mod law;

pub use crate::law::laid_lebs_have_their_properties;
