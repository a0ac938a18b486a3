//! Tests of volumes, and of the areas and heads on them.
//!
//! They stand above the crates whose public calls they make, since a crate that has tests is proved twice: by itself, and with its tests.
#![tactic(auto)]

#[cfg(test)]
mod bud_log_tests;
#[cfg(test)]
mod bud_log_writing_tests;
#[cfg(test)]
mod journal_heads_tests;
#[cfg(test)]
mod lpt_area_tests;
#[cfg(test)]
mod small_areas_tests;
#[cfg(test)]
mod ubi_volume_tests;
#[cfg(test)]
mod write_buffer_tests;
