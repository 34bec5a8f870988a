//! Callers of `inlinable_string`, written as a newcomer would write them: each promises what its
//! own user would want to know, and is proved with nothing written by hand. This crate must not
//! have a folder of proofs.
//!
//! Where no clause of a call says enough, the body calls a law of the library by its name.
#![tactic(auto)]

pub mod by_law;
pub mod compares;
pub mod cuts;
pub mod finds;
pub mod instances;
pub mod joined;
pub mod json;
pub mod literals;
pub mod loops;
pub mod makers;
pub mod makes;
pub mod parts;
pub mod replacements;
pub mod room;
mod sizes;
pub mod splits;
pub mod takes;
pub mod views;
