//! Users of `inlinable_string`, each a small module to keep: its contracts are in the words of its
//! own users, and proved from the library's public contracts.
#![tactic(auto)]

pub mod callers;
pub mod editor;
mod index;
pub mod store;
pub mod symbols;
pub mod text_map;
pub mod tokens;
pub mod tree;
pub mod worked;
