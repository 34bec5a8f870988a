//! The inputs, which a seed determines.
pub mod drawn;
pub mod names;
pub mod random;
pub mod sources;
pub mod words;
