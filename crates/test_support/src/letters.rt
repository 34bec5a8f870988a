//! Texts of the letter 'a', by their length. `InlinableString` has room for 30 bytes inline.

pub const LETTERS_30: &str = "aaaaaaaaaaaaaaaaaaaaaaaaaaaaaa";

pub const LETTERS_31: &str = "aaaaaaaaaaaaaaaaaaaaaaaaaaaaaaa";
