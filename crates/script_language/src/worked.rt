//! Rows that the prover itself computes from the definitions. Each function has an empty body: its
//! contract is the rows, worked out from the rules in words.

pub mod bad_lines;
pub mod lines;
pub mod printing;
pub mod scripts;
pub mod starts;
