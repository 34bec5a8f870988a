//! Rows that the prover computes from the definitions of `inlinable_string`.
#![tactic(auto)]

pub mod worked;
