//! What a run has to do.
use std::alloc::Global;

/// A workload on an input.
#[derive(Drop)]
pub struct Task<'a> {
    pub alloc: Global,
    pub workload: &'a str,
    pub input: &'a [u8],
    /// How many bytes a piece of the input has; 0 where pieces end at spaces.
    pub width: usize,
    pub rounds: usize,
}
