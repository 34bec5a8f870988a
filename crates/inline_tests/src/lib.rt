//! Tests of what no row of `inline_vectors` can say: iterators, values that hold texts, texts used
//! as a `str`, boxed texts of unlike types, and scripts whose reads or writes fail.
#![tactic(auto)]

#[cfg(test)]
mod borrowed;
#[cfg(test)]
mod each;
#[cfg(test)]
mod joined;
#[cfg(test)]
mod memory;
#[cfg(test)]
mod printed;
#[cfg(test)]
mod streams;
