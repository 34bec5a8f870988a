//! Tests of the users of the library by their public calls, of what no contract says.
#![tactic(auto)]

#[cfg(test)]
mod memory;
#[cfg(test)]
mod names;
#[cfg(test)]
mod printed;
#[cfg(test)]
mod refusals;
#[cfg(test)]
mod store;
#[cfg(test)]
mod tokens;
#[cfg(test)]
mod tree;
