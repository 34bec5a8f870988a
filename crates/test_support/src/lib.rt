//! What tests share: all memory held, whether an allocation has failed, and user-defined texts
//! under the trait `StringExt`.
#![tactic(auto)]

mod empty_text;
mod heap_text;
mod hoard;
pub mod letters;
mod refusals;

pub use empty_text::EmptyText;
pub use heap_text::HeapText;
pub use hoard::{Hoard, NEEDS_THE_PROVED_BUILD};
pub use refusals::Refusals;
