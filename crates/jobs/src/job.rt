//! The jobs, by name.
use deletions::Order;
use inlinable_string::InlinableString;
use inline_uses::store::Store;
use inline_uses::symbols::Symbols;
use inline_uses::text_map::TextMap;
use task::Task;

mod deletions;
mod growth;
mod map;
mod paths;
mod store;
mod symbols;
pub mod task;
mod texts;
mod tokens;
mod tree;

/// What is done.
#[derive(Clone, Copy, Debug, PartialEq, Eq)]
pub enum Job {
    Symbols,
    Paths,
    Store,
    Map,
    Tree,
    Tokens,
    Texts,
    GrowthDrawn,
    GrowthSymbols,
    GrowthStore,
    GrowthMap,
    Deletions(Order),
}

impl Job {
    /// Each job of `bench/workloads.txt`, and that of the store over a map.
    pub const EACH: [Job; 7] = [
        Job::Symbols,
        Job::Paths,
        Job::Store,
        Job::Map,
        Job::Tree,
        Job::Tokens,
        Job::Texts,
    ];

    /// Each job that `bench/growth` times.
    const GROWTH: [Job; 11] = [
        Job::GrowthDrawn,
        Job::GrowthSymbols,
        Job::GrowthStore,
        Job::GrowthMap,
        Job::Deletions(Order::None),
        Job::Deletions(Order::Rising),
        Job::Deletions(Order::Falling),
        Job::Deletions(Order::Drawn),
        Job::Deletions(Order::First),
        Job::Deletions(Order::Queue),
        Job::Deletions(Order::Refill),
    ];

    /// The name in the arguments.
    pub fn name(self) -> &'static str {
        match self {
            Job::Symbols => "symbols",
            Job::Paths => "paths",
            Job::Store => "store",
            Job::Map => "map",
            Job::Tree => "tree",
            Job::Tokens => "tokens",
            Job::Texts => "texts",
            Job::GrowthDrawn => "growth-drawn",
            Job::GrowthSymbols => "growth-symbols",
            Job::GrowthStore => "growth-store",
            Job::GrowthMap => "growth-map",
            Job::Deletions(order) => order.name(),
        }
    }

    /// The job of a name.
    pub fn of_name(name: &str) -> Option<Job> {
        named(&Job::EACH, name).or(named(&Job::GROWTH, name))
    }

    /// Does the job on each input of the task. `None` if an allocation fails.
    pub fn digest(self, task: &Task) -> Option<u64> {
        match self {
            Job::Symbols => symbols::digest_of(task),
            Job::Paths => paths::digest_of(task),
            Job::Store => store::digest_of(task),
            Job::Map => map::digest_of(task),
            Job::Tree => tree::digest_of(task),
            Job::Tokens => tokens::digest_of(task),
            Job::Texts => texts::digest_of(task),
            Job::GrowthDrawn => growth::digest_of::<growth::Nothing>(task),
            Job::GrowthSymbols => growth::digest_of::<Symbols>(task),
            Job::GrowthStore => growth::digest_of::<Store>(task),
            Job::GrowthMap => growth::digest_of::<TextMap<InlinableString>>(task),
            Job::Deletions(order) => deletions::digest_of(task, order),
        }
    }
}

/// The first of these jobs that has a name.
fn named(jobs: &[Job], name: &str) -> Option<Job> {
    for job in jobs {
        if job.name() == name {
            return Some(*job);
        }
    }
    None
}
