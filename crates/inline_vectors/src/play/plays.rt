//! How often rows were played.

use super::Way;
use super::playing::Playing;
use crate::begin::Kind;
use std::fmt::{self, Formatter, Write};

/// How often rows were played on each type and in each way, and how many answers there were.
#[derive(Default, Drop)]
pub struct Plays {
    arrays: usize,
    inlinables: usize,
    boxables: usize,
    strings: usize,
    users: usize,
    calls: usize,
    moved: usize,
    runs: usize,
    dyn_runs: usize,
    pub whole_runs: usize,
    answers: usize,
    own_answers: usize,
}

impl Plays {
    /// Counts a row that was played on a text.
    pub fn add(&mut self, one: &Playing) {
        match one.made.kind {
            Kind::Array(_) => count(&mut self.arrays, 1),
            Kind::Inlinable(_) => count(&mut self.inlinables, 1),
            Kind::Boxable => count(&mut self.boxables, 1),
            Kind::String => count(&mut self.strings, 1),
            Kind::User => count(&mut self.users, 1),
        }
        match one.made.way {
            Way::Calls => count(&mut self.calls, 1),
            Way::Moved => count(&mut self.moved, 1),
            Way::Run => count(&mut self.runs, 1),
            Way::Dyn => count(&mut self.dyn_runs, 1),
        }
        for step in &one.steps {
            count(&mut self.answers, step.found.answers.len());
            for given in &step.given {
                count(&mut self.own_answers, given.is_own as usize);
            }
        }
    }
}

fn count(number: &mut usize, more: usize) {
    *number = number.saturating_add(more);
}

impl fmt::Display for Plays {
    fn fmt<W: Write>(&self, f: &mut Formatter<W>) -> fmt::Result {
        write!(
            f,
            "InlineStringN {}, InlinableStringN {}, BoxableString {}, String {}, HeapText {}",
            self.arrays, self.inlinables, self.boxables, self.strings, self.users
        )?;
        write!(
            f,
            "; calls {}, moved {}, run {}, run_dyn {}, one run {}",
            self.calls, self.moved, self.runs, self.dyn_runs, self.whole_runs
        )?;
        write!(f, "; answers {}, own {}", self.answers, self.own_answers)
    }
}
