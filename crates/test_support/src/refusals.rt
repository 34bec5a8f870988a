//! How often a test has met a refusal.
ghost use Rattle.std.specs.Prelude.{◌↔◌, IsTrue};

/// Whether a test has met a refusal. One request is refused at most, so a second refusal is an
/// allocation failure where there was none.
#[derive(Drop)]
pub struct Refusals {
    pub has_met: bool,
}

impl Refusals {
    pub fn none() -> Refusals
        ensures { ¬ (IsTrue result.has_met) }
    {
        Refusals { has_met: false }
    }

    /// Whether this refusal is the first.
    pub fn meet(&mut self) -> bool
        ensures answer { IsTrue result ↔ ¬ (IsTrue self.old.has_met) }
        ensures now { IsTrue self.new.has_met }
    {
        let is_first = !self.has_met;
        self.has_met = true;
        is_first
    }
}
