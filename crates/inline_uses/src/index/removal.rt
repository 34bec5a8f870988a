//! What takes an id out of an index, and keeps its runs from becoming many and short.
ghost use Rattle.std.specs.Prelude.{◌≡◌, ◌<◌, ℕ, suc, List, take, length};
ghost use Rattle.std.specs.List.{flat_map, remove};
ghost use Rattle.inline_uses.specs.Index.{HaveFirsts, IsAt, IsIndex, ids_at, ids_in, ids_of, index_of, runs_of};

use super::{HALF, Index, Spot, Texts, insert_run};

/// A run with fewer ids than this joins a neighbour, if both together have at most `HALF`.
const SHORT: usize = 64;

#[tactic(auto, using(crate::proofs::Owned::runs_known))]
impl Index {
    /// Removes the id at a spot. Cannot fail: where runs that have become short can be joined, and
    /// memory for it can't be had, they stay apart.
    pub(crate) fn remove<T: Texts>(&mut self, texts: &T, spot: Spot)
        requires index { IsIndex (T.text_of texts.now) self.old }
        requires at { IsAt self.old spot }
        ensures index { IsIndex (T.text_of texts.now) self.new }
        ensures ids { ids_in self.new ≡ remove (ids_in self.old) (index_of self.old spot) }
    {
        let len = self.run(spot.run).len();
        if 0 < spot.run && len == 1 {
            self.remove_run(spot.run - 1);
            return;
        }
        self.remove_from_run(texts, spot);
        if len <= SHORT {
            self.join_neighbours(texts, spot.run);
        }
    }

    /// Removes a later run, which has one id.
    fn remove_run(&mut self, at: usize)
        requires one { length (ids_at self.old.later.items at) ≡ 1 }
        requires firsts { HaveFirsts (ids_of self.old.starts) self.old.later.items }
        ensures index { (text_of : ℕ → List ℕ) → IsIndex text_of self.old
            → IsIndex text_of self.new }
        ensures ids { ids_in self.new ≡ remove (ids_in self.old)
            (length (flat_map ids_of (take (suc at) (runs_of self.old)))) }
    {
        drop(self.later.remove(at));
        self.starts.remove(at);
    }

    /// Removes an id of a run which has others, or is the first one.
    fn remove_from_run<T: Texts>(&mut self, texts: &T, spot: Spot)
        requires index { IsIndex (T.text_of texts.now) self.old }
        requires at { IsAt self.old spot }
        requires more { 0 < spot.run → 1 < length (ids_at (runs_of self.old) spot.run) }
        ensures index { IsIndex (T.text_of texts.now) self.new }
        ensures ids { ids_in self.new ≡ remove (ids_in self.old) (index_of self.old spot) }
        ensures runs { length self.new.later.items ≡ length self.old.later.items }
    {
        let run = self.run_mut(spot.run);
        run.remove(spot.at);
        if spot.run == 0 {
            return;
        }
        if spot.at == 0 {
            let first = run.id(0);
            self.starts.replace(texts, spot.run - 1, first);
        }
    }

    /// Joins a run to the next one and to the one before, where they are short.
    fn join_neighbours<T: Texts>(&mut self, texts: &T, at: usize)
        requires { IsIndex (T.text_of texts.now) self.old }
        ensures index { IsIndex (T.text_of texts.now) self.new }
        ensures ids { ids_in self.new ≡ ids_in self.old }
    {
        if at < self.later.len() {
            self.join(texts, at);
        }
        if 0 < at && at <= self.later.len() {
            self.join(texts, at - 1);
        }
    }

    /// Joins a run and the next one, if both together have at most `HALF` ids, and memory for it
    /// can be had.
    fn join<T: Texts>(&mut self, texts: &T, at: usize)
        requires within { at < length self.old.later.items }
        requires index { IsIndex (T.text_of texts.now) self.old }
        ensures index { IsIndex (T.text_of texts.now) self.new }
        ensures ids { ids_in self.new ≡ ids_in self.old }
    {
        if HALF < self.run(at).len() + self.run(at + 1).len() {
            return;
        }
        let next = self.later.remove(at);
        match self.run_mut(at).append(texts, &next) {
            Ok(()) => {
                drop(next);
                self.starts.remove(at);
            }
            Err(_) => insert_run(&mut self.later, at, next),
        }
    }
}
