//! Where ids are, and other ids for the same texts.
ghost use Rattle.std.specs.Prelude.{◌≡◌, ◌≤◌, ◌<◌, ◌+◌, ℕ, List, map, length, set, slice_get, Some, IfOk, IfErr};
ghost use Rattle.inline_uses.specs.Symbols.{IsGap};
ghost use Rattle.inline_uses.specs.Index.{HaveFirsts, IsAt, IsIndex, IsSpot, ids_in, ids_of, index_of};

use super::{Index, Spot, Texts};

#[tactic(auto, using(crate::proofs::Owned::runs_known))]
impl Index {
    /// Returns the spot of a text's id, or else the one where its id goes.
    #[inline]
    pub(crate) fn locate<T: Texts>(&self, texts: &T, text: &str) -> Result<Spot, Spot>
        requires { IsIndex (T.text_of texts.now) self.now }
        ensures at { IfOk result (IsAt self.now) }
        ensures found { IfOk result (λ spot.
            slice_get (map (T.text_of texts.now) (ids_in self.now)) (index_of self.now spot)
            ≡ Some text.now) }
        ensures spot { IfErr result (IsSpot self.now) }
        ensures gap { IfErr result (λ spot. IsGap (map (T.text_of texts.now) (ids_in self.now))
            text.now (index_of self.now spot)) }
    {
        if self.later.is_empty() {
            return self.locate_in(texts, text, 0);
        }
        self.locate_among_runs(texts, text)
    }

    /// Locates a text in an index of several runs.
    #[inline(never)]
    #[tactic(auto, using(crate::proofs::Spots::first_spot, crate::proofs::Owned::runs_known))]
    pub(super) fn locate_among_runs<T: Texts>(&self, texts: &T, text: &str) -> Result<Spot, Spot>
        requires { IsIndex (T.text_of texts.now) self.now }
        ensures at { IfOk result (IsAt self.now) }
        ensures found { IfOk result (λ spot.
            slice_get (map (T.text_of texts.now) (ids_in self.now)) (index_of self.now spot)
            ≡ Some text.now) }
        ensures spot { IfErr result (IsSpot self.now) }
        ensures gap { IfErr result (λ spot. IsGap (map (T.text_of texts.now) (ids_in self.now))
            text.now (index_of self.now spot)) }
    {
        match self.starts.search(texts, text) {
            Ok(at) => Ok(Spot { run: at + 1, at: 0 }),
            Err(run) => self.locate_in(texts, text, run),
        }
    }

    /// Locates a text in the run in which it goes.
    #[inline]
    fn locate_in<T: Texts>(&self, texts: &T, text: &str, run: usize) -> Result<Spot, Spot>
        requires index { IsIndex (T.text_of texts.now) self.now }
        requires gap { IsGap (map (T.text_of texts.now) (ids_of self.now.starts)) text.now run }
        ensures at { IfOk result (IsAt self.now) }
        ensures found { IfOk result (λ spot.
            slice_get (map (T.text_of texts.now) (ids_in self.now)) (index_of self.now spot)
            ≡ Some text.now) }
        ensures spot { IfErr result (IsSpot self.now) }
        ensures gap { IfErr result (λ spot. IsGap (map (T.text_of texts.now) (ids_in self.now))
            text.now (index_of self.now spot)) }
    {
        match self.run(run).search(texts, text) {
            Ok(at) => Ok(Spot { run, at }),
            Err(at) => Err(Spot { run, at }),
        }
    }

    /// Returns the id at a spot.
    #[inline]
    pub(crate) fn id(&self, spot: Spot) -> usize
        requires { IsAt self.now spot }
        ensures { slice_get (ids_in self.now) (index_of self.now spot) ≡ Some result }
    {
        self.run(spot.run).id(spot.at)
    }

    /// Puts another id in place of the one at a spot, for the same text.
    #[tactic(auto, using(crate::proofs::Spots::ids_renamed, crate::proofs::Owned::runs_known))]
    pub(crate) fn rename(&mut self, spot: Spot, id: usize)
        requires firsts { HaveFirsts (ids_of self.old.starts) self.old.later.items }
        requires at { IsAt self.old spot }
        ensures ids { ids_in self.new ≡ set (ids_in self.old) (index_of self.old spot) id }
        ensures index { (before after : ℕ → List ℕ) → IsIndex before self.old
            → map after (ids_in self.new) ≡ map before (ids_in self.old)
            → IsIndex after self.new }
    {
        self.run_mut(spot.run).rename(spot.at, id);
        if 0 < spot.run && spot.at == 0 {
            self.starts.rename(spot.run - 1, id);
        }
    }
}
