//! Going over ids in the order of their texts.
ghost use Rattle.std.specs.Prelude.{◌≡◌, ◌≤◌, ◌<◌, ◌+◌, ◌-◌, ◌^◌, ℕ, [], map, length, slice_index_or, true, false, IfSome, IfNone};
ghost use Rattle.std.specs.Ordering.{is_gt};
ghost use Rattle.inline_uses.specs.Symbols.{IsGap, key_order};
ghost use Rattle.inline_uses.specs.Index.{HaveFirsts, IsAt, IsIndex, IsPlace, IsSpot, ids_at, ids_in, ids_of, index_of, runs_of};

use super::mark::compare_texts;
use super::{Index, Spot, Texts};
use std::cmp::Ordering;

#[tactic(auto, using(crate::proofs::Owned::runs_known))]
impl Index {
    /// Returns the place before all ids.
    pub(crate) fn start(&self) -> Spot
        ensures place { IsPlace self.now result }
        ensures at { index_of self.now result ≡ 0 }
    {
        Spot { run: 0, at: 0 }
    }

    /// Returns the place after all ids.
    #[tactic(auto, using(crate::proofs::Owned::runs_known, crate::proofs::Places::places_known))]
    pub(crate) fn end(&self) -> Spot
        ensures place { IsPlace self.now result }
        ensures at { index_of self.now result ≡ length (ids_in self.now) }
        ensures last { result.at ≡ length (ids_at (runs_of self.now) result.run) }
    {
        let run = self.later.len();
        Spot {
            run,
            at: self.run(run).len(),
        }
    }

    /// Returns the spot after all ids, if a text goes there. This takes a single comparison. Where
    /// there are no ids there is none.
    #[tactic(auto, using(crate::proofs::Owned::runs_known, crate::proofs::Places::places_known))]
    pub(crate) fn end_for<T: Texts>(&self, texts: &T, text: &str) -> Option<Spot>
        requires { IsIndex (T.text_of texts.now) self.now }
        ensures spot { IfSome result (IsSpot self.now) }
        ensures gap { IfSome result (λ spot. IsGap (map (T.text_of texts.now) (ids_in self.now))
            text.now (index_of self.now spot)) }
    {
        let end = self.end();
        let last = self.before(end)?;
        match compare_texts(texts.text(self.id(last)), text) {
            Ordering::Less => Some(end),
            _ => None,
        }
    }

    /// Returns the place before the ids whose texts are not below a text.
    pub(crate) fn place_from<T: Texts>(&self, texts: &T, text: &str) -> Spot
        requires { IsIndex (T.text_of texts.now) self.now }
        ensures place { IsPlace self.now result }
        ensures below { (i : ℕ) → i < index_of self.now result → is_gt (key_order text.now
            (slice_index_or (map (T.text_of texts.now) (ids_in self.now)) i [])) ≡ true }
        ensures above { (i : ℕ) → index_of self.now result ≤ i → i < length (ids_in self.now)
            → is_gt (key_order text.now
            (slice_index_or (map (T.text_of texts.now) (ids_in self.now)) i [])) ≡ false }
    {
        match self.locate(texts, text) {
            Ok(spot) => spot,
            Err(spot) => spot,
        }
    }

    /// Returns the spot of the first id from a place on, if that is before an end.
    #[tactic(auto, using(crate::proofs::Owned::runs_known, crate::proofs::Places::places_known))]
    pub(crate) fn first_in(&self, from: Spot, end: Spot) -> Option<Spot>
        requires firsts { HaveFirsts (ids_of self.now.starts) self.now.later.items }
        requires from { IsPlace self.now from }
        requires end { IsPlace self.now end }
        ensures at { IfSome result (IsAt self.now) }
        ensures same { IfSome result (λ spot. index_of self.now spot ≡ index_of self.now from) }
        ensures before { IfSome result (λ spot. index_of self.now spot < index_of self.now end) }
        ensures none { IfNone result (index_of self.now end ≤ index_of self.now from) }
    {
        let spot = if from.at < self.run(from.run).len() {
            from
        } else if from.run < self.later.len() {
            Spot {
                run: from.run + 1,
                at: 0,
            }
        } else {
            return None;
        };
        if spot.run < end.run || spot.run == end.run && spot.at < end.at {
            Some(spot)
        } else {
            None
        }
    }

    /// Returns the spot of the last id before an end, if that is not before a place.
    #[tactic(auto, using(crate::proofs::Owned::runs_known, crate::proofs::Places::places_known))]
    pub(crate) fn last_in(&self, from: Spot, end: Spot) -> Option<Spot>
        requires firsts { HaveFirsts (ids_of self.now.starts) self.now.later.items }
        requires from { IsPlace self.now from }
        requires end { IsPlace self.now end }
        ensures at { IfSome result (IsAt self.now) }
        ensures same { IfSome result (λ spot. index_of self.now spot + 1 ≡ index_of self.now end) }
        ensures after { IfSome result (λ spot. index_of self.now from ≤ index_of self.now spot) }
        ensures none { IfNone result (index_of self.now end ≤ index_of self.now from) }
    {
        let spot = self.before(end)?;
        if spot.run < from.run || spot.run == from.run && spot.at < from.at {
            None
        } else {
            Some(spot)
        }
    }

    /// Returns the spot of the id before a place, if one is before it.
    #[tactic(auto, using(crate::proofs::Owned::runs_known, crate::proofs::Places::places_known))]
    fn before(&self, place: Spot) -> Option<Spot>
        requires firsts { HaveFirsts (ids_of self.now.starts) self.now.later.items }
        requires place { IsPlace self.now place }
        ensures at { IfSome result (IsAt self.now) }
        ensures same { IfSome result (λ spot. index_of self.now spot + 1
            ≡ index_of self.now place) }
        ensures none { IfNone result (index_of self.now place ≡ 0) }
    {
        if place.at > 0 {
            return Some(Spot {
                run: place.run,
                at: place.at - 1,
            });
        }
        // Only the first run may be empty.
        let run = place.run.checked_sub(1)?;
        let at = self.run(run).len().checked_sub(1)?;
        Some(Spot { run, at })
    }

    /// Returns the place after an id.
    pub(crate) fn after(&self, spot: Spot) -> Spot
        requires { IsAt self.now spot }
        ensures place { IsPlace self.now result }
        ensures at { index_of self.now result ≡ index_of self.now spot + 1 }
    {
        let len = self.run(spot.run).len();
        Spot {
            run: spot.run,
            at: len.min(spot.at.saturating_add(1)),
        }
    }

    /// Returns the number of ids from a place on up to another, 0 if that is not after it.
    #[tactic(auto, using(crate::proofs::Owned::runs_known, crate::proofs::Places::places_known))]
    pub(crate) fn count_between(&self, from: Spot, end: Spot) -> usize
        requires from { IsPlace self.now from }
        requires end { IsPlace self.now end }
        requires fits { length (ids_in self.now) < 2 ^ 64 }
        ensures { result ≡ index_of self.now end - index_of self.now from }
    {
        if end.run < from.run {
            return 0;
        }
        let mut count = end.at;
        for run in from.run..end.run {
            count += self.run(run).len();
        }
        count.saturating_sub(from.at)
    }
}
