//! An index of texts: their ids in the order of the texts, in runs of a bounded length.
//!
//! A search bisects the first ids of the runs, and then one run. A new id moves the ids after it in
//! its run alone, and a run that is full is split. The first run is searched alone until there is
//! another, so a small index is one run.
ghost use Rattle.std.specs.Prelude.{◌≡◌, ◌+◌, ◌^◌, ◌≤◌, ◌<◌, ℕ, length, List, [], map, min, slice_get, Some, IfOk, IfErr, OnOk, OnErr};
ghost use Rattle.std.specs.Borrow.{sem};
ghost use Rattle.std.specs.List.{AllByRecursion, insert};
ghost use Rattle.std.specs.Vec.{vec_len, vec_capacity};
ghost use Rattle.inline_uses.specs.Symbols.{IsGap};
ghost use Rattle.inline_uses.specs.Index.{IsChanged, IsIndex, IsOrdered, IsSplit, IsSpot, LendsRun, ids_at, ids_in, ids_of, index_of, runs_of};
ghost use Rattle.inline_uses.specs.declared.index.TheConstants.{FULL, HALF};

use run::Run;
use std::alloc::{AllocError, Global};

mod mark;
mod places;
mod removal;
mod run;
mod spots;

/// The texts that an index has in order, by their ids.
pub(crate) trait Texts {
    /// The bytes of the text of an id.
    ghost text_of: { Self → ℕ → List ℕ };

    /// Returns the text of an id.
    fn text(&self, id: usize) -> &str
        ensures { result.now ≡ text_of self.now id };
}

/// How many ids a run has at most.
const FULL: usize = 256;

/// How many ids of a full run stay in it when it is split.
const HALF: usize = 128;

/// How many stay in the first run when it is split for an id before all others.
const FEW: usize = 32;

/// Ids in the order of their texts.
#[derive(Drop)]
pub(crate) struct Index {
    first: Run,
    later: Vec<Run>,
    /// The first id of each later run.
    starts: Run,
}

/// Where an id goes: a run, and an index in it.
#[derive(Clone, Copy)]
pub(crate) struct Spot {
    run: usize,
    at: usize,
}

#[tactic(auto, using(crate::proofs::Owned::runs_known))]
impl Index {
    /// Returns the index of no text.
    pub(crate) fn new(alloc: Global) -> Self
        ensures ids { ids_in result ≡ [] }
        ensures index { (text_of : ℕ → List ℕ) → IsIndex text_of result }
    {
        Index {
            first: Run::new(alloc),
            later: Vec::new(alloc),
            starts: Run::new(alloc),
        }
    }

    /// Returns the id of a text, or else where its id goes. Does not allocate.
    #[inline]
    pub(crate) fn find<T: Texts>(&self, texts: &T, text: &str) -> Result<usize, Spot>
        requires { IsIndex (T.text_of texts.now) self.now }
        ensures found { IfOk result (λ id. (at : ℕ)
            × (slice_get (map (T.text_of texts.now) (ids_in self.now)) at ≡ Some text.now)
            × (slice_get (ids_in self.now) at ≡ Some id)) }
        ensures spot { IfErr result (IsSpot self.now) }
        ensures gap { IfErr result (λ spot. IsGap (map (T.text_of texts.now) (ids_in self.now))
            text.now (index_of self.now spot)) }
    {
        if !self.later.is_empty() {
            return self.find_among_runs(texts, text);
        }
        match self.first.search(texts, text) {
            Ok(at) => Ok(self.first.id(at)),
            Err(at) => Err(Spot { run: 0, at }),
        }
    }

    /// Finds a text in an index of several runs.
    #[inline(never)]
    fn find_among_runs<T: Texts>(&self, texts: &T, text: &str) -> Result<usize, Spot>
        requires { IsIndex (T.text_of texts.now) self.now }
        ensures found { IfOk result (λ id. (at : ℕ)
            × (slice_get (map (T.text_of texts.now) (ids_in self.now)) at ≡ Some text.now)
            × (slice_get (ids_in self.now) at ≡ Some id)) }
        ensures spot { IfErr result (IsSpot self.now) }
        ensures gap { IfErr result (λ spot. IsGap (map (T.text_of texts.now) (ids_in self.now))
            text.now (index_of self.now spot)) }
    {
        match self.locate_among_runs(texts, text) {
            Ok(spot) => Ok(self.id(spot)),
            Err(spot) => Err(spot),
        }
    }

    /// Returns the run at an index.
    #[inline]
    fn run(&self, at: usize) -> &Run
        requires { at ≤ length self.now.later.items }
        ensures { slice_get (runs_of self.now) at ≡ Some result.now }
    {
        if at == 0 {
            return &self.first;
        }
        &self.later[at - 1]
    }

    /// Returns the run at an index, to be changed.
    #[inline]
    fn run_mut(&mut self, at: usize) -> &mut Run
        requires { at ≤ length self.old.later.items }
        ensures* writes_back { sem 𝓛 (LendsRun self.entry at result) }
        ensures value { slice_get (runs_of self.old) at ≡ Some result.now }
    {
        if at == 0 {
            return &mut self.first;
        }
        &mut self.later[at - 1]
    }

    /// Reserves memory for this many ids in the first run, or for a full one. Fails only if an
    /// allocation does; the ids are unchanged in either case.
    pub(crate) fn reserve(&mut self, count: usize) -> Result<(), AllocError>
        ensures ids { ids_in self.new ≡ ids_in self.old }
        ensures index { (text_of : ℕ → List ℕ) → IsIndex text_of self.old
            → IsIndex text_of self.new }
        ensures room { OnOk result (vec_len self.new.first.marks + min count FULL
            ≤ vec_capacity self.new.first.marks) }
    {
        self.first.reserve(count.min(FULL))
    }

    /// Inserts the id of a text where it goes. Fails only if an allocation does; the ids are then
    /// unchanged.
    pub(crate) fn insert<T: Texts>(
        &mut self,
        texts: &T,
        spot: Spot,
        id: usize,
    ) -> Result<(), AllocError>
        requires index { IsIndex (T.text_of texts.now) self.old }
        requires spot { IsSpot self.old spot }
        requires gap { IsGap (map (T.text_of texts.now) (ids_in self.old))
            (T.text_of texts.now id) (index_of self.old spot) }
        ensures index { IsIndex (T.text_of texts.now) self.new }
        ensures ok { OnOk result
            (ids_in self.new ≡ insert (ids_in self.old) (index_of self.old spot) id) }
        ensures err { OnErr result (ids_in self.new ≡ ids_in self.old) }
    {
        if self.run(spot.run).len() < FULL {
            return self.insert_at(texts, spot, id);
        }
        let spot = self.split(texts, spot, spot.kept())?;
        self.insert_at(texts, spot, id)
    }

    /// Inserts an id into its run, which is not full. Fails only if an allocation does; the ids are
    /// then unchanged.
    fn insert_at<T: Texts>(&mut self, texts: &T, spot: Spot, id: usize) -> Result<(), AllocError>
        requires room { length (ids_at (runs_of self.old) spot.run) < FULL }
        requires index { IsIndex (T.text_of texts.now) self.old }
        requires spot { IsSpot self.old spot }
        requires gap { IsGap (map (T.text_of texts.now) (ids_in self.old))
            (T.text_of texts.now id) (index_of self.old spot) }
        ensures index { IsIndex (T.text_of texts.now) self.new }
        ensures ok { OnOk result
            (ids_in self.new ≡ insert (ids_in self.old) (index_of self.old spot) id) }
        ensures err { OnErr result (ids_in self.new ≡ ids_in self.old) }
    {
        self.run_mut(spot.run).add(texts, spot.at, id)
    }

    /// Splits the run of a spot, which is full, and returns where the spot is then. Fails only if
    /// an allocation does; the ids are unchanged in either case.
    fn split<T: Texts>(&mut self, texts: &T, spot: Spot, kept: usize) -> Result<Spot, AllocError>
        requires some { 0 < kept }
        requires not_all { kept < FULL }
        requires full { length (ids_at (runs_of self.old) spot.run) ≡ 256 }
        requires index { IsIndex (T.text_of texts.now) self.old }
        requires spot { IsSpot self.old spot }
        ensures index { IsIndex (T.text_of texts.now) self.new }
        ensures ids { ids_in self.new ≡ ids_in self.old }
        ensures room { IfOk result (λ moved. length (ids_at (runs_of self.new) moved.run) < FULL) }
        ensures spot { IfOk result (IsSpot self.new) }
        ensures at { IfOk result (λ moved. index_of self.new moved ≡ index_of self.old spot) }
    {
        self.later.reserve(1)?;
        self.starts.reserve(1)?;
        let upper = self.split_run(texts, spot.run, kept)?;
        self.starts.put(texts, spot.run, upper.id(0));
        insert_run(&mut self.later, spot.run, upper);
        Ok(spot.after_split(kept))
    }

    /// Moves the ids of a full run but this many into a run of their own. Fails only if an
    /// allocation does; the ids are then unchanged.
    fn split_run<T: Texts>(&mut self, texts: &T, at: usize, kept: usize) -> Result<Run, AllocError>
        requires not_all { kept < FULL }
        requires within { at ≤ length self.old.later.items }
        requires runs { AllByRecursion (IsOrdered (T.text_of texts.now)) (runs_of self.old) }
        requires full { length (ids_at (runs_of self.old) at) ≡ 256 }
        ensures len { vec_len self.new.later ≡ vec_len self.old.later }
        ensures capacity { vec_capacity self.new.later ≡ vec_capacity self.old.later }
        ensures starts { self.new.starts ≡ self.old.starts }
        ensures ok { IfOk result (IsSplit (T.text_of texts.now) self.old self.new at kept) }
        ensures err { OnErr result
            (IsChanged (T.text_of texts.now) self.old self.new at (λ ids. ids)) }
    {
        self.run_mut(at).split(texts, kept)
    }

    /// Returns the ids in the order of their texts, in a row with room for this many. Fails only if
    /// an allocation does.
    #[tactic(auto, using(crate::proofs::Owned::appended))]
    pub(crate) fn ids(&self, alloc: Global, count: usize) -> Result<Vec<usize>, AllocError>
        ensures { IfOk result (λ ids. ids.items ≡ ids_in self.now) }
    {
        let mut ids = Vec::with_capacity(alloc, count)?;
        self.first.append_to(&mut ids)?;
        for run in self.later.iter() {
            run.append_to(&mut ids)?;
        }
        Ok(ids)
    }
}

/// Inserts a run. There must be room for it.
fn insert_run(runs: &mut Vec<Run>, at: usize, run: Run)
    requires room { vec_len runs.old < vec_capacity runs.old }
    requires within { at ≤ vec_len runs.old }
    ensures { runs.new.items ≡ insert runs.old.items at run }
{
    let _ = runs.insert(at, run);
}

impl Spot {
    /// Returns how many ids a full run keeps when it is split for an id that goes here: half of
    /// them, but few where that goes before all others. Ids in falling order all go there, and the
    /// shorter the first run is, the fewer ids they move.
    fn kept(self) -> usize
        ensures least { 0 < result }
        ensures first { self.run ≡ 0 → self.at ≡ 0 → result ≡ 32 }
        ensures other { (self.run ≡ 0 → 0 < self.at) → result + result ≡ FULL }
    {
        if self.run == 0 && self.at == 0 {
            return FEW;
        }
        HALF
    }

    /// Returns where a spot of a run is after the run is split, and keeps this many ids.
    fn after_split(self, kept: usize) -> Spot
        requires { self.run + 1 < 2 ^ 64 }
        ensures lower { self.at ≤ kept → result ≡ self }
        ensures upper { kept < self.at
            → (result.run ≡ self.run + 1) × (result.at + kept ≡ self.at) }
    {
        if self.at <= kept {
            return self;
        }
        Spot {
            run: self.run + 1,
            at: self.at - kept,
        }
    }
}
