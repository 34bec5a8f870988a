//! What takes ids out of a run, puts others in their place, and adds those of another run.
ghost use Rattle.std.specs.Prelude.{◌≡◌, ◌≤◌, ◌<◌, ◌+◌, ◌++◌, ℕ, List, map, length, set, OnOk, OnErr};
ghost use Rattle.std.specs.List.{remove};
ghost use Rattle.std.specs.List.Sorted.{IsStrictlySortedBy};
ghost use Rattle.std.specs.Vec.{vec_len, vec_capacity};
ghost use Rattle.inline_uses.specs.Symbols.{key_order};
ghost use Rattle.inline_uses.specs.Index.{IsOrdered, ids_of};

use super::super::Texts;
use super::super::mark::{Mark, bits_after};
use super::Run;
use std::alloc::AllocError;

#[tactic(auto, using(crate::proofs::Owned::marks_known))]
impl Run {
    /// Removes the id at an index.
    pub(in crate::index) fn remove(&mut self, at: usize)
        requires { at < length (ids_of self.old) }
        ensures ids { ids_of self.new ≡ remove (ids_of self.old) at }
        ensures run { (text_of : ℕ → List ℕ)
            → IsOrdered text_of self.old → IsOrdered text_of self.new }
    {
        let _ = self.marks.remove(at);
    }

    /// Puts the id of a text in place of the one at an index, between the same texts.
    pub(in crate::index) fn replace<T: Texts>(&mut self, texts: &T, at: usize, id: usize)
        requires within { at < length (ids_of self.old) }
        requires run { IsOrdered (T.text_of texts.now) self.old }
        requires sorted { IsStrictlySortedBy key_order
            (map (T.text_of texts.now) (set (ids_of self.old) at id)) }
        ensures ids { ids_of self.new ≡ set (ids_of self.old) at id }
        ensures run { IsOrdered (T.text_of texts.now) self.new }
    {
        let text = texts.text(id).as_bytes();
        let front = self.shared_front(texts, text);
        let bits = bits_after(text, front);
        self.marks[at] = Mark { bits, id };
        if front < self.front {
            self.mark_after(texts, front);
        }
    }

    /// Puts another id in place of the one at an index, for the same text.
    pub(in crate::index) fn rename(&mut self, at: usize, id: usize)
        requires { at < length (ids_of self.old) }
        ensures ids { ids_of self.new ≡ set (ids_of self.old) at id }
        ensures run { (before after : ℕ → List ℕ) → IsOrdered before self.old
            → map after (ids_of self.new) ≡ map before (ids_of self.old)
            → IsOrdered after self.new }
    {
        self.marks[at].id = id;
    }

    /// Appends the ids of another run, whose texts are after all others. Fails only if an
    /// allocation does; the ids are then unchanged.
    pub(in crate::index) fn append<T: Texts>(
        &mut self,
        texts: &T,
        upper: &Run,
    ) -> Result<(), AllocError>
        requires run { IsOrdered (T.text_of texts.now) self.old }
        requires sorted { IsStrictlySortedBy key_order
            (map (T.text_of texts.now) (ids_of self.old ++ ids_of upper.now)) }
        ensures run { IsOrdered (T.text_of texts.now) self.new }
        ensures ok { OnOk result (ids_of self.new ≡ ids_of self.old ++ ids_of upper.now) }
        ensures err { OnErr result (ids_of self.new ≡ ids_of self.old) }
    {
        self.marks.extend_from_slice(upper.marks.as_slice())?;
        self.mark_after(texts, 0);
        self.lengthen_front(texts);
        Ok(())
    }
}
