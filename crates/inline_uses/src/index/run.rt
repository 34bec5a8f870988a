//! A run of ids in the order of their texts, whose first bytes are the same.
ghost use Rattle.std.specs.Prelude.{◌≡◌, ◌≤◌, ◌<◌, ◌+◌, ◌++◌, ℕ, min, max, List, [], map, take, drop, length, slice_get, Some, IfOk, IfErr, OnOk, OnErr};
ghost use Rattle.std.specs.List.{AllByRecursion, insert};
ghost use Rattle.std.specs.List.Sorted.{IsStrictlySortedBy};
ghost use Rattle.std.specs.Vec.{vec_len, vec_capacity};
ghost use Rattle.inline_uses.specs.Symbols.{IsGap, key_order};
ghost use Rattle.inline_uses.specs.Index.{IsOrdered, IsShared, Lengthens, common, compare_fronts, first_front, ids_of, longest_front};

mod edits;

use super::Texts;
use super::mark::{Mark, bits_after, compare, compare_bytes, compare_texts};
use std::alloc::{AllocError, Global};
use std::cmp::Ordering;

/// With fewer ids a longer front saves no more than it costs.
const MARKED_LEN: usize = 4;

/// How long the front is at most, so that what all texts have in common is found in bounded time
/// whatever their length.
const LONGEST: usize = 256;

/// A front is shortened to a multiple of this, so sixteen times at most before it is lengthened
/// again.
const STEP: usize = 16;

/// Ids in the order of their texts, each beside the bytes of its text after the first `front`. All
/// texts have these in common.
#[derive(Drop)]
pub(super) struct Run {
    front: usize,
    marks: Vec<Mark>,
}

#[tactic(auto, using(crate::proofs::Owned::marks_known))]
impl Run {
    /// Returns the run of no id.
    pub(super) fn new(alloc: Global) -> Self
        ensures ids { ids_of result ≡ [] }
        ensures run { (text_of : ℕ → List ℕ) → IsOrdered text_of result }
    {
        Run {
            front: 0,
            marks: Vec::new(alloc),
        }
    }

    /// Returns the number of ids.
    pub(super) fn len(&self) -> usize
        ensures { result ≡ length (ids_of self.now) }
    {
        self.marks.len()
    }

    /// Returns the id at an index.
    pub(super) fn id(&self, at: usize) -> usize
        requires { at < length (ids_of self.now) }
        ensures { slice_get (ids_of self.now) at ≡ Some result }
    {
        self.marks[at].id
    }

    /// Reserves memory for this many more ids.
    pub(super) fn reserve(&mut self, additional: usize) -> Result<(), AllocError>
        ensures ids { ids_of self.new ≡ ids_of self.old }
        ensures run { (text_of : ℕ → List ℕ)
            → IsOrdered text_of self.old → IsOrdered text_of self.new }
        ensures room { OnOk result
            (vec_len self.new.marks + additional ≤ vec_capacity self.new.marks) }
    {
        self.marks.reserve(additional)
    }

    /// Returns the index of a text's id, or the one at which it goes. Does not allocate.
    #[inline]
    pub(super) fn search<T: Texts>(&self, texts: &T, text: &str) -> Result<usize, usize>
        requires { IsOrdered (T.text_of texts.now) self.now }
        ensures found { IfOk result (λ at.
            slice_get (map (T.text_of texts.now) (ids_of self.now)) at ≡ Some text.now) }
        ensures gap { IfErr result (IsGap (map (T.text_of texts.now) (ids_of self.now)) text.now) }
    {
        if self.marks.len() < MARKED_LEN {
            return self.search_few(texts, text);
        }
        self.search_many(texts, text)
    }

    /// Searches many ids. The marks decide among texts that begin as the text does, so whether it
    /// does is asked only if it is none of them.
    #[inline(never)]
    fn search_many<T: Texts>(&self, texts: &T, text: &str) -> Result<usize, usize>
        requires { IsOrdered (T.text_of texts.now) self.now }
        ensures found { IfOk result (λ at.
            slice_get (map (T.text_of texts.now) (ids_of self.now)) at ≡ Some text.now) }
        ensures gap { IfErr result (IsGap (map (T.text_of texts.now) (ids_of self.now)) text.now) }
    {
        let bits = bits_after(text.as_bytes(), self.front);
        let mut start = 0;
        let mut end = self.marks.len();
        while start < end {
            let middle = start + (end - start) / 2;
            match compare(texts, &self.marks[middle], bits, text) {
                Ordering::Less => start = middle + 1,
                Ordering::Equal => return Ok(middle),
                Ordering::Greater => end = middle,
            }
        }
        match self.compare_front(texts, text) {
            Ordering::Less => Err(self.marks.len()),
            Ordering::Equal => Err(start),
            Ordering::Greater => Err(0),
        }
    }

    /// Searches few ids, by their texts alone.
    #[inline]
    fn search_few<T: Texts>(&self, texts: &T, text: &str) -> Result<usize, usize>
        requires { IsOrdered (T.text_of texts.now) self.now }
        ensures found { IfOk result (λ at.
            slice_get (map (T.text_of texts.now) (ids_of self.now)) at ≡ Some text.now) }
        ensures gap { IfErr result (IsGap (map (T.text_of texts.now) (ids_of self.now)) text.now) }
    {
        for at in 0..self.marks.len() {
            match compare_texts(texts.text(self.marks[at].id), text) {
                Ordering::Less => {}
                Ordering::Equal => return Ok(at),
                Ordering::Greater => return Err(at),
            }
        }
        Err(self.marks.len())
    }

    /// Returns how the bytes that the texts have in common compare to the front of a text.
    fn compare_front<T: Texts>(&self, texts: &T, text: &str) -> Ordering
        ensures { result ≡ compare_fronts self.now.front
            (map (T.text_of texts.now) (ids_of self.now)) text.now }
    {
        let Some(first) = self.marks.first() else {
            return Ordering::Equal;
        };
        if self.front == 0 {
            return Ordering::Equal;
        }
        let known = front_of(texts.text(first.id).as_bytes(), self.front);
        compare_bytes(known, front_of(text.as_bytes(), self.front))
    }

    /// Inserts the id of a text at the index at which it goes. Fails only if an allocation does;
    /// the ids are then unchanged.
    pub(super) fn add<T: Texts>(
        &mut self,
        texts: &T,
        at: usize,
        id: usize,
    ) -> Result<(), AllocError>
        requires run { IsOrdered (T.text_of texts.now) self.old }
        requires gap { IsGap (map (T.text_of texts.now) (ids_of self.old))
            (T.text_of texts.now id) at }
        ensures run { IsOrdered (T.text_of texts.now) self.new }
        ensures ok { OnOk result (ids_of self.new ≡ insert (ids_of self.old) at id) }
        ensures err { OnErr result (ids_of self.new ≡ ids_of self.old) }
    {
        self.reserve(1)?;
        self.put(texts, at, id);
        Ok(())
    }

    /// Inserts the id of a text at the index at which it goes. There must be room for it. Whenever
    /// the ids are many, and their number is a power of two, the front is lengthened: so it stays
    /// long, and each id pays for a bounded part of that, and of what shortens it until then.
    pub(super) fn put<T: Texts>(&mut self, texts: &T, at: usize, id: usize)
        requires room { vec_len self.old.marks < vec_capacity self.old.marks }
        requires run { IsOrdered (T.text_of texts.now) self.old }
        requires gap { IsGap (map (T.text_of texts.now) (ids_of self.old))
            (T.text_of texts.now id) at }
        ensures ids { ids_of self.new ≡ insert (ids_of self.old) at id }
        ensures run { IsOrdered (T.text_of texts.now) self.new }
        ensures lengthened { Lengthens (length (ids_of self.new))
            → longest_front (T.text_of texts.now) (ids_of self.new) ≤ self.new.front }
        ensures kept { ¬ Lengthens (length (ids_of self.new))
            → self.new.front ≤ self.old.front }
    {
        self.insert(texts, at, id);
        if MARKED_LEN <= self.len() && self.len().is_power_of_two() {
            self.lengthen_front(texts);
        }
    }

    /// Inserts the id of a text, after which the front is what this text has of it too.
    fn insert<T: Texts>(&mut self, texts: &T, at: usize, id: usize)
        requires room { vec_len self.old.marks < vec_capacity self.old.marks }
        requires run { IsOrdered (T.text_of texts.now) self.old }
        requires gap { IsGap (map (T.text_of texts.now) (ids_of self.old))
            (T.text_of texts.now id) at }
        ensures ids { ids_of self.new ≡ insert (ids_of self.old) at id }
        ensures run { IsOrdered (T.text_of texts.now) self.new }
        ensures most { self.new.front ≤ self.old.front }
        ensures least { (first : ℕ) → slice_get (ids_of self.old) 0 ≡ Some first
            → min self.old.front (common (T.text_of texts.now first) (T.text_of texts.now id))
            < self.new.front + 16 }
    {
        let text = texts.text(id).as_bytes();
        let front = self.shared_front(texts, text);
        let bits = bits_after(text, front);
        self.insert_mark(at, Mark { bits, id });
        if front < self.front {
            self.mark_after(texts, front);
        }
    }

    /// Inserts a mark. There must be room for it.
    fn insert_mark(&mut self, at: usize, mark: Mark)
        requires room { vec_len self.old.marks < vec_capacity self.old.marks }
        requires within { at ≤ length self.old.marks.items }
        ensures front { self.new.front ≡ self.old.front }
        ensures marks { self.new.marks.items ≡ insert self.old.marks.items at mark }
    {
        // Those after it move as one block, which `Vec::insert` moves one after the other.
        let len = self.marks.len();
        let _ = self.marks.push(mark);
        self.marks.copy_within(at..len, at + 1);
        self.marks[at] = mark;
    }

    /// Returns how much of the front a text has too: all of it, or else full steps.
    #[inline(always)]
    fn shared_front<T: Texts>(&self, texts: &T, text: &[u8]) -> usize
        ensures most { result ≤ self.now.front }
        ensures shared { IsShared result text.now (map (T.text_of texts.now) (ids_of self.now)) }
        ensures least { (first : ℕ) → slice_get (ids_of self.now) 0 ≡ Some first
            → min self.now.front (common (T.text_of texts.now first) text.now) < result + 16 }
    {
        let Some(first) = self.marks.first() else {
            return self.front;
        };
        if self.front == 0 {
            return 0;
        }
        let known = texts.text(first.id).as_bytes();
        if front_of(known, self.front) == front_of(text, self.front) {
            return self.front;
        }
        shared_steps(known, text, self.front)
    }

    /// Moves the ids from `at` on into a run of their own. Fails only if an allocation does; the
    /// ids are then unchanged.
    pub(super) fn split<T: Texts>(&mut self, texts: &T, at: usize) -> Result<Run, AllocError>
        requires run { IsOrdered (T.text_of texts.now) self.old }
        requires within { at ≤ length (ids_of self.old) }
        ensures lower { OnOk result (ids_of self.new ≡ take at (ids_of self.old)) }
        ensures upper { IfOk result (λ upper. ids_of upper ≡ drop at (ids_of self.old)) }
        ensures run { IsOrdered (T.text_of texts.now) self.new }
        ensures upper_run { IfOk result (IsOrdered (T.text_of texts.now)) }
        ensures err { OnErr result (ids_of self.new ≡ ids_of self.old) }
        ensures front { OnOk result
            (longest_front (T.text_of texts.now) (ids_of self.new) ≤ self.new.front) }
        ensures upper_front { IfOk result (λ upper.
            longest_front (T.text_of texts.now) (ids_of upper) ≤ upper.front) }
    {
        let marks = self.marks.split_off(at)?;
        let mut upper = Run {
            front: self.front,
            marks,
        };
        self.lengthen_front(texts);
        upper.lengthen_front(texts);
        Ok(upper)
    }

    /// Makes the front as long as the texts allow, up to the longest.
    fn lengthen_front<T: Texts>(&mut self, texts: &T)
        requires { IsOrdered (T.text_of texts.now) self.old }
        ensures ids { ids_of self.new ≡ ids_of self.old }
        ensures run { IsOrdered (T.text_of texts.now) self.new }
        ensures front { self.new.front
            ≡ max self.old.front (longest_front (T.text_of texts.now) (ids_of self.old)) }
    {
        let (Some(first), Some(last)) = (self.marks.first(), self.marks.last()) else {
            return;
        };
        let known = texts.text(first.id).as_bytes();
        let other = texts.text(last.id).as_bytes();
        let front = shared_len(known, other, self.front, LONGEST);
        if self.front < front {
            self.mark_after(texts, front);
        }
    }

    /// Marks each id by the bytes of its text after the first `front`, which all have in common.
    fn mark_after<T: Texts>(&mut self, texts: &T, front: usize)
        requires sorted { IsStrictlySortedBy key_order
            (map (T.text_of texts.now) (ids_of self.old)) }
        requires shared { AllByRecursion (λ text. take front text
            ≡ first_front front (map (T.text_of texts.now) (ids_of self.old)))
            (map (T.text_of texts.now) (ids_of self.old)) }
        ensures ids { ids_of self.new ≡ ids_of self.old }
        ensures run { IsOrdered (T.text_of texts.now) self.new }
        ensures front { self.new.front ≡ front }
    {
        self.front = front;
        for i in 0..self.marks.len() {
            let id = self.marks[i].id;
            let bits = bits_after(texts.text(id).as_bytes(), front);
            self.marks[i] = Mark { bits, id };
        }
    }

    /// Appends the ids in the order of their texts. Fails only if an allocation does.
    #[tactic(auto, using(crate::proofs::Owned::appended))]
    pub(super) fn append_to(&self, ids: &mut Vec<usize>) -> Result<(), AllocError>
        ensures { OnOk result (ids.new.items ≡ ids.old.items ++ ids_of self.now) }
    {
        for mark in self.marks.iter() {
            ids.push(mark.id)?;
        }
        Ok(())
    }
}

/// Returns the first `len` bytes, or all if there are fewer.
fn front_of(bytes: &[u8], len: usize) -> &[u8]
    ensures { result.now ≡ take len bytes.now }
{
    &bytes[..len.min(bytes.len())]
}

/// Returns how many bytes both have in common at the front, at most `most`, if they have the first
/// `known` in common.
#[tactic(auto, using(crate::proofs::RunFronts::common_known))]
fn shared_len(one: &[u8], other: &[u8], known: usize, most: usize) -> usize
    requires { take known one.now ≡ take known other.now }
    ensures shared { take result one.now ≡ take result other.now }
    ensures longest { result ≡ min most (common one.now other.now) }
{
    let end = most.min(one.len()).min(other.len());
    for at in known.min(end)..end {
        if one[at] != other[at] {
            return at;
        }
    }
    end
}

/// Returns how many bytes both have in common at the front, at most `most`, in full steps. What is
/// shorter by little is found first.
fn shared_steps(one: &[u8], other: &[u8], most: usize) -> usize
    ensures most { result ≤ most }
    ensures shared { take result one.now ≡ take result other.now }
    ensures least { min most (common one.now other.now) < result + 16 }
{
    let mut front = most - most % STEP;
    while front_of(one, front) != front_of(other, front) {
        front -= STEP;
    }
    front
}
