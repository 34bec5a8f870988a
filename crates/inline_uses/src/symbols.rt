//! A symbol table: each text has an id, and each id its text.
ghost use Rattle.std.specs.Prelude.{◌≡◌, ℕ, ◌↔◌, List, [], ◌∷◌, ◌++◌, map, length, slice_get, Some, Ok, IfOk, IfErr, OnErr, OnOk, IsTrue, option_copied};
ghost use Rattle.std.specs.Map.{keys_of};
ghost use Rattle.std.specs.List.{range_with_len};
ghost use Rattle.std.specs.List.Sorted.{IsPermutation, IsStrictlySortedBy};
ghost use Rattle.std.specs.Borrow.{Bor};
ghost use Rattle.std.specs.Iterator.{IsFinite};
ghost use Rattle.std.specs.Iterator.Runs.{SomeRun, WholeRun};
ghost use Rattle.inline_uses.specs.Symbols.{IsGap, HasAppended, HasAppendedAllButLast, bytes_at, key_order, text_at, with_ids};

use crate::index::{Index, Texts};
use inlinable_string::laws::bytes_of_parts;
use inlinable_string::{InlinableString, StringExt};
use std::alloc::{AllocError, Global};
use std::marker::Model;

/// Texts with their ids: a new text gets the number of those before it. Each is stored once, beside
/// an index of the ids in the order of their texts. A search takes a number of comparisons that is
/// logarithmic in the number of texts, whatever they are, since nothing is hashed. A new text moves
/// the ids of at most 255 others; now and then it splits their run, which moves the runs after it,
/// or goes over the texts of the run. A contract sees the list of the texts, each as its bytes.
#[derive(Drop)]
pub struct Symbols {
    alloc: Global,
    texts: Vec<InlinableString>,
    order: Index,
}

impl Model for Symbols {
    ghost use Rattle.std.specs.Prelude.{ℕ, List};

    ghost Value = { List (List ℕ) };

    ghost use Rattle.inline_uses.specs.Symbols.{texts_of, IsIndexed};

    ghost view = { texts_of };

    ghost invariant = { IsIndexed };
}

impl Symbols {
    /// Returns the table of no text.
    pub fn new(alloc: Global) -> Self
        ensures { result ≡ [] }
    {
        Symbols {
            alloc,
            texts: Vec::new(alloc),
            order: Index::new(alloc),
        }
    }

    /// Returns the number of texts that have an id.
    pub fn len(&self) -> usize
        ensures count { result ≡ length self.now }
        ensures once { (i j : ℕ) (text : List ℕ)
            → slice_get self.now i ≡ Some text → slice_get self.now j ≡ Some text → i ≡ j }
    {
        self.texts.len()
    }

    /// Returns the id of a text, if it has one. Cannot fail, whatever the text's length.
    pub fn find(&self, text: &str) -> Option<usize>
        ensures { (id : ℕ) → (result ≡ Some id) ↔ (slice_get self.now id ≡ Some text.now) }
    {
        match self.order.find(&self.texts, text) {
            Ok(id) => Some(id),
            Err(_) => None,
        }
    }

    /// Returns the text of an id.
    pub fn text(&self, id: usize) -> Option<&str>
        ensures { option_copied result ≡ slice_get self.now id }
    {
        let text = self.texts.get(id)?;
        Some(text.as_str())
    }

    /// Returns the id of a text, which gets the next one if it has none. Cannot fail if the text
    /// has one, whatever its length; after a failure the table is unchanged.
    pub fn intern(&mut self, text: &str) -> Result<usize, AllocError>
        ensures id { IfOk result (λ id. slice_get self.new id ≡ Some text.now) }
        ensures known { (id : ℕ) → slice_get self.old id ≡ Some text.now
            → (self.new ≡ self.old) × (result ≡ Ok id) }
        ensures new { OnOk result (((i : ℕ) → ¬ (slice_get self.old i ≡ Some text.now))
            → self.new ≡ self.old ++ text.now ∷ []) }
        ensures kept { (i : ℕ) (known : List ℕ) → slice_get self.old i ≡ Some known
            → slice_get self.new i ≡ Some known }
        ensures err { OnErr result (self.new ≡ self.old) }
    {
        bytes_of_parts();
        match self.order.find(&self.texts, text) {
            Ok(id) => Ok(id),
            Err(spot) => {
                let id = self.texts.len();
                let text = InlinableString::from(self.alloc, text)?;
                self.texts.push(text)?;
                match self.order.insert(&self.texts, spot, id) {
                    Ok(()) => Ok(id),
                    Err(error) => {
                        self.texts.truncate(id);
                        Err(error)
                    }
                }
            }
        }
    }

    /// Gives an id to each text of an iterator that ends, as [`Symbols::intern`] does, and appends
    /// the ids to `ids` in the order of the texts. Fails only if an allocation does; then `ids` has
    /// those of the texts before the one that failed.
    pub fn intern_all<'a, I: Iterator<Item = &'a str>>(
        &mut self,
        items: I,
        ids: &mut Vec<usize>,
    ) -> Result<(), AllocError>
        requires can { I.can_next items }
        requires ends { IsFinite (I.remaining items) }
        ensures ids { OnOk result (WholeRun I.next_gives items
            (λ run. HasAppended self.new ids.old.items run.items ids.new.items)) }
        ensures err { OnErr result (SomeRun I.next_gives items
            (λ run. HasAppendedAllButLast self.new ids.old.items run.items ids.new.items)) }
        ensures kept { (i : ℕ) (known : List ℕ) → slice_get self.old i ≡ Some known
            → slice_get self.new i ≡ Some known }
    {
        for text in items {
            self.intern_next(text, ids)?;
        }
        Ok(())
    }

    /// Interns a text, and appends its id. The prover knows a `&str` to be UTF-8 only as a
    /// parameter, not out of an iterator.
    fn intern_next(&mut self, text: &str, ids: &mut Vec<usize>) -> Result<(), AllocError>
        ensures id { OnOk result ((id : ℕ) × (slice_get self.new id ≡ Some text.now)
            × (ids.new.items ≡ ids.old.items ++ id ∷ [])) }
        ensures err { OnErr result (ids.new.items ≡ ids.old.items) }
        ensures kept { (i : ℕ) (known : List ℕ) → slice_get self.old i ≡ Some known
            → slice_get self.new i ≡ Some known }
    {
        let id = self.intern(text)?;
        ids.push(id)?;
        Ok(())
    }

    /// Returns the texts by their ids.
    pub fn texts(&self) -> &[InlinableString]
        ensures { map bytes_at result.now ≡ self.now }
    {
        self.texts.as_slice()
    }

    /// Returns all ids in the order of their texts, with one request for memory. Fails only if an
    /// allocation does.
    pub fn ids_in_order(&self, alloc: Global) -> Result<Vec<usize>, AllocError>
        ensures ids { IfOk result (λ ids.
            IsPermutation (range_with_len 0 (length self.now)) ids.items) }
        ensures order { IfOk result (λ ids.
            IsStrictlySortedBy key_order (map (text_at self.now) ids.items)) }
    {
        self.order.ids(alloc, self.texts.len())
    }
}

/// The texts by their ids. An id that has none is given the empty text.
impl Texts for Vec<InlinableString> {
    ghost text_of = { λ texts id. text_at (map bytes_at texts.items) id };

    fn text(&self, id: usize) -> &str {
        match self.get(id) {
            Some(text) => text.as_str(),
            None => "",
        }
    }
}

/// Returns whether both texts have an id, and the same: exactly if they are equal and known. Cannot
/// fail, and gives neither an id.
pub fn have_same_id(symbols: &Symbols, one: &str, other: &str) -> bool
    ensures { IsTrue result
        ↔ ((one.now ≡ other.now) × ((id : ℕ) × (slice_get symbols.now id ≡ Some one.now))) }
{
    match (symbols.find(one), symbols.find(other)) {
        (Some(first), Some(second)) => first == second,
        _ => false,
    }
}
