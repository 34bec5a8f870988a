//! The words of a text: how often each is used, and where first.
ghost use Rattle.std.specs.Prelude.{◌≡◌, ◌-◌, ◌^◌, List, [], ℕ, map, IfOk, IsOk, IsSome, OnOk, OnErr};
ghost use Rattle.std.specs.List.Sorted.{IsPermutation, IsNonDecreasingBy};
ghost use Rattle.word_index.specs.Index.{use_of, with_use, used, with_words, shown, AreWords};

use inlinable_string::InlinableString;
use inline_uses::text_map::TextMap;
use std::alloc::{AllocError, Global};
use std::marker::Model;

/// How often a word is used, and the number of the line of its first use.
#[derive(Clone, Copy, Debug, PartialEq, Eq)]
pub struct Uses {
    pub count: usize,
    pub line: usize,
}

/// The words of a text with their uses. A contract sees the list of them, each word as its bytes,
/// in the order of the words.
#[derive(Drop)]
pub struct Index {
    words: TextMap<Uses>,
}

impl Model for Index {
    ghost use Rattle.word_index.specs.Index.{Entries, entries_of};

    ghost Value = { Entries };

    ghost view = { entries_of };
}

impl Index {
    /// The index of no words.
    pub fn new(alloc: Global) -> Self
        ensures { result ≡ [] }
    {
        Index {
            words: TextMap::new(alloc),
        }
    }

    /// Counts each word of a line, and keeps the line's number for those that are new. If an
    /// allocation fails, some words of the line are counted and others are not.
    pub fn add_line(&mut self, line: &str, number: usize) -> Result<(), AllocError>
        ensures { OnOk result ((words : List (List ℕ)) × AreWords line.now words
            × (self.new ≡ with_words self.old words number)) }
    {
        for word in line.split_whitespace() {
            self.add(word, number)?;
        }
        Ok(())
    }

    /// Counts one use of a word. This cannot fail if the word is known. If an allocation fails,
    /// nothing changes.
    pub fn add(&mut self, word: &str, line: usize) -> Result<(), AllocError>
        ensures ok { OnOk result
            (self.new ≡ with_use self.old word.now (used (use_of self.old word.now) line)) }
        ensures known { IsSome (use_of self.old word.now) → IsOk result }
        ensures err { OnErr result (self.new ≡ self.old) }
    {
        let uses = self.words.get_or_put(word, Uses { count: 0, line })?;
        uses.count = uses.count.saturating_add(1);
        Ok(())
    }

    /// The words with their uses, the most frequent first; of those that are used equally often
    /// the lesser first.
    pub fn ranked(&self, alloc: Global) -> Result<Vec<(&InlinableString, Uses)>, AllocError>
        ensures words { IfOk result (λ ranked. IsPermutation self.now (map shown ranked.items)) }
        ensures order { IfOk result (λ ranked.
            IsNonDecreasingBy (λ e. 2 ^ 64 - 1 - e.1.count) ranked.items) }
    {
        let mut ranked = Vec::with_capacity(alloc, self.words.len())?;
        for (word, uses) in self.words.iter() {
            ranked.push((word, *uses))?;
        }
        ranked.sort_by_key(|entry: &(&InlinableString, Uses)| usize::MAX - entry.1.count)?;
        Ok(ranked)
    }
}
