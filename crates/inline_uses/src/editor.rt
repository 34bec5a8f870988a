//! A line editor.
ghost use Rattle.std.specs.Prelude.{◌≡◌, ℕ, ◌+◌, ◌≤◌, ◌<◌, ◌↔◌, List, ◌++◌, [], ◌∷◌, length, IsTrue, MatchOption};
ghost use Rattle.inlinable_string.specs.Text.{bytes_of, size};
ghost use Rattle.inlinable_string.specs.Edit.{edit, becomes, yields};
ghost use Rattle.inline_uses.specs.Editor.{Parts, text_of};

use inlinable_string::InlineStringN;
use inlinable_string::laws::{
    cut_decides_places, cuts_are_at_places, cuts_are_cuts_of_bytes, parts_are_told_by_their_size,
    places_are_boundaries, sizes_of_parts, steps_are_over_characters,
};
use inlinable_string::run::Command;
use std::marker::Model;

/// A key that edits does to the line what a command does at the cursor: so a list of keys is a list
/// of commands, and the contract of `run` holds of the line.
pub fn keys_are_commands()
    ensures type_char { (before behind : List ℕ) (ch : ℕ)
        → edit (before ++ behind) (Command.Insert (size before) ch)
        ≡ becomes ((before ++ ch ∷ []) ++ behind) }
    ensures delete { (before behind : List ℕ) (ch : ℕ)
        → edit (before ++ ch ∷ behind) (Command.Remove (size before))
        ≡ yields ch (before ++ behind) }
    ensures backspace { (before behind : List ℕ) (ch : ℕ)
        → edit ((before ++ ch ∷ []) ++ behind) (Command.Remove (size before))
        ≡ yields ch (before ++ behind) }
    ensures kill_to_end { (before behind : List ℕ)
        → edit (before ++ behind) (Command.Truncate (size before)) ≡ becomes before }
{
    parts_are_told_by_their_size();
}

/// A line of at most `N` bytes, and a cursor in it. A contract sees the characters before the
/// cursor and those after it, so no cursor is inside a character.
#[derive(Drop)]
pub struct Line<const N: usize> {
    text: InlineStringN<N>,
    cursor: usize,
}

impl<const N: usize> Model for Line<N> {
    ghost use Rattle.std.specs.Prelude.{IsSome};
    ghost use Rattle.inlinable_string.specs.Text.{cut};
    ghost use Rattle.inline_uses.specs.Editor.{Parts, parts_of};

    ghost Value = { Parts };

    ghost view = { λ s. parts_of (cut s.text s.cursor) };

    ghost invariant = { λ s. IsSome (cut s.text s.cursor) };
}

impl<const N: usize> Line<N> {
    /// Returns the empty line.
    pub fn new() -> Self
        ensures before { result.before ≡ [] }
        ensures behind { result.behind ≡ [] }
    {
        Line {
            text: InlineStringN::new(),
            cursor: 0,
        }
    }

    /// Returns the text of the line.
    pub fn text(&self) -> &str
        ensures { result.now ≡ bytes_of (text_of self.now) }
    {
        cut_decides_places();
        self.text.as_str()
    }

    /// Inserts a character before the cursor. Returns false if the line is full, and then it is
    /// unchanged.
    pub fn type_char(&mut self, ch: char) -> bool
        ensures before { IsTrue result → self.new.before ≡ self.old.before ++ ch ∷ [] }
        ensures behind { self.new.behind ≡ self.old.behind }
        ensures full { ¬ (IsTrue result) → self.new ≡ self.old }
        ensures fits { IsTrue result ↔ (size (text_of self.old) + size (ch ∷ []) ≤ N) }
    {
        cut_decides_places();
        cuts_are_at_places();
        parts_are_told_by_their_size();
        sizes_of_parts();
        match self.text.insert(self.cursor, ch) {
            Ok(()) => {
                self.cursor += ch.len_utf8();
                true
            }
            Err(_) => false,
        }
    }

    /// Removes and returns the character after the cursor.
    pub fn delete(&mut self) -> Option<char>
        ensures taken { MatchOption result
            ((self.old.behind ≡ []) × (self.new.behind ≡ []))
            (λ ch. self.old.behind ≡ ch ∷ self.new.behind) }
        ensures before { self.new.before ≡ self.old.before }
    {
        cut_decides_places();
        cuts_are_at_places();
        places_are_boundaries();
        parts_are_told_by_their_size();
        if self.cursor < self.text.len() {
            Some(self.text.remove(self.cursor))
        } else {
            None
        }
    }

    /// Removes and returns the character before the cursor.
    pub fn backspace(&mut self) -> Option<char>
        ensures taken { MatchOption result
            ((self.old.before ≡ []) × (self.new.before ≡ []))
            (λ ch. self.old.before ≡ self.new.before ++ ch ∷ []) }
        ensures behind { self.new.behind ≡ self.old.behind }
    {
        self.left()?;
        self.delete()
    }

    /// Moves the cursor to the left of one character, and returns that; `None` at the start.
    pub fn left(&mut self) -> Option<char>
        ensures passed { MatchOption result
            ((self.old.before ≡ []) × (self.new.before ≡ []))
            (λ ch. self.old.before ≡ self.new.before ++ ch ∷ []) }
        ensures behind { MatchOption result
            (self.new.behind ≡ self.old.behind)
            (λ ch. self.new.behind ≡ ch ∷ self.old.behind) }
    {
        cut_decides_places();
        cuts_are_at_places();
        cuts_are_cuts_of_bytes();
        places_are_boundaries();
        sizes_of_parts();
        steps_are_over_characters();
        let mut front = self.text.as_str()[..self.cursor].chars();
        let passed = front.next_back()?;
        self.cursor = front.as_str().len();
        Some(passed)
    }

    /// Moves the cursor to the right of one character, and returns that; `None` at the end.
    pub fn right(&mut self) -> Option<char>
        ensures passed { MatchOption result
            ((self.old.behind ≡ []) × (self.new.behind ≡ []))
            (λ ch. self.old.behind ≡ ch ∷ self.new.behind) }
        ensures before { MatchOption result
            (self.new.before ≡ self.old.before)
            (λ ch. self.new.before ≡ self.old.before ++ ch ∷ []) }
    {
        cut_decides_places();
        cuts_are_at_places();
        cuts_are_cuts_of_bytes();
        places_are_boundaries();
        sizes_of_parts();
        steps_are_over_characters();
        let mut rest = self.text.as_str()[self.cursor..].chars();
        let passed = rest.next()?;
        self.cursor = self.text.len() - rest.as_str().len();
        Some(passed)
    }

    /// Removes all characters after the cursor.
    pub fn kill_to_end(&mut self)
        ensures before { self.new.before ≡ self.old.before }
        ensures behind { self.new.behind ≡ [] }
    {
        cut_decides_places();
        cuts_are_at_places();
        self.text.truncate(self.cursor);
    }

    /// Moves the cursor to the start.
    pub fn home(&mut self)
        ensures before { self.new.before ≡ [] }
        ensures behind { self.new.behind ≡ text_of self.old }
    {
        cut_decides_places();
        cuts_are_at_places();
        self.cursor = 0;
    }

    /// Moves the cursor to the end.
    pub fn end(&mut self)
        ensures before { self.new.before ≡ text_of self.old }
        ensures behind { self.new.behind ≡ [] }
    {
        cut_decides_places();
        cuts_are_at_places();
        self.cursor = self.text.len();
    }
}
