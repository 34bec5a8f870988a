//! The words, marks and numbers of a row.

use crate::fault::Fault;
use std::alloc::Global;

/// What is left of a row.
#[derive(Drop)]
pub struct RowReader<'a> {
    pub alloc: Global,
    pub rest: &'a str,
}

/// Whether words and numbers are written with this character.
fn is_of_word(ch: char) -> bool {
    ch.is_ascii_alphanumeric() || ch == '_'
}

impl<'a> RowReader<'a> {
    /// Passes over spaces, and the ends of lines that are continued.
    pub fn pass_spaces(&mut self) {
        self.rest = self
            .rest
            .trim_start_matches(|ch: char| ch == ' ' || ch == '\n');
    }

    /// Passes over this mark if it comes next.
    pub fn takes(&mut self, mark: &str) -> bool {
        self.pass_spaces();
        let Some(rest) = self.rest.strip_prefix(mark) else {
            return false;
        };
        self.rest = rest;
        true
    }

    /// Passes over these words if they come next and end there.
    pub fn takes_word(&mut self, words: &str) -> bool {
        self.pass_spaces();
        match self.rest.strip_prefix(words) {
            Some(rest) if !rest.starts_with(is_of_word) => {
                self.rest = rest;
                true
            }
            _ => false,
        }
    }

    /// Returns the next character, spaces too, and passes over it.
    pub fn next_char(&mut self) -> Option<char> {
        let mut chars = self.rest.chars();
        let ch = chars.next()?;
        self.rest = chars.as_str();
        Some(ch)
    }

    /// Returns the word that comes next, which may be empty, and passes over it.
    pub fn word(&mut self) -> &'a str {
        self.pass_spaces();
        let end = self.rest.find(|ch: char| !is_of_word(ch));
        let (word, rest) = end
            .and_then(|end| self.rest.split_at_checked(end))
            .unwrap_or((self.rest, ""));
        self.rest = rest;
        word
    }

    /// Returns the number that comes next: decimal, `max` or `max - 1`.
    pub fn number(&mut self) -> Result<usize, Fault> {
        self.pass_spaces();
        let from = self.rest;
        match self.word() {
            "max" if self.takes("- 1") => Ok(usize::MAX - 1),
            "max" => Ok(usize::MAX),
            word => word.parse().map_err(|_| {
                self.rest = from;
                Fault("not a number")
            }),
        }
    }

    /// Whether a digit comes next.
    pub fn is_at_digit(&mut self) -> bool {
        self.pass_spaces();
        self.rest.starts_with(|ch: char| ch.is_ascii_digit())
    }

    /// Whether this mark comes next.
    pub fn is_at(&mut self, mark: &str) -> bool {
        self.pass_spaces();
        self.rest.starts_with(mark)
    }
}
