//! Iterators of which a text cannot know how many items will come.
ghost use Rattle.std.specs.Iterator.{at_most};

use inlinable_string::{InlinableString, Storage, StringExt, StringMake};
use test_support::letters::LETTERS_31;
use test_support::{Hoard, NEEDS_THE_PROVED_BUILD};

/// A hundred characters, of which 31 are the letter 'a'.
const MIXED: &str = "abcabcabcabcabcabcabcabcabcabcabcabcabcabcabcabcabcabcabcabc\
    abcabcabcabcabcabcabcabcabcabcabcbbbbbbb";

#[test]
fn filtered_characters_are_added(rt: HostRuntime) {
    let mut text = InlinableString::new(rt.alloc());
    let added = text.extend_chars(MIXED.chars().filter(|ch| *ch == 'a'));
    assert!(&rt; MIXED.chars().count() == 100 && added.is_ok());
    assert!(&rt; text.as_str() == LETTERS_31 && text.storage() == Storage::Heap);
}

/// Some letters 'a'. It keeps the default `size_hint`, which states nothing.
#[derive(Drop)]
struct SomeLetters {
    left: usize,
}

impl Iterator for SomeLetters {
    type Item = char;

    ghost remaining = { λ s. at_most s.left };

    fn next(&mut self) -> Option<char> {
        if self.left == 0 {
            return None;
        }
        self.left -= 1;
        Some('a')
    }
}

#[test]
fn no_hint_of_an_iterator_requests_memory(rt: HostRuntime) {
    let alloc = rt.alloc();
    let mut text = InlinableString::new(alloc);
    let hoard = Hoard::take(alloc).expect(&rt, NEEDS_THE_PROVED_BUILD);
    let added = text.extend_chars(SomeLetters { left: 3 });
    drop(hoard);
    assert!(&rt; added.is_ok() && text.as_str() == "aaa" && text.storage() == Storage::Inline);
}
