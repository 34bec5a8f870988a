//! The requests of a symbol table.
use super::Start::{Rising, Two};
use super::{Call, GREATEST, LEAST, SHORT, Start, UNKNOWN, assert_requests};
use crate::names::name;
use SymbolsCall::{Find, FindMany, Ids, Intern, InternAll, Known, Same, Text};
use inline_uses::symbols::{Symbols, have_same_id};
use std::alloc::{AllocError, Global};
use std::test::Fail;
use test_support::letters::LETTERS_31;

/// What is called. Each look-up is given a text of another length that has no id.
#[derive(Clone, Copy)]
enum SymbolsCall {
    Intern(&'static str),
    InternAll,
    Known,
    Find,
    FindMany,
    Same,
    Text,
    Ids,
}

impl Call for SymbolsCall {
    type Subject = Symbols;

    fn subject(alloc: Global, start: Start) -> Result<Symbols, AllocError> {
        let mut symbols = Symbols::new(alloc);
        for turn in 0..start.len() {
            symbols.intern(start.text(turn).as_str())?;
        }
        Ok(symbols)
    }

    fn make(self, alloc: Global, symbols: &mut Symbols) -> Result<bool, AllocError> {
        let is_right = match self {
            Intern(text) => symbols.intern(text)? < symbols.len(),
            InternAll => {
                let mut ids = Vec::new(alloc);
                symbols.intern_all([SHORT, UNKNOWN].iter().copied(), &mut ids)?;
                ids.len() == 2 && symbols.len() == 3
            }
            Known => symbols.intern(SHORT)? == 0 && symbols.intern(LETTERS_31)? == 1,
            Find => symbols.find(LETTERS_31).is_some() && symbols.find("abc").is_none(),
            FindMany => are_found(symbols) && symbols.find("abcd").is_none(),
            Same => have_same_id(symbols, SHORT, SHORT) && !have_same_id(symbols, SHORT, "symbols"),
            Text => symbols.text(1).is_some() && symbols.find("").is_none(),
            Ids => symbols.ids_in_order(alloc)?.len() == symbols.texts().len(),
        };
        Ok(is_right)
    }
}

/// Whether each number is found by its text.
fn are_found(symbols: &Symbols) -> bool {
    (0..symbols.len()).all(|id| symbols.find(name(id).as_str()).is_some())
}

/// The texts, and the marks of the first run.
#[test]
fn the_first_text(rt: HostRuntime) -> Result<(), Fail> {
    assert_requests(&rt, Rising(0), 0, Intern(GREATEST), 2)
}

/// There is room for four texts, and for four marks.
#[test]
fn a_later_text(rt: HostRuntime) -> Result<(), Fail> {
    assert_requests(&rt, Rising(3), 2, Intern(LEAST), 0)
}

/// The text is on the heap, and there is no room for a fifth text nor a fifth mark.
#[test]
fn a_long_fifth_text(rt: HostRuntime) -> Result<(), Fail> {
    assert_requests(&rt, Rising(4), 2, Intern(LETTERS_31), 3)
}

/// 256 texts request room for texts seven times, from 4 to 256, and as often for marks. The next
/// requests more for texts, and splits the run: that requests room for later runs, for the first
/// ids of these, and for the marks of the second run. What stays in the first run keeps its room.
#[test]
fn a_text_that_splits_a_run(rt: HostRuntime) -> Result<(), Fail> {
    assert_requests(&rt, Rising(256), 14, Intern(LEAST), 4)
}

/// The upper half is given room for its 128 ids alone, so one more requests some.
#[test]
fn a_text_that_splits_a_run_and_is_in_its_upper_half(rt: HostRuntime) -> Result<(), Fail> {
    assert_requests(&rt, Rising(256), 14, Intern(GREATEST), 5)
}

/// Once the run is split, 128 texts at its end make the second run a full one. There is room for
/// 512 texts, for four later runs and for their first ids, so only the marks of the upper half
/// request some, and once more for the new text.
#[test]
fn a_text_that_splits_the_second_run(rt: HostRuntime) -> Result<(), Fail> {
    assert_requests(&rt, Rising(384), 14 + 5, Intern(GREATEST), 2)
}

/// Two texts request room for texts, for marks, and for the long text.
#[test]
fn intern_a_known_text(rt: HostRuntime) -> Result<(), Fail> {
    assert_requests(&rt, Two, 3, Known, 0)
}

/// Two ids request room once, and the new text, which is on the heap. There is room for a third.
#[test]
fn intern_a_known_text_and_a_new_one(rt: HostRuntime) -> Result<(), Fail> {
    assert_requests(&rt, Two, 3, InternAll, 2)
}

#[test]
fn find(rt: HostRuntime) -> Result<(), Fail> {
    assert_requests(&rt, Two, 3, Find, 0)
}

#[test]
fn find_among_many(rt: HostRuntime) -> Result<(), Fail> {
    assert_requests(&rt, Rising(384), 14 + 5, FindMany, 0)
}

#[test]
fn have_the_same_id(rt: HostRuntime) -> Result<(), Fail> {
    assert_requests(&rt, Two, 3, Same, 0)
}

#[test]
fn text_and_an_unknown_empty_one(rt: HostRuntime) -> Result<(), Fail> {
    assert_requests(&rt, Two, 3, Text, 0)
}

#[test]
fn ids_in_order(rt: HostRuntime) -> Result<(), Fail> {
    assert_requests(&rt, Rising(384), 14 + 5, Ids, 1)
}
