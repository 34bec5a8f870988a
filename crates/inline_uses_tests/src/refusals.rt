//! The requests for memory of each call, failing in turn, by `rt try --test --fail-alloc N`, which
//! fails the Nth of each test. A test passes whichever fails, and says whether one did and how many
//! there are by its row. Each makes 24 requests before its call, and one at its end. `.ci/gate
//! refusals` builds them once, to fail the 25th, with each test once for each request of its call
//! and for the last one, each time with one request less before the call.
use crate::names::name;
use inlinable_string::InlineStringN;
use std::alloc::{AllocError, Global};
use std::process::Abort;
use std::test::Fail;
use test_support::Refusals;
use test_support::letters::LETTERS_31;

mod map_texts;
mod store;
mod symbols;
mod text_map;
mod tree;

/// How many requests a test makes before the first that may fail, as `.ci/floors.py` says too.
const PREPARED: usize = 24;

/// Texts below all numbers, and above all.
const LEAST: &str = "!";

const GREATEST: &str = "~";

const SHORT: &str = "short";

/// A text that no subject has, and whose copy is on the heap.
const UNKNOWN: &str = "0123456789012345678901234567890";

/// The texts that are put into a subject before its call.
#[derive(Clone, Copy)]
enum Start {
    /// The numbers below this one.
    Rising(usize),
    /// The numbers from this one down to 1.
    Falling(usize),
    /// A short text and a long one.
    Two,
}

impl Start {
    /// The number of texts.
    fn len(self) -> usize {
        match self {
            Start::Rising(len) | Start::Falling(len) => len,
            Start::Two => 2,
        }
    }

    /// The text that comes after `turn` others.
    fn text(self, turn: usize) -> InlineStringN<31> {
        let mut text = InlineStringN::new();
        let _ = match self {
            Start::Rising(_) => text.push_str(name(turn).as_str()),
            Start::Falling(len) => text.push_str(name(len.saturating_sub(turn)).as_str()),
            Start::Two if turn == 0 => text.push_str(SHORT),
            Start::Two => text.push_str(LETTERS_31),
        };
        text
    }
}

/// A call, or several. Clauses say what they answer, and that a failure changes nothing.
trait Call: Copy {
    /// What is called.
    type Subject: Drop;

    /// Makes the subject, which has these texts.
    fn subject(alloc: Global, start: Start) -> Result<Self::Subject, AllocError>;

    /// Makes the call. Returns whether it found what it looked for.
    fn make(self, alloc: Global, subject: &mut Self::Subject) -> Result<bool, AllocError>;
}

/// Asserts that a call makes these requests, where those for its subject are `own`.
fn assert_requests<C: Call>(
    rt: &(impl Abort + Print + AllocGlobal),
    start: Start,
    own: usize,
    call: C,
    requests: usize,
) -> Result<(), Fail> {
    assert_unseen(rt, start, own, call, (requests, 0))
}

/// The same of requests of which some are unseen: the call does without where one of these fails.
fn assert_unseen<C: Call>(
    rt: &(impl Abort + Print + AllocGlobal),
    start: Start,
    own: usize,
    call: C,
    (requests, unseen): (usize, usize),
) -> Result<(), Fail> {
    let alloc = rt.alloc();
    let mut refusals = Refusals::none();
    let subject = C::subject(alloc, start);
    let mut subject = subject.expect(rt, "a request before the call failed");
    for _ in own..PREPARED {
        let spare = Box::new(alloc, own);
        assert!(rt; spare.is_ok(), "a request before the call failed");
    }
    let is_right = match call.make(alloc, &mut subject) {
        Ok(is_right) => is_right,
        Err(AllocError) => refusals.meet() && call.make(alloc, &mut subject).unwrap_or(false),
    };
    assert!(rt; is_right);
    let which = match (Box::new(alloc, requests), refusals.has_met) {
        (Ok(_), true) => "one",
        (Ok(_), false) => "none",
        (Err(_), _) => "last",
    };
    let all = PREPARED.saturating_add(requests);
    println!(rt; "{which} refused of {all} requests, {unseen} unseen")?;
    Ok(())
}
