//! Boxed texts of unlike types, to each of which `run_each` gives the same commands.
use Storage::{Heap, Inline};
use inlinable_string::run::Command::{Pop, Push, PushStr, Remove, ReserveExact, Truncate};
use inlinable_string::run::Reply::{BadPlace, Char, Done, NoChar, NoMemory, NotUtf8};
use inlinable_string::run::run_each;
use inlinable_string::{BoxableString, InlinableString, Storage, StringExt, StringMake};
use std::alloc::Global;
use std::process::Abort;
use test_support::letters::LETTERS_30;
use test_support::{HeapText, Hoard, NEEDS_THE_PROVED_BUILD};

type Boxed = Box<dyn StringExt + Drop>;

/// A `BoxableString` with capacity: past 30 bytes it is on the heap.
fn boxable(rt: &impl Abort, alloc: Global, room: usize, content: &str) -> Boxed {
    let mut text = InlinableString::with_capacity(alloc, room).expect(rt, "memory");
    text.push_str(content).expect(rt, "memory");
    Box::new(alloc, BoxableString(text)).expect(rt, "memory")
}

/// A `String`, an inline text, one on the heap, and a text of a user's type, with these contents.
fn texts_of(rt: &impl Abort, alloc: Global, contents: [&str; 4]) -> Vec<Boxed> {
    let [string, inline, heap, user] = contents;
    let string = String::from_str(alloc, string).expect(rt, "memory");
    let user = HeapText(String::from_str(alloc, user).expect(rt, "memory"));
    let mut texts: Vec<Boxed> = Vec::new(alloc);
    for text in [
        Box::new(alloc, string).expect(rt, "memory"),
        boxable(rt, alloc, 0, inline),
        boxable(rt, alloc, 31, heap),
        Box::new(alloc, user).expect(rt, "memory"),
    ] {
        texts.push(text).expect(rt, "memory");
    }
    texts
}

/// Whether the texts are these, with this storage.
fn are_texts(texts: &[Boxed], wanted: &[(&str, Storage)]) -> bool {
    texts.len() == wanted.len()
        && texts.iter().zip(wanted).all(|(text, &(content, storage))| {
            text.as_str() == content && text.storage() == storage
        })
}

#[test]
fn boxed_texts_of_each_storage_have_the_same_replies(rt: HostRuntime) {
    let mut texts = texts_of(&rt, rt.alloc(), ["x", "x", "x", "x"]);
    assert!(&rt; texts.len() == 4);
    run_each(&mut texts, &[], &mut []);
    let same = [("x", Heap), ("x", Inline), ("x", Heap), ("x", Heap)];
    assert!(&rt; are_texts(&texts, &same));
    let mut replies = [NotUtf8; 16];
    let commands = [PushStr("y"), Remove(0), Pop, Pop];
    run_each(&mut texts, &commands, &mut replies);
    for own in replies.chunks(4) {
        assert!(&rt; own == [Done, Char('x'), Char('y'), NoChar].as_slice());
    }
    assert!(&rt; are_texts(&texts, &[("", Heap), ("", Inline), ("", Heap), ("", Heap)]));
}

#[test]
fn no_texts_have_no_replies(rt: HostRuntime) {
    let mut texts: Vec<Boxed> = Vec::new(rt.alloc());
    run_each(&mut texts, &[Push('a'), Pop], &mut []);
    assert!(&rt; texts.is_empty());
}

/// Whether both pushes succeed.
fn takes_pushes(text: &mut dyn StringExt) -> bool {
    text.push_str("it works").is_ok() && text.push('!').is_ok()
}

#[test]
fn texts_grow_through_a_reference_to_the_trait(rt: HostRuntime) {
    let mut text = InlinableString::from(rt.alloc(), "inline").expect(&rt, "memory");
    let plain = "this is a plain std::string::String";
    let mut string = String::from_str(rt.alloc(), plain).expect(&rt, "memory");
    assert!(&rt; takes_pushes(&mut text) && takes_pushes(&mut string));
    assert!(&rt; text.as_str() == "inlineit works!" && text.storage() == Inline);
    assert!(&rt; string.as_str() == "this is a plain std::string::Stringit works!");
}

#[test]
fn unlike_texts_have_unlike_replies(rt: HostRuntime) {
    let mut texts = texts_of(&rt, rt.alloc(), ["a", "é", "hello", "€"]);
    assert!(&rt; texts.len() == 4);
    let mut replies = [NotUtf8; 16];
    let commands = [Truncate(1), PushStr("7 bytes"), Pop, Remove(1)];
    run_each(&mut texts, &commands, &mut replies);
    let placed = [Done, Done, Char('s'), Char('7')];
    let misplaced = [BadPlace, Done, Char('s'), BadPlace];
    for (i, own) in replies.chunks(4).enumerate() {
        let wanted = if i % 2 == 0 { placed } else { misplaced };
        assert!(&rt; own == wanted.as_slice());
    }
    let ends = [
        ("a byte", Heap),
        ("é7 byte", Inline),
        ("h byte", Heap),
        ("€7 byte", Heap),
    ];
    assert!(&rt; are_texts(&texts, &ends));
}

/// The third one alone has the capacity.
#[test]
fn each_text_fails_to_allocate_by_itself(rt: HostRuntime) {
    let alloc = rt.alloc();
    let mut texts = texts_of(&rt, alloc, ["", LETTERS_30, "x", ""]);
    assert!(&rt; texts.len() == 4);
    let mut replies = [NotUtf8; 8];
    let hoard = Hoard::take(alloc).expect(&rt, NEEDS_THE_PROVED_BUILD);
    run_each(&mut texts, &[Push('b'), Pop], &mut replies);
    drop(hoard);
    let own = [
        [NoMemory, NoChar],
        [NoMemory, Char('a')],
        [Done, Char('b')],
        [NoMemory, NoChar],
    ];
    for (replies, own) in replies.chunks(2).zip(&own) {
        assert!(&rt; replies == own.as_slice());
    }
    let commands = [ReserveExact(usize::MAX), Push('é')];
    run_each(&mut texts, &commands, &mut replies);
    for replies in replies.chunks(2) {
        assert!(&rt; replies == [NoMemory, Done].as_slice());
    }
    let ends = [
        ("é", Heap),
        ("aaaaaaaaaaaaaaaaaaaaaaaaaaaaaé", Heap),
        ("xé", Heap),
        ("é", Heap),
    ];
    assert!(&rt; are_texts(&texts, &ends));
}
