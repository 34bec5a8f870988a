//! A shrink, and moves to another limit, while all memory is held.
use inlinable_string::{InlinableString, Storage, StringExt, StringMake};
use test_support::{Hoard, NEEDS_THE_PROVED_BUILD};

/// Whatever it answers.
#[test]
fn a_shrink_leaves_a_long_text_on_the_heap(rt: HostRuntime) {
    let alloc = rt.alloc();
    let whole = "0123456789".repeat(alloc, 10).expect(&rt, "memory");
    let mut text = InlinableString::from(alloc, whole.as_str()).expect(&rt, "memory");
    let hoard = Hoard::take(alloc).expect(&rt, NEEDS_THE_PROVED_BUILD);
    let _ = text.shrink_to_fit();
    drop(hoard);
    assert!(&rt; whole.len() == 100 && text.as_str() == whole.as_str());
    assert!(&rt; text.storage() == Storage::Heap);
}

/// It is inline where it fits, and else has the capacity that was reserved.
#[test]
fn a_heap_text_moves_to_a_limit_of_two(rt: HostRuntime) {
    let alloc = rt.alloc();
    let mut hi = InlinableString::with_capacity(alloc, 31).expect(&rt, "memory");
    hi.push_str("hi").expect(&rt, "memory");
    let mut foo = InlinableString::from(alloc, "foo").expect(&rt, "memory");
    foo.reserve(100).expect(&rt, "memory");
    let hoard = Hoard::take(alloc).expect(&rt, NEEDS_THE_PROVED_BUILD);
    let hi = hi.with_limit::<2>();
    let mut foo = foo.with_limit::<2>();
    let mut pushes = 0..10;
    if let Ok(text) = &mut foo {
        let _ = pushes.all(|_| text.push_str("0123456789").is_ok());
    }
    drop(hoard);
    let (hi, foo) = (hi.expect(&rt, "inline"), foo.expect(&rt, "heap"));
    assert!(&rt; hi.as_str() == "hi" && hi.storage() == Storage::Inline);
    assert!(&rt; pushes.is_empty() && foo.len() == 103 && foo.storage() == Storage::Heap);
}
