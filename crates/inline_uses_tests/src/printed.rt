//! What is printed of each fault.
use inline_uses::store::json::ReadError;
use inline_uses::{tokens, tree};

#[test]
fn each_fault_is_printed_in_words(rt: HostRuntime) {
    let printed = format!(in rt.alloc();
        "{}; {}; {}; {}; {}; {}; {}; {}; {}; {}; {}",
        tree::Fault::LongKey,
        tree::Fault::NoNode,
        tree::Fault::Taken,
        tree::Fault::NotObject,
        tree::Fault::TooDeep,
        tree::Fault::NoMemory,
        tokens::Fault::TooLong,
        tokens::Fault::Unterminated,
        tokens::Fault::BadEscape(2),
        ReadError::NotAStore,
        ReadError::NoMemory
    )
    .expect(&rt, "there is memory");
    let wanted = "a key has more than 16 bytes; there is no such node; \
        the place has a node with this key; a value of the JSON is not an object; \
        too many objects are nested in the JSON; there is no memory; the token is too long; \
        the source ends in a comment or a text; there is no such escape; \
        the bytes are not a JSON object of strings; there is no memory";
    assert_eq!(&rt; printed.as_str(), wanted);
}
