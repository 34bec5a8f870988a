//! The ASCII characters with which a token goes on. Each is one byte, so none is decoded.
ghost use Rattle.std.specs.Prelude.{◌≡◌, ◌≢◌, ◌<◌, None};
ghost use Rattle.std.specs.List.{prefix_len};
ghost use Rattle.inline_uses.specs.declared.tokens.Kind.{Kind};
ghost use Rattle.inline_uses.specs.Ascii.{class_of, goes_on_in_ascii};
ghost use Rattle.inline_uses.specs.Tokens.{kind_of};

use super::Kind;

/// A letter, a digit or `_`.
const NAME: u8 = 1;

/// White space.
const SPACE: u8 = 2;

/// For each byte a digit, whose low two bits are the flags above: both are zero where the byte is
/// no ASCII character.
static CLASSES: [u8; 256] = *b"\
    00000000022222000000000000000000\
    20000000000000001111111111000000\
    01111111111111111111111111100001\
    01111111111111111111111111100000\
    00000000000000000000000000000000\
    00000000000000000000000000000000\
    00000000000000000000000000000000\
    00000000000000000000000000000000";

/// Returns the flag of the ASCII characters with which a token of this kind goes on, and 0 for a
/// line comment, which ends at one character alone.
fn class_of(kind: Kind) -> u8
    ensures { result ≡ class_of kind }
{
    match kind {
        Kind::Word | Kind::Number => NAME,
        Kind::Space => SPACE,
        Kind::LineComment | Kind::BlockComment | Kind::Text | Kind::Mark(_) => 0,
    }
}

/// Returns whether the byte is an ASCII character of this class.
#[inline]
fn is_of_class(byte: u8, class: u8) -> bool
    ensures { (kind : Kind) → kind ≢ Kind.LineComment → class ≡ class_of kind
        → result ≡ goes_on_in_ascii kind byte }
{
    CLASSES[byte as usize] & class != 0
}

/// Returns the kind of the token that the ASCII character `first` is where nothing follows it.
#[inline]
pub(super) fn kind_of_ascii(first: u8) -> Kind
    requires { first < 128 }
    ensures { result ≡ kind_of first None }
{
    if is_of_class(first, SPACE) {
        return Kind::Space;
    }
    if is_of_class(first, NAME) {
        return if first.is_ascii_digit() {
            Kind::Number
        } else {
            Kind::Word
        };
    }
    match first {
        b'"' => Kind::Text,
        _ => Kind::Mark(char::from(first)),
    }
}

/// Returns how many ASCII characters there are before the first character that is none, or with
/// which a token of this kind does not go on.
pub(super) fn ascii_len(kind: Kind, source: &str) -> usize
    requires { kind ≢ Kind.LineComment }
    ensures { result ≡ prefix_len (goes_on_in_ascii kind) source.now }
{
    let class = class_of(kind);
    let bytes = source.as_bytes();
    let mut len = 0;
    while len < bytes.len() && is_of_class(bytes[len], class) {
        len += 1;
    }
    len
}
