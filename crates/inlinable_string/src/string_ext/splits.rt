//! A string split at a character.
ghost use Rattle.std.specs.Prelude.{◌≡◌, ◌++◌, ◌∷◌, IfSome, IfNone, ◌==◌};
ghost use Rattle.std.specs.Str.{chars, NonePass};

use crate::string_ext::StringExt;

/// Splits the text at the first `ch`: returns the text before it and the text after it, or `None`
/// if there is none. Copies nothing.
pub fn split_once<S: StringExt>(text: &S, ch: char) -> Option<(&str, &str)>
    ensures text { IfSome result (λ parts. (S.state text.now).text
        ≡ chars parts.0.now ++ ch ∷ chars parts.1.now) }
    ensures first { IfSome result (λ parts. NonePass (λ c. c == ch) (chars parts.0.now)) }
    ensures none { IfNone result (NonePass (λ c. c == ch) (S.state text.now).text) }
{
    let string = text.as_str();
    let at = string.find(ch)?;
    Some((&string[..at], &string[at + ch.len_utf8()..]))
}
