//! Literals, whose characters a contract says by `codes`.
ghost use Rattle.std.specs.Prelude.{◌≡◌, ◌↔◌, ◌++◌, IfOk, IsTrue, OnOk, codes};
ghost use Rattle.std.specs.Str.{chars};
ghost use Rattle.inlinable_string.specs.Text.{bytes_of};
ghost use Rattle.inlinable_string.specs.Values.{inlinable_state};

use inlinable_string::laws::{ascii_is_its_own_characters, splices_at_the_ends};
use inlinable_string::{InlinableString, InlineStringN, StringExt};
use std::alloc::{AllocError, Global};

/// A word and a space.
pub fn ship() -> InlineStringN<16>
    ensures text { result ≡ codes "ship " }
    ensures bytes { bytes_of result ≡ codes "ship " }
{
    InlineStringN::from("ship ")
}

/// A greeting of any length.
pub fn greeting(alloc: Global, name: &str) -> Result<InlinableString, AllocError>
    ensures { IfOk result
        (λ made. (inlinable_state 30 made).text ≡ codes "Hello, " ++ chars name.now) }
{
    let mut made = InlinableString::from(alloc, "Hello, ")?;
    made.push_str(name)?;
    Ok(made)
}

/// A line of a list, in a text of any type.
pub fn as_item<S: StringExt>(line: &mut S) -> Result<(), AllocError>
    ensures { OnOk result
        ((S.state line.new).text ≡ codes "- " ++ (S.state line.old).text ++ codes ";") }
{
    splices_at_the_ends();
    line.insert_str(0, "- ")?;
    line.push_str(";")
}

/// Whether an answer is yes, and one of any text is.
pub fn is_yes<S: StringExt>(answer: &InlineStringN<8>, other: &S) -> (bool, bool)
    ensures inline { IsTrue result.0 ↔ (answer.now ≡ codes "yes") }
    ensures any { IsTrue result.1 ↔ ((S.state other.now).text ≡ codes "yes") }
{
    (answer.eq_str("yes"), other.eq_str("yes"))
}

/// A path of two parts.
pub fn path(alloc: Global, dir: &str, name: &str) -> Result<InlinableString, AllocError>
    ensures { IfOk result (λ made. (inlinable_state 30 made).text
        ≡ chars dir.now ++ codes "/" ++ chars name.now) }
{
    InlinableString::from_strs(alloc, [dir, "/", name].iter().copied())
}

/// Whether a command is to stop, by a comparison of strings.
pub fn is_stop<S: StringExt>(command: &S) -> bool
    ensures { IsTrue result ↔ ((S.state command.now).text ≡ codes "stop") }
{
    ascii_is_its_own_characters();
    command.as_str() == "stop"
}
