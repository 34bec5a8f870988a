//! The argument: which text a script begins with.
ghost use Rattle.std.specs.Prelude.{◌≡◌, IfErr, IfOk};
ghost use Rattle.script_language.specs.Script.{IsNamed};
ghost use Rattle.script_language.specs.declared.start.Start.{Start};

use crate::fault::ScriptFault;

/// The text that a script begins with. Each is empty.
#[derive(Clone, Copy, Debug, PartialEq, Eq)]
pub enum Start {
    /// An `InlinableString` that is stored inline.
    Inline,
    /// A `String`.
    String,
    /// An `InlinableString` on the heap, with capacity for one byte more than fit inline.
    Heap,
    /// An `InlinableStringN<0>`.
    Inline0,
    /// An `InlinableStringN<8>`.
    Inline8,
}

/// The text that the one argument word names.
pub fn start_of(words: &[String]) -> Result<Start, ScriptFault>
    ensures named { IfOk result (IsNamed words.now) }
    ensures unnamed { IfErr result (λ fault. (start : Start) → ¬ (IsNamed words.now start)) }
    ensures fault { IfErr result (λ fault. fault ≡ ScriptFault.BadArgument) }
{
    let [word] = words else {
        return Err(ScriptFault::BadArgument);
    };
    match word.as_str() {
        "inline" => Ok(Start::Inline),
        "string" => Ok(Start::String),
        "heap" => Ok(Start::Heap),
        "inline0" => Ok(Start::Inline0),
        "inline8" => Ok(Start::Inline8),
        _ => Err(ScriptFault::BadArgument),
    }
}
