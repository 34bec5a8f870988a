//! A script from its argument and its input to its printed answers.
ghost use Rattle.std.specs.Prelude.{◌≡◌, ◌≢◌, ◌+◌, ◌*◌, ◌<◌, ◌≤◌, ◌↔◌, ◌⊎◌, ◌∷◌, ℕ, List, IfErr, IfOk, IfSome, IsOk, IsUtf8, Err, OnOk, length, take};
ghost use Rattle.std.specs.Io.KnownBytes.{Appends, Consumes, IsAtEnd};
ghost use Rattle.script_language.specs.Output.{WritesFront};
ghost use Rattle.script_language.specs.Script.{LinesAskFor, IsFirstBad, IsNamed, IsScript, Prints, PrintsFrom, bytes_left, lines_left, lines_of};
ghost use Rattle.script_language.specs.declared.input.TheConstants.{MOST_BYTES};
ghost use Rattle.script_language.specs.declared.start.Start.{Start};

use crate::cut::cut_at;
use crate::fault::ScriptFault;
use crate::input::read_input;
use crate::line::command_of;
use crate::output::print;
use crate::start::{Start, start_of};
use inlinable_string::run::{Command, Reply, run};
use inlinable_string::{
    INLINE_STRING_CAPACITY, InlinableString, InlinableStringN, StringExt, StringMake,
};
use std::alloc::Global;
use std::io::{Read, Write};

/// Capacity for one byte more than fit inline.
const HEAP_ROOM: usize = INLINE_STRING_CAPACITY + 1;

/// Runs the script in `input` on the text that `words` name, and prints each reply, the text,
/// its length and its storage to `out`.
///
/// Nothing is read after bad words, and nothing is written before the whole script is accepted.
/// All memory is taken before the run, the memory that the text itself asks for aside.
pub fn script<R: Read, W: Write>(
    alloc: Global,
    words: &[String],
    input: &mut R,
    out: &mut W,
) -> Result<(), ScriptFault>
    // What is printed is the run of the lines' commands on the text that is named.
    ensures ran { OnOk result ((all output : List ℕ)
        × Consumes (R.remaining input.old) (R.remaining input.new) all
        × IsAtEnd (R.remaining input.new)
        × IsScript words.now all output
        × Appends (W.contents out.old) (W.contents out.new) output) }
    ensures part { result ≡ Err ScriptFault.Write → (all output : List ℕ)
        × Consumes (R.remaining input.old) (R.remaining input.new) all
        × IsAtEnd (R.remaining input.new)
        × IsScript words.now all output
        × WritesFront (W.contents out.old) (W.contents out.new) output }

    // Which fault says what.
    ensures bad_argument { (result ≡ Err ScriptFault.BadArgument)
        ↔ ((start : Start) → ¬ (IsNamed words.now start)) }
    ensures too_long { result ≡ Err ScriptFault.TooLong
        → IfSome (R.remaining input.old) (λ all. MOST_BYTES < length all) }
    ensures not_utf8 { result ≡ Err ScriptFault.NotUtf8
        → IfSome (R.remaining input.old) (λ all. (length all ≤ MOST_BYTES) × ¬ (IsUtf8 all)) }
    ensures bad_line { (number : ℕ) → result ≡ Err (ScriptFault.BadLine number)
        → IfSome (R.remaining input.old) (λ all. (length all ≤ MOST_BYTES) × IsUtf8 all
        × IsFirstBad (lines_of all) number) }

    // How much is read at most.
    ensures reads { (read : List ℕ) × Consumes (R.remaining input.old) (R.remaining input.new) read
        × (length read ≤ MOST_BYTES + 1) }

    // What a fault leaves.
    ensures argument_first { result ≡ Err ScriptFault.BadArgument → input.new ≡ input.old }
    ensures unwritten { IfErr result (λ fault.
        fault ≢ ScriptFault.Write → out.new ≡ out.old) }
{
    let start = start_of(words)?;
    let bytes = read_input(alloc, input)?;
    let Ok(script) = str::from_utf8(bytes.as_slice()) else {
        return Err(ScriptFault::NotUtf8);
    };
    // A line has two digits for each byte that it is written for.
    let mut room = vec![in alloc; 0u8; script.len() / 2]?;
    let commands = commands_of(alloc, script, room.as_mut_slice())?;
    run_from(alloc, start, commands.as_slice(), out)
}

/// The commands of all lines. A line without a byte asks for nothing, but is counted.
fn commands_of<'a>(
    alloc: Global,
    script: &'a str,
    room: &'a mut [u8],
) -> Result<Vec<Command<'a>>, ScriptFault>
    requires room { length script.now ≤ 2 * length room.old + 1 }
    requires short { length script.now ≤ MOST_BYTES }
    ensures asked { IfOk result (λ commands. LinesAskFor (lines_of script.now) commands.items) }
    ensures bad_line { (number : ℕ) → result ≡ Err (ScriptFault.BadLine number)
        → IsFirstBad (lines_of script.now) number }
    ensures fault { IfErr result (λ fault. (fault ≡ ScriptFault.NoMemory)
        ⊎ ((number : ℕ) × (fault ≡ ScriptFault.BadLine number))) }
{
    // No line that asks for a command has fewer bytes than `pop` and its line feed.
    let mut commands = Vec::with_capacity(alloc, (script.len() + 1) / 4)?;
    let mut number = 1;
    let mut room = room;
    let mut unread = Some(script);
    while let Some(rest) = unread {
        let (line, behind) = first_line(rest);
        if !line.is_empty() {
            let Some((command, room_left)) = command_of(line, rest.as_bytes(), room) else {
                return Err(ScriptFault::BadLine(number));
            };
            commands.push(command)?;
            room = room_left;
        }
        number += 1;
        unread = behind;
    }
    Ok(commands)
}

/// Returns what comes before the first line feed, and what comes after it.
#[tactic(auto, using(crate::proofs::Scripts::lines_at, crate::proofs::Scripts::one_line))]
fn first_line(text: &str) -> (&str, Option<&str>)
    ensures line { lines_of text.now ≡ result.0.now ∷ lines_left result.1 }
    ensures front { take (length result.0.now) text.now ≡ result.0.now }
    ensures size { length result.0.now + bytes_left result.1 ≡ length text.now }
{
    match cut_at(text, '\n') {
        Some((line, behind)) => (line, Some(behind)),
        None => (text, None),
    }
}

/// Runs the commands on a new text, and prints.
fn run_from<W: Write>(
    alloc: Global,
    start: Start,
    commands: &[Command],
    out: &mut W,
) -> Result<(), ScriptFault>
    ensures ran { OnOk result ((output : List ℕ) × PrintsFrom start commands.now output
        × Appends (W.contents out.old) (W.contents out.new) output) }
    ensures part { result ≡ Err ScriptFault.Write → (output : List ℕ)
        × PrintsFrom start commands.now output
        × WritesFront (W.contents out.old) (W.contents out.new) output }
    ensures fault { IfErr result (λ fault. (fault ≡ ScriptFault.NoMemory)
        ⊎ (fault ≡ ScriptFault.Write)) }
    ensures unwritten { IfErr result (λ fault.
        fault ≢ ScriptFault.Write → out.new ≡ out.old) }
{
    match start {
        Start::Inline => run_on(alloc, InlinableString::new(alloc), commands, out),
        Start::String => run_on(alloc, <String as StringMake>::new(alloc), commands, out),
        Start::Heap => {
            let text = InlinableString::with_capacity(alloc, HEAP_ROOM)?;
            run_on(alloc, text, commands, out)
        }
        Start::Inline0 => run_on(alloc, InlinableStringN::<0>::new(alloc), commands, out),
        Start::Inline8 => run_on(alloc, InlinableStringN::<8>::new(alloc), commands, out),
    }
}

/// Runs the commands on a text, and prints.
fn run_on<S: StringExt + Drop, W: Write>(
    alloc: Global,
    text: S,
    commands: &[Command],
    out: &mut W,
) -> Result<(), ScriptFault>
    ensures ran { OnOk result ((output : List ℕ) × Prints (S.state text) commands.now output
        × Appends (W.contents out.old) (W.contents out.new) output) }
    ensures part { result ≡ Err ScriptFault.Write → (output : List ℕ)
        × Prints (S.state text) commands.now output
        × WritesFront (W.contents out.old) (W.contents out.new) output }
    ensures fault { IfErr result (λ fault. (fault ≡ ScriptFault.NoMemory)
        ⊎ (fault ≡ ScriptFault.Write)) }
    ensures unwritten { IfErr result (λ fault.
        fault ≢ ScriptFault.Write → out.new ≡ out.old) }
{
    let mut text = text;
    let mut replies = vec![in alloc; Reply::Done; commands.len()]?;
    run(&mut text, commands, replies.as_mut_slice());
    print(out, replies.as_slice(), &text)
}
