//! Laws over the definitions that the contract of `script` cites. No function here does anything:
//! its contract is the law.
ghost use Rattle.std.specs.Prelude.{◌≡◌, ◌↔◌, ℕ, ◌≤◌, List, Some, length, map, nat_lt};
ghost use Rattle.std.specs.Str.{IsUtf8};
ghost use Rattle.std.specs.List.{count_by};
ghost use Rattle.inlinable_string.specs.Edit.{edit};
ghost use Rattle.inlinable_string.specs.Run.{need_of};
ghost use Rattle.inlinable_string.specs.Laws.{is_refusal};
ghost use Rattle.inlinable_string.specs.declared.run.Command.{Command};
ghost use Rattle.script_language.specs.Fault.{line_of};
ghost use Rattle.script_language.specs.Line.{arguments_of, word_of};
ghost use Rattle.script_language.specs.Script.{LinesAskFor, IsFirstBad, IsScript, PrintsFrom};
ghost use Rattle.script_language.specs.declared.start.Start.{Start};

use crate::fault::ScriptFault;
use std::alloc::{AllocError, AllocFailed};
use std::fmt;

/// Commands that have the same word and the same arguments do the same, and need the same room.
pub fn words_and_arguments_tell_what_is_done()
    ensures edit { (t : List ℕ) (one other : Command) → word_of one ≡ word_of other
        → arguments_of one ≡ arguments_of other → edit t one ≡ edit t other }
    ensures need { (one other : Command) → word_of one ≡ word_of other
        → arguments_of one ≡ arguments_of other → need_of one ≡ need_of other }
{}

/// Lines ask for one list of commands, told by their words and arguments, with a command for each
/// line that has a byte.
pub fn lines_ask_for_one_list_of_commands()
    ensures words { (lines : List (List ℕ)) (one other : List Command) → LinesAskFor lines one
        → LinesAskFor lines other → map word_of one ≡ map word_of other }
    ensures arguments { (lines : List (List ℕ)) (one other : List Command) → LinesAskFor lines one
        → LinesAskFor lines other → map arguments_of one ≡ map arguments_of other }
    ensures count { (lines : List (List ℕ)) (commands : List Command) → LinesAskFor lines commands
        → length commands ≡ count_by (λ line. nat_lt 0 (length line)) lines }
{}

/// There is one first bad line at most, and it is one of the lines, which are counted from 1.
pub fn one_line_is_the_first_bad_one()
    ensures one { (lines : List (List ℕ)) (number other : ℕ) → IsFirstBad lines number
        → IsFirstBad lines other → number ≡ other }
    ensures counted { (lines : List (List ℕ)) (number : ℕ) → IsFirstBad lines number
        → (1 ≤ number) × (number ≤ length lines) }
{}

/// Lines of which one is bad ask for no commands.
pub fn lines_with_a_bad_one_ask_for_no_commands()
    ensures { (lines : List (List ℕ)) (number : ℕ) (commands : List Command)
        → IsFirstBad lines number → ¬ (LinesAskFor lines commands) }
{}

/// A script has at most 65,536 bytes, and they are UTF-8.
pub fn a_script_has_at_most_65536_bytes(words: &[String])
    ensures short { (input output : List ℕ) → IsScript words.now input output
        → length input ≤ 65536 }
    ensures utf8 { (input output : List ℕ) → IsScript words.now input output → IsUtf8 input }
{}

/// The places of the refusals determine what is printed: two outputs of one script, whose runs have
/// the same refusals, are the same.
pub fn refusals_determine_the_output(words: &[String])
    ensures script { (input output other : List ℕ) (one : IsScript words.now input output)
        (two : IsScript words.now input other)
        → map is_refusal one.run.run.replies ≡ map is_refusal two.run.run.replies
        → output ≡ other }
    ensures start { (start : Start) (commands : List Command) (output other : List ℕ)
        (one : PrintsFrom start commands output) (two : PrintsFrom start commands other)
        → map is_refusal one.run.replies ≡ map is_refusal two.run.replies → output ≡ other }
{}

/// A fault prints its line.
pub fn faults_print_their_line()
    ensures { (fault : ScriptFault)
        → ⟦<ScriptFault as fmt::Display>⟧.output fault ≡ Some (line_of fault) }
{}

/// Refused memory becomes the fault `NoMemory`, and no other.
pub fn refused_memory_becomes_its_fault<T: Drop>()
    ensures error { (error : AllocError) (fault : ScriptFault)
        → ⟦<ScriptFault as From<AllocError>>⟧.from_gives error fault
        ↔ (fault ≡ ScriptFault.NoMemory) }
    ensures failed { (failed : AllocFailed T) (fault : ScriptFault)
        → ⟦<ScriptFault as From<AllocFailed<T>>>⟧.from_gives failed fault
        ↔ (fault ≡ ScriptFault.NoMemory) }
{}
