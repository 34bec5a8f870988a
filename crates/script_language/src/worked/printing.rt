//! What is printed of a reply, of a text, of a run and of a fault.
ghost use Rattle.std.specs.Prelude.{◌≡◌, ◌∷◌, ◌++◌, [], true, Some, None, codes};
ghost use Rattle.inlinable_string.specs.State.{TextState};
ghost use Rattle.script_language.specs.Fault.{line_of, status_of};
ghost use Rattle.script_language.specs.Output.{labelled_line, printed, reply_line, state_lines, storage_name, IsGathered, WritesFront};

use crate::fault::ScriptFault;
use inlinable_string::Storage;
use inlinable_string::run::Reply;

/// The line of each reply.
#[tactic(auto, unfolding(crate::proofs::OnLiterals::on_literals))]
pub fn lines_of_replies()
    ensures done { reply_line Reply.Done ≡ codes "done\n" }
    ensures letter { reply_line (Reply.Char 97) ≡ codes "char a\n" }
    ensures euro { reply_line (Reply.Char 8364) ≡ codes "char " ++ 226 ∷ 130 ∷ 172 ∷ 10 ∷ [] }
    ensures none { reply_line Reply.NoChar ≡ codes "none\n" }
    ensures bad_place { reply_line Reply.BadPlace ≡ codes "bad place\n" }
    ensures not_utf8 { reply_line Reply.NotUtf8 ≡ codes "not utf-8\n" }
    ensures wrong_length { reply_line Reply.WrongLength ≡ codes "wrong length\n" }
    ensures no_memory { reply_line Reply.NoMemory ≡ codes "no memory\n" }
{}

/// A label, its value, and a line feed.
pub fn labelled_lines()
    ensures value { labelled_line (codes "text ") (codes "hi") ≡ codes "text hi\n" }
    ensures empty { labelled_line (codes "text ") [] ≡ codes "text \n" }
    ensures inline { storage_name Storage.Inline ≡ codes "inline" }
    ensures heap { storage_name Storage.Heap ≡ codes "heap" }
{}

/// "é" has two bytes. The room that it has is not printed.
#[tactic(auto, unfolding(crate::proofs::OnLiterals::on_literals))]
pub fn lines_of_a_text()
    ensures inline { state_lines (record {
      text = 233 ∷ [];
      storage = Storage.Inline;
      capacity = 30;
      policy = record { demotes = true; limit = 30 };
    })
        ≡ codes "text " ++ 195 ∷ 169 ∷ codes "\nlength 2\nstorage inline\n" }
    ensures heap { state_lines (record {
      text = codes "twelve bytes";
      storage = Storage.Heap;
      capacity = 40;
      policy = record { demotes = true; limit = 30 };
    })
        ≡ codes "text twelve bytes\nlength 12\nstorage heap\n" }
{}

/// The replies in order, and then the text.
#[tactic(auto, unfolding(crate::proofs::OnLiterals::on_literals))]
pub fn lines_of_a_run()
    ensures two { printed (Reply.Char 98 ∷ Reply.NoMemory ∷ []) (record {
      text = codes "a";
      storage = Storage.Inline;
      capacity = 30;
      policy = record { demotes = true; limit = 30 };
    })
        ≡ codes "char b\nno memory\ntext a\nlength 1\nstorage inline\n" }
    ensures none { printed [] (record {
      text = [];
      storage = Storage.Heap;
      capacity = 0;
      policy = record { demotes = true; limit = 30 };
    })
        ≡ codes "text \nlength 0\nstorage heap\n" }
{}

/// Of "done", a part, all or nothing may be written after what is there, and nothing else.
pub fn fronts_of_a_line()
    ensures part { WritesFront (Some (codes "x")) (Some (codes "xdo")) (codes "done") }
    ensures all { WritesFront (Some []) (Some (codes "done")) (codes "done") }
    ensures nothing { WritesFront (Some (codes "x")) (Some (codes "x")) (codes "done") }
    ensures other { ¬ WritesFront (Some []) (Some (codes "x")) (codes "done") }
    ensures behind { ¬ WritesFront (Some []) (Some (codes "one")) (codes "done") }
    ensures lost { ¬ WritesFront (Some (codes "x")) (Some (codes "do")) (codes "done") }
    ensures more { ¬ WritesFront (Some []) (Some (codes "done\n")) (codes "done") }
    ensures unknown { ¬ WritesFront (Some []) None (codes "done") }
{}

/// "do" waits, and then comes "ne": nothing, a part or all of it may be written, the rest waits,
/// and none is lost or written twice.
pub fn gathered_bytes()
    ensures nothing { IsGathered (Some []) (Some []) (codes "do") (codes "ne") (codes "done") }
    ensures part { IsGathered (Some (codes "x")) (Some (codes "xdo"))
        (codes "do") (codes "ne") (codes "ne") }
    ensures all { IsGathered (Some []) (Some (codes "done")) (codes "do") (codes "ne") [] }
    ensures lost { ¬ IsGathered (Some []) (Some (codes "do")) (codes "do") (codes "ne") [] }
    ensures twice { ¬ IsGathered (Some []) (Some (codes "do"))
        (codes "do") (codes "ne") (codes "done") }
    ensures turned { ¬ IsGathered (Some []) (Some (codes "ne"))
        (codes "do") (codes "ne") (codes "do") }
{}

/// The line of each fault; a bad line's number is in decimal.
#[tactic(auto, unfolding(crate::proofs::OnLiterals::on_literals))]
pub fn lines_of_faults()
    ensures bad_argument { line_of ScriptFault.BadArgument ≡ codes "bad argument" }
    ensures too_long { line_of ScriptFault.TooLong ≡ codes "input too long" }
    ensures not_utf8 { line_of ScriptFault.NotUtf8 ≡ codes "input is not utf-8" }
    ensures third { line_of (ScriptFault.BadLine 3) ≡ codes "line 3: bad command" }
    ensures late { line_of (ScriptFault.BadLine 65536) ≡ codes "line 65536: bad command" }
    ensures no_memory { line_of ScriptFault.NoMemory ≡ codes "no memory" }
    ensures read { line_of ScriptFault.Read ≡ codes "read fault" }
    ensures write { line_of ScriptFault.Write ≡ codes "write fault" }
{}

/// The status is 2 where the words or the script are at fault, and 1 where the surroundings are.
pub fn statuses_of_faults()
    ensures bad_argument { status_of ScriptFault.BadArgument ≡ 2 }
    ensures too_long { status_of ScriptFault.TooLong ≡ 2 }
    ensures not_utf8 { status_of ScriptFault.NotUtf8 ≡ 2 }
    ensures bad_line { status_of (ScriptFault.BadLine 1) ≡ 2 }
    ensures no_memory { status_of ScriptFault.NoMemory ≡ 1 }
    ensures read { status_of ScriptFault.Read ≡ 1 }
    ensures write { status_of ScriptFault.Write ≡ 1 }
{}
