//! Lines, and the commands that they ask for.
ghost use Rattle.std.specs.Prelude.{◌≡◌, ◌∷◌, ◌++◌, [], ℕ, List, codes};
ghost use Rattle.inlinable_string.specs.declared.run.Command.{Command};
ghost use Rattle.script_language.specs.Line.{arguments_of, nothing, character, text, number, number_and_character, number_and_text, bytes, space, word_of, IsFirstCut, IsLine};
ghost use Rattle.script_language.specs.Script.{LinesAskFor};

use inlinable_string::run::Command;

/// The word of each command.
pub fn words_of_commands(string: &str, bytes: &[u8])
    ensures push { word_of (Command.Push 97) ≡ codes "push" }
    ensures push_str { word_of (Command.PushStr string.entry) ≡ codes "push_str" }
    ensures insert { word_of (Command.Insert 3 97) ≡ codes "insert" }
    ensures insert_str { word_of (Command.InsertStr 3 string.entry) ≡ codes "insert_str" }
    ensures truncate { word_of (Command.Truncate 3) ≡ codes "truncate" }
    ensures pop { word_of Command.Pop ≡ codes "pop" }
    ensures remove { word_of (Command.Remove 3) ≡ codes "remove" }
    ensures clear { word_of Command.Clear ≡ codes "clear" }
    ensures replace_bytes { word_of (Command.ReplaceBytes bytes.entry) ≡ codes "replace_bytes" }
    ensures reserve { word_of (Command.Reserve 3) ≡ codes "reserve" }
    ensures reserve_exact { word_of (Command.ReserveExact 3) ≡ codes "reserve_exact" }
    ensures shrink_to_fit { word_of Command.ShrinkToFit ≡ codes "shrink_to_fit" }
{}

/// The arguments of each command.
pub fn arguments_of_commands(string: &str, replacement: &[u8])
    requires string { string.now ≡ codes "hi" }
    requires replacement { replacement.now ≡ 200 ∷ 7 ∷ [] }
    ensures push { arguments_of (Command.Push 97) ≡ character 97 }
    ensures push_str { arguments_of (Command.PushStr string.entry) ≡ text (codes "hi") }
    ensures insert { arguments_of (Command.Insert 3 97) ≡ number_and_character 3 97 }
    ensures insert_str { arguments_of (Command.InsertStr 3 string.entry)
        ≡ number_and_text 3 (codes "hi") }
    ensures truncate { arguments_of (Command.Truncate 3) ≡ number 3 }
    ensures pop { arguments_of Command.Pop ≡ nothing }
    ensures remove { arguments_of (Command.Remove 3) ≡ number 3 }
    ensures clear { arguments_of Command.Clear ≡ nothing }
    ensures replace_bytes { arguments_of (Command.ReplaceBytes replacement.entry)
        ≡ bytes (200 ∷ 7 ∷ []) }
    ensures reserve { arguments_of (Command.Reserve 3) ≡ number 3 }
    ensures reserve_exact { arguments_of (Command.ReserveExact 3) ≡ number 3 }
    ensures shrink_to_fit { arguments_of Command.ShrinkToFit ≡ nothing }
{}

/// A text is cut at its first space, which may be at its start or at its end.
pub fn texts_cut_at_a_space()
    ensures first { IsFirstCut space (codes "insert 3 a") (codes "insert") (codes "3 a") }
    ensures start { IsFirstCut space (codes " a") [] (codes "a") }
    ensures end { IsFirstCut space (codes "a ") (codes "a") [] }
    ensures later { ¬ IsFirstCut space (codes "insert 3 a") (codes "insert 3") (codes "a") }
    ensures other { ¬ IsFirstCut space (codes "insert 3 a") (codes "remove") (codes "3 a") }
{}

/// A word alone.
pub fn lines_without_an_argument()
    ensures pop { IsLine (codes "pop") Command.Pop }
    ensures clear { IsLine (codes "clear") Command.Clear }
    ensures shrink_to_fit { IsLine (codes "shrink_to_fit") Command.ShrinkToFit }
{}

/// One character, which may be a space.
pub fn lines_of_a_character()
    ensures letter { IsLine (codes "push a") (Command.Push 97) }
    ensures blank { IsLine (codes "push  ") (Command.Push 32) }
    ensures euro { IsLine (codes "push " ++ 226 ∷ 130 ∷ 172 ∷ []) (Command.Push 8364) }
    ensures insert { IsLine (codes "insert 12 !") (Command.Insert 12 33) }
{}

/// The rest of the line, which may be empty and may have spaces.
pub fn lines_of_a_text(string: &str, empty: &str)
    requires string { string.now ≡ codes "a b" }
    requires empty { empty.now ≡ [] }
    ensures push_str { IsLine (codes "push_str a b") (Command.PushStr string.entry) }
    ensures push_none { IsLine (codes "push_str ") (Command.PushStr empty.entry) }
    ensures insert_str { IsLine (codes "insert_str 7 a b") (Command.InsertStr 7 string.entry) }
{}

/// A number: one digit, zeros before it, twenty digits, and the largest.
pub fn lines_of_a_number()
    ensures truncate { IsLine (codes "truncate 0") (Command.Truncate 0) }
    ensures remove { IsLine (codes "remove 007") (Command.Remove 7) }
    ensures reserve { IsLine (codes "reserve 18446744073709551615")
        (Command.Reserve 18446744073709551615) }
    ensures reserve_exact { IsLine (codes "reserve_exact 00000000000000000012")
        (Command.ReserveExact 12) }
{}

/// Pairs of hexadecimal digits of either case, or none.
pub fn lines_of_bytes(bytes: &[u8], empty: &[u8])
    requires bytes { bytes.now ≡ 195 ∷ 169 ∷ [] }
    requires empty { empty.now ≡ [] }
    ensures two { IsLine (codes "replace_bytes c3A9") (Command.ReplaceBytes bytes.entry) }
    ensures none { IsLine (codes "replace_bytes ") (Command.ReplaceBytes empty.entry) }
{}

/// Commands in the order of their lines; lines without a byte are passed over.
pub fn lines_that_ask()
    ensures none { LinesAskFor [] [] }
    ensures empty { LinesAskFor ([] ∷ [] ∷ []) [] }
    ensures two { LinesAskFor (codes "pop" ∷ [] ∷ codes "clear" ∷ [] ∷ [])
        (Command.Pop ∷ Command.Clear ∷ []) }
    ensures more { ¬ LinesAskFor ([] ∷ []) (Command.Pop ∷ []) }
    ensures fewer { ¬ LinesAskFor (codes "pop" ∷ []) [] }
    ensures twice { ¬ LinesAskFor (codes "pop" ∷ []) (Command.Pop ∷ Command.Pop ∷ []) }
    ensures turned { ¬ LinesAskFor (codes "pop" ∷ codes "clear" ∷ [])
        (Command.Clear ∷ Command.Pop ∷ []) }
{}
