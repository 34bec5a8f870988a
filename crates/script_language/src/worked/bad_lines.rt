//! Lines that ask for nothing, and the first of them.
ghost use Rattle.std.specs.Prelude.{◌∷◌, [], ℕ, List, codes};
ghost use Rattle.inlinable_string.specs.declared.run.Command.{Command};
ghost use Rattle.script_language.specs.Line.{IsCharText, IsHexText, IsLine, IsNumberText};
ghost use Rattle.script_language.specs.Script.{IsFirstBad};

/// No number: no digit, a sign, a letter, 21 digits, one past the largest, a space.
pub fn texts_of_no_number()
    ensures empty { (n : ℕ) → ¬ (IsNumberText [] n) }
    ensures plus { (n : ℕ) → ¬ (IsNumberText (codes "+5") n) }
    ensures minus { (n : ℕ) → ¬ (IsNumberText (codes "-5") n) }
    ensures letter { (n : ℕ) → ¬ (IsNumberText (codes "1a") n) }
    ensures long { (n : ℕ) → ¬ (IsNumberText (codes "000000000000000000005") n) }
    ensures large { (n : ℕ) → ¬ (IsNumberText (codes "18446744073709551616") n) }
    ensures blank { (n : ℕ) → ¬ (IsNumberText (codes "5 ") n) }
    ensures other { ¬ (IsNumberText (codes "12") 21) }
{}

/// Two characters are not one, and one is not another.
pub fn texts_of_no_character()
    ensures two { (c : ℕ) → ¬ (IsCharText (codes "ab") c) }
    ensures other { ¬ (IsCharText (codes "a") 98) }
{}

/// No bytes: an odd digit, no digit, a sign; and not these bytes.
pub fn texts_of_no_bytes()
    ensures odd { (bytes : List ℕ) → ¬ (IsHexText (codes "c3a") bytes) }
    ensures letter { (bytes : List ℕ) → ¬ (IsHexText (codes "g0") bytes) }
    ensures sign { (bytes : List ℕ) → ¬ (IsHexText (codes "+3") bytes) }
    ensures blank { (bytes : List ℕ) → ¬ (IsHexText (codes "c3 a9") bytes) }
    ensures turned { ¬ (IsHexText (codes "c3") (60 ∷ [])) }
    ensures twice { ¬ (IsHexText (codes "c3") (195 ∷ 195 ∷ [])) }
    ensures short { ¬ (IsHexText (codes "c3a9") (195 ∷ [])) }
{}

/// A word that takes no argument, with a space after it.
pub fn lines_with_a_space_too_many()
    ensures pop { (command : Command) → ¬ (IsLine (codes "pop ") command) }
    ensures clear { (command : Command) → ¬ (IsLine (codes "clear x") command) }
{}

/// A word without its argument.
pub fn lines_without_their_argument()
    ensures push { (command : Command) → ¬ (IsLine (codes "push") command) }
    ensures truncate { (command : Command) → ¬ (IsLine (codes "truncate") command) }
{}

/// The first bad line is counted from 1, with the lines that have no byte.
pub fn first_bad_lines()
    ensures first { IsFirstBad (codes "pop " ∷ codes "pop" ∷ []) 1 }
    ensures third { IsFirstBad (codes "pop" ∷ [] ∷ codes "pop " ∷ codes "Pop" ∷ []) 3 }
{}
