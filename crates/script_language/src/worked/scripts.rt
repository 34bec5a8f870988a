//! Whole scripts, each with all outputs that it may have.
ghost use Rattle.std.specs.Prelude.{◌≡◌, ◌∷◌, [], List, ℕ, codes, map};
ghost use Rattle.std.specs.String.{string_bytes};
ghost use Rattle.script_language.specs.Script.{IsScript};

/// "a" is put at the end of an inline text, which stays inline.
pub fn push_on_an_inline_text(words: &[String])
    requires inline { map string_bytes words.now ≡ codes "inline" ∷ [] }
    ensures { (output : List ℕ) → IsScript words.now (codes "push a\n") output
        → output ≡ codes "done\ntext a\nlength 1\nstorage inline\n" }
{}
