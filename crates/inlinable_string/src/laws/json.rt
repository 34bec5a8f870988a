//! Lemmas on texts as JSON strings.
ghost use Rattle.std.specs.Prelude.{◌≡◌, ℕ, List, true};
ghost use Rattle.std.specs.Str.{all_scalars};
ghost use Rattle.serde_json.specs.Data.{Data, string};
ghost use Rattle.inlinable_string.specs.Text.{bytes_of};

/// A JSON value is the string of one text at most: so `from_json` of what `to_json` returned gives
/// the same text. `len` states that the characters of the first are scalar values.
pub fn json_gives_the_text_back()
    ensures { (value : Data) (t u : List ℕ) → all_scalars t ≡ true
        → value ≡ string (bytes_of t) → value ≡ string (bytes_of u) → u ≡ t }
{}
