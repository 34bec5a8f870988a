//! A range of a text in an array, replaced by another text.
ghost use Rattle.std.specs.Prelude.{◌≡◌, ◌+◌, ◌-◌, ◌≤◌, ◌<◌, length, true, OnOk, OnErr, MatchResult};
ghost use Rattle.std.specs.Char.{is_ascii};
ghost use Rattle.std.specs.List.{list_all, replace_range};
ghost use Rattle.std.specs.Str.{chars};
ghost use Rattle.inlinable_string.specs.Text.{bytes_of, size, IsPlace};
ghost use Rattle.inlinable_string.specs.Ranges.{IsRangeReplaced};

use super::{InlineStringN, NotEnoughSpaceError};
use std::ops::Range;

impl<const N: usize> InlineStringN<N> {
    /// Replaces the bytes in `range` by `replace_with`, which may be of another length; the empty
    /// string removes them. Both ends must be character boundaries of the text
    /// (`is_char_boundary`), the start not after the end. Fails, and changes nothing, exactly where
    /// the result would have more than `N` bytes.
    #[tactic(auto, using(crate::proofs::Text::place_within))]
    pub fn replace_range(
        &mut self,
        range: Range<usize>,
        replace_with: &str,
    ) -> Result<(), NotEnoughSpaceError>
        requires start { IsPlace self.old range.start }
        requires end { IsPlace self.old range.end }
        requires order { range.start ≤ range.end }
        ensures fits { MatchResult result
            (λ _. size self.old + length replace_with.now ≤ N + (range.end - range.start))
            (λ _. N + (range.end - range.start) < size self.old + length replace_with.now) }
        ensures ok { OnOk result (IsRangeReplaced self.old range.start range.end
            (chars replace_with.now) self.new) }
        ensures bytes { OnOk result (bytes_of self.new
            ≡ replace_range (bytes_of self.old) range.start range.end replace_with.now) }
        ensures ascii { list_all is_ascii replace_with.now ≡ true → OnOk result
            (IsRangeReplaced self.old range.start range.end replace_with.now self.new) }
        ensures len { OnOk result (size self.new + (range.end - range.start)
            ≡ size self.old + length replace_with.now) }
        ensures err { OnErr result (self.new ≡ self.old) }

        // What was put in ends at a character boundary.
        ensures within { range.end ≤ size self.old }
        ensures behind { OnOk result (IsPlace self.new (range.start + length replace_with.now)) }
    {
        self.window
            .replace(range.start, range.end, replace_with.as_bytes())?;
        Ok(())
    }
}
