//! A range of a text in an array, taken out as a text of its own.
ghost use Rattle.std.specs.Prelude.{◌≡◌, ◌+◌, ◌≤◌};
ghost use Rattle.inlinable_string.specs.Text.{size, IsPlace};
ghost use Rattle.inlinable_string.specs.Ranges.{IsDrained};

use super::InlineStringN;
use std::ops::Range;

impl<const N: usize> InlineStringN<N> {
    /// Removes the bytes in `range`, and returns them as a text. Both ends must be character
    /// boundaries of the text (`is_char_boundary`), the start not after the end. Cannot fail.
    pub fn drain(&mut self, range: Range<usize>) -> Self
        requires start { IsPlace self.old range.start }
        requires end { IsPlace self.old range.end }
        requires order { range.start ≤ range.end }
        ensures drained { IsDrained self.old range.start range.end result self.new }
        ensures len { size self.new + size result ≡ size self.old }
        ensures drained_len { range.start + size result ≡ range.end }
        ensures bound { size result ≤ N }

        // Where the bytes were, there is a character boundary.
        ensures within { range.end ≤ size self.old }
        ensures at { IsPlace self.new range.start }
    {
        let drained = Self::from(&self.as_str()[range.start..range.end]);
        let _ = self.replace_range(range, "");
        drained
    }
}
