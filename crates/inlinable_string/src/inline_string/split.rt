//! A text in an array, split in two.
ghost use Rattle.std.specs.Prelude.{◌≡◌, ◌+◌, ◌≤◌, take, drop};
ghost use Rattle.inlinable_string.specs.Text.{bytes_of, size, IsCut, IsPlace};

use super::InlineStringN;

impl<const N: usize> InlineStringN<N> {
    /// Splits the text in two at byte `at`, which must be a character boundary of the text
    /// (`is_char_boundary`). The text keeps the first `at` bytes; the rest is returned.
    pub fn split_off(&mut self, at: usize) -> Self
        requires { IsPlace self.old at }
        ensures text { IsCut self.old at self.new result }
        ensures tail_len { at + size result ≡ size self.old }
        ensures within { size self.old ≤ N }

        // The bytes of both, for an offset that a search of the bytes returned.
        ensures front { bytes_of self.new ≡ take at (bytes_of self.old) }
        ensures back { bytes_of result ≡ drop at (bytes_of self.old) }
    {
        let tail = Self::from(&self.as_str()[at..]);
        self.truncate(at);
        tail
    }
}
