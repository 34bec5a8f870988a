//! White space taken off the ends of a text in an array.
ghost use Rattle.std.specs.Prelude.{◌≡◌, ◌≤◌, drop};
ghost use Rattle.std.specs.Str.{chars, trim, trim_start, trim_end};
ghost use Rattle.inlinable_string.specs.Text.{bytes_of, size, IsPlace};

use super::InlineStringN;

impl<const N: usize> InlineStringN<N> {
    /// Removes the white space at the start and at the end: what is left is what `str::trim`
    /// returns. Moves no byte, and cannot fail.
    pub fn trim_in_place(&mut self)
        ensures text { self.new ≡ chars (trim (bytes_of self.old)) }
        ensures bytes { bytes_of self.new ≡ trim (bytes_of self.old) }
        ensures bound { size self.new ≤ size self.old }
    {
        self.trim_start_in_place();
        self.trim_end_in_place();
    }

    /// Removes the white space at the start: what is left is what `str::trim_start` returns. Moves
    /// no byte, and cannot fail.
    pub fn trim_start_in_place(&mut self)
        ensures text { self.new ≡ chars (trim_start (bytes_of self.old)) }
        ensures bytes { bytes_of self.new ≡ trim_start (bytes_of self.old) }
        ensures bound { size self.new ≤ size self.old }
    {
        let text = self.as_str();
        let white = text.len() - text.trim_start().len();
        self.drop_front(white);
    }

    /// Removes the white space at the end: what is left is what `str::trim_end` returns. Moves no
    /// byte, and cannot fail.
    pub fn trim_end_in_place(&mut self)
        ensures text { self.new ≡ chars (trim_end (bytes_of self.old)) }
        ensures bytes { bytes_of self.new ≡ trim_end (bytes_of self.old) }
        ensures bound { size self.new ≤ size self.old }
    {
        let end = self.as_str().trim_end().len();
        self.truncate(end);
    }

    /// Removes the first `count` bytes, which must end at a character boundary of the text.
    #[inline]
    fn drop_front(&mut self, count: usize)
        requires { IsPlace self.old count }
        ensures text { self.new ≡ chars (drop count (bytes_of self.old)) }
        ensures bytes { bytes_of self.new ≡ drop count (bytes_of self.old) }
    {
        self.window.drop_front(count);
    }
}
