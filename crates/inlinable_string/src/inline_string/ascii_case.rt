//! ASCII letters of a text in an array, changed to the other case in place.
ghost use Rattle.std.specs.Prelude.{◌≡◌, ◌+◌, ◌≤◌, length, map, take, drop};
ghost use Rattle.std.specs.Char.{to_ascii_lowercase, to_ascii_uppercase};
ghost use Rattle.inlinable_string.specs.Text.{bytes_of, size};

use super::InlineStringN;

impl<const N: usize> InlineStringN<N> {
    /// Converts the ASCII letters 'a' to 'z' to 'A' to 'Z', in place. All other characters are
    /// unchanged.
    #[inline]
    pub fn make_ascii_uppercase(&mut self)
        ensures text { self.new ≡ map to_ascii_uppercase self.old }
        ensures bytes { bytes_of self.new ≡ map to_ascii_uppercase (bytes_of self.old) }
        ensures len { size self.new ≡ size self.old }
    {
        let (start, len) = (self.window.start, self.window.len);
        uppercase_window(&mut self.window.bytes[..], start, len);
    }

    /// Converts the ASCII letters 'A' to 'Z' to 'a' to 'z', in place. All other characters are
    /// unchanged.
    #[inline]
    pub fn make_ascii_lowercase(&mut self)
        ensures text { self.new ≡ map to_ascii_lowercase self.old }
        ensures bytes { bytes_of self.new ≡ map to_ascii_lowercase (bytes_of self.old) }
        ensures len { size self.new ≡ size self.old }
    {
        let (start, len) = (self.window.start, self.window.len);
        lowercase_window(&mut self.window.bytes[..], start, len);
    }
}

/// Converts the `len` bytes from `start` on.
#[inline]
fn uppercase_window(cells: &mut [u8], start: usize, len: usize)
    requires { start + len ≤ length cells.old }
    ensures { take len (drop start cells.new)
        ≡ map to_ascii_uppercase (take len (drop start cells.old)) }
{
    cells[start..start + len].make_ascii_uppercase();
}

/// Converts the `len` bytes from `start` on.
#[inline]
fn lowercase_window(cells: &mut [u8], start: usize, len: usize)
    requires { start + len ≤ length cells.old }
    ensures { take len (drop start cells.new)
        ≡ map to_ascii_lowercase (take len (drop start cells.old)) }
{
    cells[start..start + len].make_ascii_lowercase();
}
