//! The copy of a text in an array.
ghost use Rattle.std.specs.Prelude.{◌≡◌};

use super::InlineStringN;

impl<const N: usize> InlineStringN<N> {
    /// Returns a copy of the text. The same as `clone`, without the `Result` that std's `Clone`
    /// needs for types that allocate.
    #[inline]
    pub fn copy(&self) -> Self
        ensures { result ≡ self.now }
    {
        InlineStringN {
            window: self.window,
        }
    }
}
