//! How many bytes more fit in a text in an array.
ghost use Rattle.std.specs.Prelude.{◌≡◌, ◌+◌, ◌↔◌, IsTrue};
ghost use Rattle.inlinable_string.specs.Text.{size};

use super::InlineStringN;

impl<const N: usize> InlineStringN<N> {
    /// Returns how many bytes can still be added: `N` less the length.
    #[inline]
    pub fn remaining_capacity(&self) -> usize
        ensures { size self.now + result ≡ N }
    {
        N - self.len()
    }

    /// Returns whether the text has `N` bytes, so that nothing can be added.
    #[inline]
    pub fn is_full(&self) -> bool
        ensures { IsTrue result ↔ (size self.now ≡ N) }
    {
        self.len() == N
    }
}
