//! The characters of a text that pass a test.
ghost use Rattle.std.specs.Prelude.{◌≡◌, ◌≤◌, ℕ, Bool, filter};
ghost use Rattle.inlinable_string.specs.Text.{size};
ghost use Rattle.inlinable_string.specs.Retained.{IsRetained, Tests};
ghost use Rattle.inlinable_string.specs.Values.{inlinable_state};

use super::InlinableStringN;

impl<const N: usize> InlinableStringN<N> {
    /// Keeps the characters for which `f` returns true, in their order. Calls it for each character
    /// once, from the first on. The storage and the capacity stay; it cannot fail.
    pub fn retain<F: FnMut(char) -> bool>(&mut self, f: F)
        requires { F.IsAlwaysCallable f }
        ensures text { IsRetained F.FnMut f (inlinable_state N self.old).text
            (inlinable_state N self.new).text }
        ensures filtered { (test : ℕ → Bool) → Tests F.FnMut f test
            → (inlinable_state N self.new).text ≡ filter test (inlinable_state N self.old).text }
        ensures bound { size (inlinable_state N self.new).text
            ≤ size (inlinable_state N self.old).text }
        ensures storage { (inlinable_state N self.new).storage
            ≡ (inlinable_state N self.old).storage }
        ensures capacity { (inlinable_state N self.new).capacity
            ≡ (inlinable_state N self.old).capacity }
        ensures policy { (inlinable_state N self.new).policy
            ≡ (inlinable_state N self.old).policy }
    {
        match self {
            InlinableStringN::Heap(text, _) => text.retain(f),
            InlinableStringN::Inline(text, _) => text.retain(f),
        }
    }
}
