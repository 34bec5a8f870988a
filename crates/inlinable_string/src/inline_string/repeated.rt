//! Copies of a string, one after the other, in an array.
ghost use Rattle.std.specs.Prelude.{◌≡◌, ◌*◌, ◌≤◌, ◌<◌, length, IfOk, MatchResult};
ghost use Rattle.std.specs.List.{repeat};
ghost use Rattle.std.specs.Str.{chars};
ghost use Rattle.inlinable_string.specs.Text.{bytes_of, size};

use super::{InlineStringN, NotEnoughSpaceError};

impl<const N: usize> InlineStringN<N> {
    /// Makes a text of `times` copies of `string`. Fails exactly if it would have more than `N`
    /// bytes.
    pub fn repeat(string: &str, times: usize) -> Result<Self, NotEnoughSpaceError>
        ensures fits { MatchResult result
            (λ _. times * length string.now ≤ N)
            (λ _. N < times * length string.now) }
        ensures text { IfOk result (λ made. made ≡ repeat times (chars string.now)) }
        ensures bytes { IfOk result (λ made. bytes_of made ≡ repeat times string.now) }
        ensures len { IfOk result (λ made. size made ≡ times * length string.now) }
    {
        let mut made = Self::new();
        if string.is_empty() {
            return Ok(made);
        }
        for _ in 0..times {
            made.push_str(string)?;
        }
        Ok(made)
    }
}
