//! A text as a `str`: `DerefStr` lends it to each method of `str`, and `AsSlice` its bytes to
//! generic code.
ghost use Rattle.std.specs.Prelude.{◌≡◌};
ghost use Rattle.inlinable_string.specs.Text.{bytes_of};
ghost use Rattle.inlinable_string.specs.Values.{inlinable_state};

use crate::inlinable_string::InlinableStringN;
use crate::string_ext::StringExt;
use std::convert::AsSlice;
use std::ops::DerefStr;

impl<const N: usize> DerefStr for InlinableStringN<N> {
    ghost deref_gives = { λ s bytes. bytes ≡ bytes_of (inlinable_state N s).text };

    fn deref(&self) -> &str {
        StringExt::as_str(self)
    }
}

impl<const N: usize> AsSlice<u8> for InlinableStringN<N> {
    ghost items = { λ s. bytes_of (inlinable_state N s).text };

    fn as_slice(&self) -> &[u8] {
        StringExt::as_bytes(self)
    }
}
