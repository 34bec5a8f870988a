//! The empty texts that std makes: for a vacant entry of a map, and to replace one that is taken.
ghost use Rattle.std.specs.Prelude.{◌≡◌, [], IfOk, IsOk};
ghost use Rattle.inlinable_string.specs.declared.string_ext.Storage.TheVariants.{Inline};
ghost use Rattle.inlinable_string.specs.Values.{inlinable_state};

use super::InlinableStringN;
use crate::string_ext::{Storage, StringMake};
use std::alloc::{AllocError, Global};
use std::default::{Emptied, MadeWith};

/// What `or_default` puts into a map: the empty text, stored inline. Does not allocate.
impl<const N: usize> MadeWith<Global> for InlinableStringN<N> {
    ghost is_made_with = { λ made. ((inlinable_state N made).text ≡ [])
        × ((inlinable_state N made).storage ≡ Inline) };

    fn made_with(alloc: Global) -> Self {
        Self::new(alloc)
    }
}

/// What `mem::try_take` leaves: the empty text, stored inline, with the allocator of the one that
/// is taken. Does not allocate, and so cannot fail.
impl<const N: usize> Emptied for InlinableStringN<N> {
    ghost is_emptied = { λ left. ((inlinable_state N left).text ≡ [])
        × ((inlinable_state N left).storage ≡ Inline) };

    fn emptied(like: &Self) -> Result<Self, AllocError>
        ensures empty { IfOk result (λ left. ((inlinable_state N left).text ≡ [])
            × ((inlinable_state N left).storage ≡ Storage.Inline)) }
        ensures granted { IsOk result }
    {
        match like {
            InlinableStringN::Heap(_, alloc) | InlinableStringN::Inline(_, alloc) => {
                Ok(Self::new(*alloc))
            }
        }
    }
}
