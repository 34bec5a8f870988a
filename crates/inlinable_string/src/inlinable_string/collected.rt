//! std's `extend` and `collect`, over characters and strings. After a failure the text has the
//! items before the one that failed.
ghost use Rattle.std.specs.Prelude.{◌≡◌, IsOk};
ghost use Rattle.std.specs.Iterator.{IsFinite, HoldsAlong, ExtendsWithItems};
ghost use Rattle.std.specs.Iterator.Runs.{EachRunFrom};
ghost use Rattle.inlinable_string.specs.Text.{size};
ghost use Rattle.inlinable_string.specs.State.{HasRoom, storage_when_made};
ghost use Rattle.inlinable_string.specs.Joins.{text_of_strs, IsExtended};
ghost use Rattle.inlinable_string.specs.Values.{inlinable_policy, inlinable_state};

use crate::inlinable_string::InlinableStringN;
use std::alloc::{AllocError, Global};

impl<const N: usize> Extend<char> for InlinableStringN<N> {
    ghost extend_gives = { λ s items t.
        IsExtended (inlinable_state N s) items (inlinable_state N t) };

    fn extend<U: IntoIterator<Item = char>>(&mut self, iter: U) -> Result<(), AllocError>
        requires { (it : U.IntoIter) → U.into_iter_gives iter it
            → U.IntoIter.can_next it × IsFinite (U.IntoIter.remaining it)
            × HoldsAlong U.IntoIter.next_gives it
            (⟦<InlinableStringN<N> as Extend<char>>⟧.can_extend self.old) }
        ensures ran { ExtendsWithItems U.into_iter_gives U.IntoIter.next_gives
            ⟦<InlinableStringN<N> as Extend<char>>⟧.extend_gives iter self.old self.new result }
        // What fits cannot fail.
        ensures granted { ((it : U.IntoIter) → U.into_iter_gives iter it
            → EachRunFrom U.IntoIter.next_gives it
            (λ run. HasRoom (inlinable_state N self.old) (size run.items))) → IsOk result }
    {
        self.extend_chars(iter.into_iter())
    }
}

impl<'a, const N: usize> Extend<&'a str> for InlinableStringN<N> {
    ghost extend_gives = { λ s items t.
        IsExtended (inlinable_state N s) (text_of_strs items) (inlinable_state N t) };

    fn extend<U: IntoIterator<Item = &'a str>>(&mut self, iter: U) -> Result<(), AllocError>
        requires { (it : U.IntoIter) → U.into_iter_gives iter it
            → U.IntoIter.can_next it × IsFinite (U.IntoIter.remaining it)
            × HoldsAlong U.IntoIter.next_gives it
            (⟦<InlinableStringN<N> as Extend<&'a str>>⟧.can_extend self.old) }
        ensures ran { ExtendsWithItems U.into_iter_gives U.IntoIter.next_gives
            ⟦<InlinableStringN<N> as Extend<&'a str>>⟧.extend_gives iter self.old self.new result }
        // What fits cannot fail.
        ensures granted { ((it : U.IntoIter) → U.into_iter_gives iter it
            → EachRunFrom U.IntoIter.next_gives it (λ run.
            HasRoom (inlinable_state N self.old) (size (text_of_strs run.items))))
            → IsOk result }
    {
        self.extend_strs(iter.into_iter())
    }
}

impl<const N: usize> FromIterator<char> for InlinableStringN<N> {
    type Alloc = Global;

    ghost from_iter_gives = { λ items t. ((inlinable_state N t).text ≡ items)
        × ((inlinable_state N t).storage ≡ storage_when_made (inlinable_policy N) (size items)) };

    fn from_iter<U: IntoIterator<Item = char>>(alloc: Global, iter: U) -> Result<Self, AllocError> {
        Self::from_chars(alloc, iter.into_iter())
    }
}

impl<'a, const N: usize> FromIterator<&'a str> for InlinableStringN<N> {
    type Alloc = Global;

    ghost from_iter_gives = { λ items t. ((inlinable_state N t).text ≡ text_of_strs items)
        × ((inlinable_state N t).storage
        ≡ storage_when_made (inlinable_policy N) (size (text_of_strs items))) };

    fn from_iter<U: IntoIterator<Item = &'a str>>(
        alloc: Global,
        iter: U,
    ) -> Result<Self, AllocError> {
        Self::from_strs(alloc, iter.into_iter())
    }
}
