//! The entries of a store, as a list.
ghost use Rattle.std.specs.Prelude.{◌≡◌, ℕ, ◌<◌, ◌≤◌, [], length, is_ok, if◌then◌else◌, slice_index_or, slice_set};
ghost use Rattle.std.specs.List.{insert, remove};

use super::Entry;
use inlinable_string::InlinableString;
use row::Row;
use std::alloc::{AllocError, Global};
use std::marker::Model;

mod row;

/// Entries in a row, with room on both sides, of which a contract sees the list. An insertion or a
/// removal among many moves those on the shorter side of its index, and among few those after it.
/// Where the side that is to move has no room, a pass over all entries makes it, for at least an
/// eighth of their number; if an allocation for it fails, the room on the other side is used. The
/// contracts of `Row` say which entries move, and for how many there is memory.
#[derive(Drop)]
pub(crate) struct Window {
    row: Row,
}

impl Model for Window {
    ghost use Rattle.std.specs.Prelude.{List};
    ghost use Rattle.inlinable_string.specs.declared.inlinable_string.InlinableStringN.{InlinableStringN};

    ghost Value = { List (InlinableStringN 30 × InlinableStringN 30) };

    ghost use Rattle.inline_uses.specs.Rows.{entries, IsRow};

    ghost view = { λ w. entries w.row };

    ghost invariant = { λ w. IsRow w.row };
}

impl Window {
    /// Returns the row of no entry.
    pub(crate) fn new(alloc: Global) -> Self
        ensures { result ≡ [] }
    {
        Window {
            row: Row::new(alloc),
        }
    }

    /// Returns the number of entries.
    pub(crate) fn len(&self) -> usize
        ensures { result ≡ length self.now }
    {
        self.row.len()
    }

    /// Returns the entries.
    pub(crate) fn as_slice(&self) -> &[Entry]
        ensures { result.now ≡ self.now }
    {
        self.row.as_slice()
    }

    /// Puts a value in place of that of the entry at an index. Does not allocate.
    pub(crate) fn set_value(&mut self, at: usize, value: InlinableString)
        requires { at < length self.old }
        ensures { (d : _) → self.new
            ≡ slice_set self.old at ((slice_index_or self.old at d).0, value) }
    {
        self.row.set_value(at, value);
    }

    /// Inserts an entry at an index. Fails only if there is no room and an allocation fails; the
    /// entries are then unchanged.
    #[inline]
    pub(crate) fn insert(&mut self, at: usize, entry: Entry) -> Result<(), AllocError>
        requires { at ≤ length self.old }
        ensures { self.new ≡ (if is_ok result then insert self.old at entry else self.old) }
    {
        self.row.insert(at, entry)
    }

    /// Removes the entry at an index. Does not allocate.
    #[inline]
    pub(crate) fn remove(&mut self, at: usize)
        requires { at < length self.old }
        ensures { self.new ≡ remove self.old at }
    {
        self.row.remove(at);
    }
}
