//! Where the entries of a store are stored: how many move for an edit, and what memory they have.
ghost use Rattle.std.specs.Prelude.{◌≡◌, ◌+◌, ◌/◌, ◌<◌, ◌≤◌, [], true, false, length, take, drop, is_ok, if◌then◌else◌, IsOk, OnOk, slice_index_or, slice_set, vec_len, vec_capacity};
ghost use Rattle.std.specs.List.{insert, remove};
ghost use Rattle.inline_uses.specs.Rows.{entries, moves_head, next_places, places, room_before, HasRoomAfter, HasRoomBefore, IsRow};

use crate::store::Entry;
use inlinable_string::{InlinableString, StringMake};
use std::alloc::{AllocError, Global};

/// With fewer entries those after an index move, whichever are fewer: that is as fast.
const LONG_ROW: usize = 64;

/// The least number of places by which the memory grows.
const LEAST: usize = 4;

/// Entries after blank ones.
#[derive(Drop)]
pub(super) struct Row {
    /// Blank entries, and after them the entries.
    cells: Vec<Entry>,
    /// The number of blank entries.
    start: usize,
}

impl Row {
    /// Returns the row of no entry. Does not allocate.
    pub(super) fn new(alloc: Global) -> Self
        ensures entries { entries result ≡ [] }
        ensures row { IsRow result }
    {
        Row {
            cells: Vec::new(alloc),
            start: 0,
        }
    }

    /// Returns the number of entries.
    pub(super) fn len(&self) -> usize
        requires { IsRow self.now }
        ensures { result ≡ length (entries self.now) }
    {
        self.cells.len() - self.start
    }

    /// Returns the entries.
    pub(super) fn as_slice(&self) -> &[Entry]
        requires { IsRow self.now }
        ensures { result.now ≡ entries self.now }
    {
        &self.cells[self.start..]
    }

    /// Puts a value in place of that of the entry at an index. Does not allocate.
    #[tactic(auto, using(crate::proofs::Rows::value_set))]
    pub(super) fn set_value(&mut self, at: usize, value: InlinableString)
        requires row { IsRow self.old }
        requires within { at < length (entries self.old) }
        ensures entries { (d : _) → entries self.new ≡ slice_set (entries self.old) at
            ((slice_index_or (entries self.old) at d).0, value) }
        ensures row { IsRow self.new }
        ensures start { self.new.start ≡ self.old.start }
    {
        self.cells[self.start + at].1 = value;
    }

    /// Inserts an entry at an index. Fails only if there is no room and an allocation fails; the
    /// entries are then unchanged.
    #[inline]
    #[tactic(auto, using(crate::proofs::Rows::inserted_after))]
    pub(super) fn insert(&mut self, at: usize, entry: Entry) -> Result<(), AllocError>
        requires row { IsRow self.old }
        requires within { at ≤ length (entries self.old) }
        ensures entries { entries self.new
            ≡ (if is_ok result then insert (entries self.old) at entry else entries self.old) }
        ensures row { IsRow self.new }
        // With a blank entry before them, those before the index move over it.
        ensures head { moves_head (length (entries self.old)) at ≡ true → 0 < self.old.start
            → (self.new.start + 1 ≡ self.old.start) × (places self.new ≡ places self.old) }
        // With room after them, those after the index move into it.
        ensures tail { moves_head (length (entries self.old)) at ≡ false
            → vec_len self.old.cells < places self.old
            → (self.new.start ≡ self.old.start) × (places self.new ≡ places self.old) }
        // Without such room, it comes from the other side if that has enough, and else is new.
        ensures before { moves_head (length (entries self.old)) at ≡ true → HasRoomAfter self.old
            → (self.new.start + 1 ≡ room_before self.old (places self.old))
            × (places self.new ≡ places self.old) }
        ensures after { moves_head (length (entries self.old)) at ≡ false → HasRoomBefore self.old
            → (self.new.start ≡ self.old.start / 2) × (places self.new ≡ places self.old) }
        ensures grown { places self.old < places self.new
            → places self.new ≡ next_places self.old }
    {
        let head = self.moves_head(at);
        self.make_room(head)?;
        if head && 0 < self.start {
            self.start -= 1;
            insert_shifting_head(&mut self.cells, self.start, at, entry);
            return Ok(());
        }
        self.cells.insert(self.start + at, entry)?;
        Ok(())
    }

    /// Removes the entry at an index. Those before it move up if they are fewer and there are many,
    /// and leave a blank entry; else those after it move down. Does not allocate.
    #[inline]
    #[tactic(auto, using(crate::proofs::Rows::removed_after))]
    pub(super) fn remove(&mut self, at: usize)
        requires row { IsRow self.old }
        requires within { at < length (entries self.old) }
        ensures entries { entries self.new ≡ remove (entries self.old) at }
        ensures row { IsRow self.new }
        ensures start { self.new.start ≡ (if moves_head (length (entries self.old)) at
            then self.old.start + 1 else self.old.start) }
        ensures places { places self.new ≡ places self.old }
    {
        if self.moves_head(at) {
            let blank = blank(*self.cells.allocator());
            remove_shifting_head(&mut self.cells, self.start, at, blank);
            self.start += 1;
        } else {
            drop(self.cells.remove(self.start + at));
        }
    }

    /// Returns whether an edit at an index wants to move those before it: there are many entries,
    /// and fewer are before the index than after it.
    fn moves_head(&self, at: usize) -> bool
        requires { IsRow self.now }
        ensures { result ≡ moves_head (length (entries self.now)) at }
    {
        let len = self.len();
        LONG_ROW <= len && at < len / 2
    }

    /// Makes room for an insertion: before the entries if those before its index are to move, and
    /// after them if they are not, or if an allocation fails. Changes nothing where there is room.
    /// Fails only if there is none on either side and an allocation fails.
    #[inline]
    fn make_room(&mut self, head: bool) -> Result<(), AllocError>
        requires row { IsRow self.old }
        requires many { head ≡ true → LONG_ROW ≤ length (entries self.old) }
        ensures entries { entries self.new ≡ entries self.old }
        ensures row { IsRow self.new }
        ensures room { OnOk result (vec_len self.new.cells ≡ places self.new
            → (head ≡ true) × (0 < self.new.start)) }
        ensures head { head ≡ true → 0 < self.old.start → (self.new ≡ self.old) × IsOk result }
        ensures tail { head ≡ false → vec_len self.old.cells < places self.old
            → (self.new ≡ self.old) × IsOk result }
        ensures before { head ≡ true → HasRoomAfter self.old
            → (self.new.start ≡ room_before self.old (places self.old))
            × (places self.new ≡ places self.old) × IsOk result }
        ensures after { head ≡ false → HasRoomBefore self.old
            → (self.new.start ≡ self.old.start / 2) × (places self.new ≡ places self.old)
            × (vec_len self.new.cells < places self.new) × IsOk result }
        ensures grown { places self.old < places self.new
            → places self.new ≡ next_places self.old }
        ensures kept { places self.old ≤ places self.new }
    {
        if head && self.start == 0 {
            self.make_room_before();
        }
        if head && 0 < self.start || self.cells.len() < self.cells.capacity() {
            return Ok(());
        }
        self.make_room_after()
    }

    /// Makes room before the entries, where there is none: as much as stays after them, and at most
    /// as much as they take. Allocates as much again as there is if less than a quarter of what
    /// they take is left, and changes nothing if that fails.
    #[cold]
    #[inline(never)]
    fn make_room_before(&mut self)
        requires start { self.old.start ≡ 0 }
        requires many { LONG_ROW ≤ vec_len self.old.cells }
        ensures entries { entries self.new ≡ entries self.old }
        ensures row { IsRow self.new }
        ensures room { vec_len self.old.cells + vec_len self.old.cells / 4 ≤ places self.new
            → (self.new.start ≡ room_before self.old (places self.new)) × (0 < self.new.start) }
        ensures kept { HasRoomAfter self.old → places self.new ≡ places self.old }
        ensures grown { places self.old < places self.new
            → places self.new ≡ next_places self.old }
        ensures failed { places self.new < vec_len self.old.cells + vec_len self.old.cells / 4
            → (self.new.start ≡ 0) × (vec_len self.new.cells ≡ vec_len self.old.cells)
            × (places self.new ≡ places self.old) }
        ensures places { places self.old ≤ places self.new }
    {
        let len = self.cells.len();
        let all = self.cells.capacity();
        if all - len < len / 4 && self.cells.reserve_exact(all).is_err() {
            return;
        }
        let room = len.min((self.cells.capacity() - len) / 2);
        push_blanks(&mut self.cells, room);
        self.cells.rotate_right(room);
        self.start = room;
    }

    /// Makes room after the entries, where there is none: half of that before them, if it is for
    /// more than a quarter of their number. Else it allocates as much as all take, and if that
    /// fails uses all the room before them. Fails only if there is none; nothing has then changed.
    #[cold]
    #[inline(never)]
    fn make_room_after(&mut self) -> Result<(), AllocError>
        requires row { IsRow self.old }
        requires full { vec_len self.old.cells ≡ places self.old }
        ensures entries { entries self.new ≡ entries self.old }
        ensures row { IsRow self.new }
        ensures room { OnOk result (vec_len self.new.cells < places self.new) }
        ensures half { HasRoomBefore self.old → (self.new.start ≡ self.old.start / 2)
            × (places self.new ≡ places self.old) × IsOk result }
        ensures grown { places self.old < places self.new
            → (self.new.start ≡ self.old.start) × (places self.new ≡ next_places self.old) }
        ensures failed { self.old.start ≤ length (entries self.old) / 4
            → places self.new ≡ places self.old → self.new.start ≡ 0 }
        ensures places { places self.old ≤ places self.new }
    {
        let mut kept = self.start / 2;
        if self.start <= self.len() / 4 {
            let grown = self.cells.reserve_exact(self.cells.len().max(LEAST));
            if self.start == 0 || grown.is_ok() {
                return grown;
            }
            kept = 0;
        }
        let room = self.start - kept;
        self.cells.rotate_left(room);
        self.cells.truncate(self.cells.len() - room);
        self.start = kept;
        Ok(())
    }
}

/// An entry of two empty texts, which own no memory.
fn blank(alloc: Global) -> Entry {
    (InlinableString::new(alloc), InlinableString::new(alloc))
}

/// Appends blank entries.
fn push_blanks(cells: &mut Vec<Entry>, count: usize)
    requires { vec_len cells.old + count ≤ vec_capacity cells.old }
    ensures entries { take (vec_len cells.old) cells.new.items ≡ cells.old.items }
    ensures len { vec_len cells.new ≡ vec_len cells.old + count }
    ensures capacity { vec_capacity cells.new ≡ vec_capacity cells.old }
{
    let alloc = *cells.allocator();
    for _ in 0..count {
        cells.push_reserved(blank(alloc));
    }
}

/// Inserts an entry at an index of the row that begins after the blank entry at `start`. Those
/// before the index move down over the blank one.
fn insert_shifting_head(cells: &mut [Entry], start: usize, at: usize, entry: Entry)
    requires { start + at < length cells.old }
    ensures { drop start cells.new ≡ insert (drop (start + 1) cells.old) at entry }
{
    cells[start] = entry;
    cells[start..=start + at].rotate_left(1);
}

/// Removes the entry at an index of the row that begins at `start`. Those before the index move up,
/// and a blank entry is left at `start`.
fn remove_shifting_head(cells: &mut [Entry], start: usize, at: usize, blank: Entry)
    requires { start + at < length cells.old }
    ensures { drop (start + 1) cells.new ≡ remove (drop start cells.old) at }
{
    cells[start..=start + at].rotate_right(1);
    cells[start] = blank;
}
