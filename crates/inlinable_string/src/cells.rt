//! Moves of bytes inside a slice.
//!
//! The window is `start..start + len`; the bytes on both sides of it are free.
ghost use Rattle.std.specs.Prelude.{◌≡◌, ◌+◌, ◌-◌, ◌≤◌, ◌<◌, ◌++◌, [], ◌∷◌, length, take, drop};
ghost use Rattle.std.specs.List.{insert_slice, remove_range};
ghost use Rattle.inlinable_string.specs.Cells.{start_with_less, start_with_more};

/// Overwrites the bytes from `at` on.
#[inline]
pub(crate) fn write_at(cells: &mut [u8], at: usize, added: &[u8])
    requires { at + length added.now ≤ length cells.old }
    ensures text { take (at + length added.now) cells.new ≡ take at cells.old ++ added.now }
    ensures behind { drop (at + length added.now) cells.new
        ≡ drop (at + length added.now) cells.old }
{
    cells[at..at + added.len()].copy_from_slice(added);
}

/// Overwrites the first bytes.
#[inline]
pub(crate) fn write_front(cells: &mut [u8], added: &[u8])
    requires { length added.now ≤ length cells.old }
    ensures { cells.new ≡ added.now ++ drop (length added.now) cells.old }
{
    cells[..added.len()].copy_from_slice(added);
}

/// Inserts bytes at `at` of the first `len` bytes; those after it move up.
#[inline]
pub(crate) fn insert_up(cells: &mut [u8], len: usize, at: usize, added: &[u8])
    requires place { at ≤ len }
    requires room { len + length added.now ≤ length cells.old }
    ensures { take (len + length added.now) cells.new
        ≡ insert_slice (take len cells.old) at added.now }
{
    let end = at + added.len();
    cells.copy_within(at..len, end);
    cells[at..end].copy_from_slice(added);
}

/// Inserts `added` at `at` of the `len` bytes that start at `added.len()`; those before `at` move
/// down.
#[inline]
pub(crate) fn insert_down(cells: &mut [u8], len: usize, at: usize, added: &[u8])
    requires place { at ≤ len }
    requires room { len + length added.now ≤ length cells.old }
    ensures { take (len + length added.now) cells.new
        ≡ insert_slice (take len (drop (length added.now) cells.old)) at added.now }
{
    let count = added.len();
    let end = at + count;
    cells.copy_within(count..end, 0);
    cells[at..end].copy_from_slice(added);
}

/// Removes `from..to` from the first `len` bytes; those after it move down.
#[inline]
pub(crate) fn remove_down(cells: &mut [u8], len: usize, from: usize, to: usize)
    requires order { from ≤ to }
    requires place { to ≤ len }
    requires room { len ≤ length cells.old }
    ensures { take (len - (to - from)) cells.new ≡ remove_range (take len cells.old) from to }
{
    cells.copy_within(to..len, from);
}

/// Removes `from..to` from the first `len` bytes; those before it move up.
#[inline]
pub(crate) fn remove_up(cells: &mut [u8], len: usize, from: usize, to: usize)
    requires order { from ≤ to }
    requires place { to ≤ len }
    requires room { len ≤ length cells.old }
    ensures { take (len - (to - from)) (drop (to - from) cells.new)
        ≡ remove_range (take len cells.old) from to }
{
    cells.copy_within(0..from, to - from);
}

/// Moves the window to the front.
#[inline]
pub(crate) fn move_to_front(cells: &mut [u8], start: usize, len: usize)
    requires { start + len ≤ length cells.old }
    ensures { take len cells.new ≡ take len (drop start cells.old) }
{
    cells.copy_within(start..start + len, 0);
}

/// Inserts bytes at `at` of the window, and returns its new start. Out of line: the usual push or
/// insertion moves nothing.
///
/// If both sides have room, the shorter part moves; if one side has, the part on that side; if
/// neither has, the window first moves to the front.
#[inline(never)]
pub(crate) fn insert_in(
    cells: &mut [u8],
    start: usize,
    len: usize,
    at: usize,
    added: &[u8],
) -> usize
    requires place { at ≤ len }
    requires inside { start + len ≤ length cells.old }
    requires room { len + length added.now ≤ length cells.old }
    ensures start { result
        ≡ start_with_more start (length cells.old - len - start) len at (length added.now) }
    ensures inside { result + (len + length added.now) ≤ length cells.old }
    ensures text { take (len + length added.now) (drop result cells.new)
        ≡ insert_slice (take len (drop start cells.old)) at added.now }
{
    let count = added.len();
    let behind = cells.len() - len - start;
    if count <= behind && (start < count || len - at <= at) {
        insert_up(&mut cells[start..], len, at, added);
        start
    } else if count <= start {
        let earlier = start - count;
        insert_down(&mut cells[earlier..], len, at, added);
        earlier
    } else {
        move_to_front(cells, start, len);
        insert_up(cells, len, at, added);
        0
    }
}

/// `insert_in` of one byte, whose moves are by a constant. Writes the start only if it changes.
#[inline]
pub(crate) fn insert_byte(cells: &mut [u8], start: &mut usize, len: usize, at: usize, byte: u8)
    requires place { at ≤ len }
    requires inside { start.old + len ≤ length cells.old }
    requires room { len < length cells.old }
    ensures start { start.new
        ≡ start_with_more start.old (length cells.old - len - start.old) len at 1 }
    ensures inside { start.new + (len + 1) ≤ length cells.old }
    ensures text { take (len + 1) (drop start.new cells.new)
        ≡ insert_slice (take len (drop start.old cells.old)) at (byte ∷ []) }
{
    if *start == 0 {
        insert_up(cells, len, at, &[byte][..]);
        return;
    }
    insert_byte_with_front_room(cells, start, len, at, byte);
}

/// `insert_byte` of a window with room before it. Out of line, to keep the insertion into a window
/// that starts at the front, as that of a new text does, small.
#[cold]
#[inline(never)]
fn insert_byte_with_front_room(cells: &mut [u8], start: &mut usize, len: usize, at: usize, byte: u8)
    requires front { 0 < start.old }
    requires place { at ≤ len }
    requires inside { start.old + len ≤ length cells.old }
    requires room { len < length cells.old }
    ensures start { start.new
        ≡ start_with_more start.old (length cells.old - len - start.old) len at 1 }
    ensures inside { start.new + (len + 1) ≤ length cells.old }
    ensures text { take (len + 1) (drop start.new cells.new)
        ≡ insert_slice (take len (drop start.old cells.old)) at (byte ∷ []) }
{
    let added = [byte];
    let old_start = *start;
    let behind = cells.len() - len - old_start;
    if 0 < behind && len - at <= at {
        insert_up(&mut cells[old_start..], len, at, &added[..]);
        return;
    }
    let earlier = old_start - 1;
    insert_down(&mut cells[earlier..], len, at, &added[..]);
    *start = earlier;
}

/// Removes `from..to` from the window, and returns its new start. The shorter part moves.
#[inline]
pub(crate) fn remove_in(cells: &mut [u8], start: usize, len: usize, from: usize, to: usize) -> usize
    requires order { from ≤ to }
    requires place { to ≤ len }
    requires inside { start + len ≤ length cells.old }
    ensures start { result ≡ start_with_less start len from (to - from) }
    ensures inside { result + (len - (to - from)) ≤ length cells.old }
    ensures text { take (len - (to - from)) (drop result cells.new)
        ≡ remove_range (take len (drop start cells.old)) from to }
{
    if from < len - to {
        remove_up(&mut cells[start..], len, from, to);
        start + (to - from)
    } else {
        remove_down(&mut cells[start..], len, from, to);
        start
    }
}
