//! Parts of a text: what is taken out of it, what stands before and after a character, what is
//! left without white space, and what is made of copies.
ghost use Rattle.std.specs.Prelude.{◌≡◌, ◌+◌, ◌*◌, ◌≤◌, ◌<◌, ◌↔◌, ◌++◌, ◌==◌, [], ◌∷◌, length, IsTrue, IfOk, IfNone, IfSome, IsSome, IsOk, OnOk, OnErr, IsUtf8};
ghost use Rattle.std.specs.List.{remove_range, repeat, slice_range};
ghost use Rattle.std.specs.Str.{chars, NonePass, trim};
ghost use Rattle.inlinable_string.specs.Text.{bytes_of, size, IsPlace};
ghost use Rattle.inlinable_string.specs.State.{IsSameText};
ghost use Rattle.inlinable_string.specs.Values.{inlinable_state};

use inlinable_string::laws::drained_parts_are_those_of_bytes;
use inlinable_string::string_ext::split_once;
use inlinable_string::{InlinableStringN, InlineStringN, Storage, StringExt};
use std::alloc::{AllocError, Global};

/// Cuts a selection out of a line, to be pasted elsewhere.
pub fn cut_out<const N: usize>(
    line: &mut InlinableStringN<N>,
    from: usize,
    to: usize,
) -> Result<InlinableStringN<N>, AllocError>
    requires from { IsPlace (inlinable_state N line.old).text from }
    requires to { IsPlace (inlinable_state N line.old).text to }
    requires order { from ≤ to }
    ensures taken { IfOk result (λ taken. bytes_of (inlinable_state N taken).text
        ≡ slice_range (bytes_of (inlinable_state N line.old).text) from to) }
    ensures left { OnOk result (bytes_of (inlinable_state N line.new).text
        ≡ remove_range (bytes_of (inlinable_state N line.old).text) from to) }
    ensures err { OnErr result
        (IsSameText (inlinable_state N line.old) (inlinable_state N line.new)) }
    ensures room { IfOk result (λ taken. size (inlinable_state N taken).text
        ≤ (inlinable_state N taken).capacity) }
    ensures short { to ≤ from + N → IsOk result }
{
    drained_parts_are_those_of_bytes();
    line.drain(from..to)
}

/// Moves the first `n` bytes of a line to its end, where there is room for them. Needs no memory
/// if the line is inline.
pub fn rotate<const N: usize>(line: &mut InlinableStringN<N>, n: usize) -> Result<(), AllocError>
    requires { IsPlace (inlinable_state N line.old).text n }
    ensures len { size (inlinable_state N line.new).text
        ≡ size (inlinable_state N line.old).text }
    ensures storage { (inlinable_state N line.new).storage
        ≡ (inlinable_state N line.old).storage }
    ensures inline { (inlinable_state N line.old).storage ≡ Storage.Inline → IsOk result }
{
    let _ = line.len();
    let first = line.drain(0..n)?;
    let Ok(()) = line.push_str(first.as_str()) else {
        unreachable!();
    };
    Ok(())
}

/// Types over a selection, and returns it with the number of bytes that come after it.
pub fn type_over<const N: usize>(
    line: &mut InlinableStringN<N>,
    from: usize,
    to: usize,
    typed: &str,
) -> Result<(InlinableStringN<N>, usize), AllocError>
    requires from { IsPlace (inlinable_state N line.old).text from }
    requires to { IsPlace (inlinable_state N line.old).text to }
    requires order { from ≤ to }
    ensures after { IfOk result
        (λ taken. to + taken.1 ≡ size (inlinable_state N line.old).text) }
{
    let len = line.len();
    let selection = line.drain(from..to)?;
    let after = len - to;
    line.insert_str(from, typed)?;
    Ok((selection, after))
}

/// Takes a short line off a buffer and ends it. It is inline, and has the room of that.
pub fn next_line<const N: usize>(
    buffer: &mut InlinableStringN<N>,
    end: usize,
) -> InlinableStringN<N>
    requires place { IsPlace (inlinable_state N buffer.old).text end }
    requires short { end < N }
    ensures size { size (inlinable_state N result).text ≡ end + 1 }
    ensures storage { (inlinable_state N result).storage ≡ Storage.Inline }
    ensures room { N ≤ (inlinable_state N result).capacity }
{
    let Ok(mut line) = buffer.drain(0..end) else {
        unreachable!();
    };
    let Ok(()) = line.push('\n') else {
        unreachable!();
    };
    line
}

/// Deletes a word of a line in an array, and returns the number of bytes that came after it.
pub fn delete_word<const N: usize>(line: &mut InlineStringN<N>, from: usize, to: usize) -> usize
    requires from { IsPlace line.old from }
    requires to { IsPlace line.old to }
    requires order { from ≤ to }
    ensures { to + result ≡ size line.old }
{
    let len = line.len();
    let _ = line.drain(from..to);
    len - to
}

/// Takes a word of known length off the start of a line in an array.
pub fn take_word<const N: usize>(line: &mut InlineStringN<N>, end: usize) -> InlineStringN<N>
    requires { IsPlace line.old end }
    ensures word { size result ≡ end }
    ensures left { end + size line.new ≡ size line.old }
    ensures fits { size result ≤ N }
{
    line.drain(0..end)
}

/// The key and the value of a line such as `key=value`.
pub fn key_and_value<S: StringExt>(line: &S) -> Option<(&str, &str)>
    ensures parts { IfSome result (λ pair. (S.state line.now).text
        ≡ chars pair.0.now ++ 61 ∷ chars pair.1.now) }
    ensures none { IfNone result (NonePass (λ c. c == 61) (S.state line.now).text) }
{
    split_once(line, '=')
}

/// What a user typed, without white space at the ends.
pub fn tidy<const N: usize>(typed: &mut InlineStringN<N>)
    ensures text { typed.new ≡ chars (trim (bytes_of typed.old)) }
    ensures size { size typed.new ≤ size typed.old }
{
    typed.trim_in_place();
}

/// The same of a text of any length; it stays where it is stored.
pub fn tidy_any<const N: usize>(typed: &mut InlinableStringN<N>)
    ensures bytes { bytes_of (inlinable_state N typed.new).text
        ≡ trim (bytes_of (inlinable_state N typed.old).text) }
    ensures storage { (inlinable_state N typed.new).storage
        ≡ (inlinable_state N typed.old).storage }
{
    typed.trim_in_place();
}

/// A rule of dashes, where it fits in a line.
pub fn rule(width: usize) -> Option<InlineStringN<80>>
    ensures drawn { IfSome result (λ rule. bytes_of rule ≡ repeat width (45 ∷ [])) }
    ensures when { IsSome result ↔ (width ≤ 80) }
{
    InlineStringN::repeat("-", width).ok()
}

/// An indentation of `depth` tabs, which needs no memory where it is inline.
pub fn indentation<const N: usize>(
    alloc: Global,
    depth: usize,
) -> Result<InlinableStringN<N>, AllocError>
    ensures size { IfOk result (λ tabs. size (inlinable_state N tabs).text ≡ depth) }
    ensures shallow { depth ≤ N → IfOk result
        (λ tabs. (inlinable_state N tabs).storage ≡ Storage.Inline) }
    ensures granted { depth ≤ N → IsOk result }
{
    InlinableStringN::repeat(alloc, "\t", depth)
}

/// The name in a packet, if it is text of at most sixteen bytes.
pub fn name_from(packet: &[u8]) -> Option<InlineStringN<16>>
    ensures when { IsSome result ↔ ((length packet.now ≤ 16) × IsUtf8 packet.now) }
    ensures name { IfSome result (λ name. bytes_of name ≡ packet.now) }
{
    if 16 < packet.len() {
        return None;
    }
    InlineStringN::from_utf8(packet).ok()
}

/// Whether a word fits at the end of a line, with a space before it unless the line is full.
pub fn has_room_for<const N: usize>(line: &InlineStringN<N>, word: &str) -> bool
    ensures { IsTrue result ↔ (size line.now + length word.now + 1 ≤ N) }
{
    !line.is_full() && word.len() < line.remaining_capacity()
}
