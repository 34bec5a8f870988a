//! Texts that are joined from iterators and from strings out of an enum, printed, written into, and
//! used as a `str`.
ghost use Rattle.std.specs.Prelude.{◌≡◌, ◌+◌, ◌≤◌, ◌<◌, ◌↔◌, ◌++◌, ◌∷◌, length, codes, IfOk, IfErr, IsOk, OnOk, OnErr, IsTrue};
ghost use Rattle.std.specs.Iterator.{IsFinite};
ghost use Rattle.std.specs.Iterator.Runs.{SomeRun, WholeRun, EachRunFrom};
ghost use Rattle.std.specs.Str.{chars};
ghost use Rattle.std.specs.Str.Iter.{chars_rest};
ghost use Rattle.std.specs.String.{string_bytes};
ghost use Rattle.inlinable_string.specs.Text.{bytes_of, size};
ghost use Rattle.inlinable_string.specs.State.{IsSameText, HasRoom, storage_when_made};
ghost use Rattle.inlinable_string.specs.Joins.{text_of_strs, text_of_strs_with};
ghost use Rattle.inlinable_string.specs.Values.{inlinable_policy, inlinable_state};

use inlinable_string::inline_string::NotEnoughSpaceError;
use inlinable_string::laws::{loops_go_over_the_text, sizes_are_sums, writing_appends};
use inlinable_string::{InlinableString, InlinableStringN, InlineStringN, StringExt};
use std::alloc::{AllocError, Global};
use std::fmt::{self, Write};
use std::str::Chars;

/// Words joined.
pub fn joined<const N: usize>(
    alloc: Global,
    words: &[&str],
) -> Result<InlinableStringN<N>, AllocError>
    ensures text { IfOk result (λ made. (inlinable_state N made).text ≡ text_of_strs words.now) }
    ensures storage { IfOk result (λ made. (inlinable_state N made).storage
        ≡ storage_when_made (inlinable_policy N) (size (text_of_strs words.now))) }
{
    InlinableStringN::from_strs(alloc, words.iter().copied())
}

/// The path of names, with a slash between each two. It is made if it fits.
pub fn path_of(names: &[&str]) -> Result<InlineStringN<64>, NotEnoughSpaceError>
    ensures text { IfOk result (λ path. path ≡ text_of_strs_with (codes "/") names.now) }
    ensures fits { size (text_of_strs_with (codes "/") names.now) ≤ 64 → IsOk result }
{
    sizes_are_sums();
    InlineStringN::from_strs_with("/", names.iter().copied())
}

/// The fields of a row, with a separator of the caller's choice, inline where they fit.
pub fn row_of<'a, const N: usize, I: Iterator<Item = &'a str>>(
    alloc: Global,
    separator: &str,
    fields: I,
) -> Result<InlinableStringN<N>, AllocError>
    requires can { I.can_next fields }
    requires ends { IsFinite (I.remaining fields) }
    ensures text { IfOk result (λ row. WholeRun I.next_gives fields (λ run.
        (inlinable_state N row).text ≡ text_of_strs_with (chars separator.now) run.items)) }
    ensures storage { IfOk result (λ row. (inlinable_state N row).storage
        ≡ storage_when_made (inlinable_policy N) (size (inlinable_state N row).text)) }
    ensures err { OnErr result (SomeRun I.next_gives fields
        (λ run. N < size (text_of_strs_with (chars separator.now) run.items))) }
    ensures granted { EachRunFrom I.next_gives fields
        (λ run. size (text_of_strs_with (chars separator.now) run.items) ≤ N) → IsOk result }
{
    InlinableStringN::from_strs_with(alloc, separator, fields)
}

/// Characters appended to a text, by references too, and then words.
pub fn add_letters<const N: usize>(
    text: &mut InlinableStringN<N>,
    letters: &[char],
    more: &[char],
    words: &[&str],
) -> Result<(), AllocError>
    ensures { OnOk result ((inlinable_state N text.new).text ≡ ((inlinable_state N text.old).text
        ++ letters.now ++ more.now) ++ text_of_strs words.now) }
{
    text.extend_chars(letters.iter().copied())?;
    text.extend_char_refs(more.iter())?;
    text.extend_strs(words.iter().copied())
}

/// The same by `collect`.
pub fn collected(alloc: Global, word: &str) -> Result<InlinableString, AllocError>
    ensures text { IfOk result (λ made. bytes_of (inlinable_state 30 made).text ≡ word.now) }
    ensures storage { IfOk result (λ made. (inlinable_state 30 made).storage
        ≡ storage_when_made (inlinable_policy 30) (size (inlinable_state 30 made).text)) }
{
    word.chars().collect(alloc)
}

/// What a `for` over a word in an array goes over: its letters.
pub fn letters_of<'a, const N: usize>(word: &'a InlineStringN<N>) -> Chars<'a>
    ensures { chars_rest result ≡ bytes_of word.now }
{
    loops_go_over_the_text::<N>();
    word.into_iter()
}

/// A name with an ending, or the name back, unchanged.
pub fn with_ending<const N: usize>(
    name: InlinableStringN<N>,
    ending: &str,
) -> Result<InlinableStringN<N>, InlinableStringN<N>>
    ensures text { IfOk result (λ made. (inlinable_state N made).text
        ≡ (inlinable_state N name.entry).text ++ chars ending.now) }
    ensures err { IfErr result
        (λ same. IsSameText (inlinable_state N name.entry) (inlinable_state N same)) }
    ensures granted { HasRoom (inlinable_state N name.entry) (length ending.now) → IsOk result }
{
    name.add(ending)
}

/// The text as a `String`, as it prints.
pub fn printed<const N: usize>(
    alloc: Global,
    text: &InlinableStringN<N>,
) -> Result<String, AllocError>
    ensures { IfOk result (λ made. string_bytes made ≡ bytes_of (inlinable_state N text.now).text) }
{
    format!(in alloc; "{text}")
}

/// What the error of a growth prints.
pub fn reason(alloc: Global, error: &NotEnoughSpaceError) -> Result<String, AllocError>
    ensures { IfOk result (λ made. string_bytes made ≡ codes "the text does not fit") }
{
    format!(in alloc; "{error}")
}

/// Writes `name=value` at the end of a text.
pub fn write_pair<const N: usize>(
    text: &mut InlinableStringN<N>,
    name: &str,
    value: &InlineStringN<8>,
) -> fmt::Result
    ensures { OnOk result (bytes_of (inlinable_state N text.new).text
        ≡ bytes_of (inlinable_state N text.old).text ++ name.now ++ 61 ∷ bytes_of value.now) }
{
    writing_appends::<N>();
    write!(text, "{name}={value}")
}

/// Writes a string into a text that has room for it.
pub fn write_within<const N: usize>(text: &mut InlinableStringN<N>, string: &str) -> fmt::Result
    requires { HasRoom (inlinable_state N text.old) (length string.now) }
    ensures text { (inlinable_state N text.new).text
        ≡ (inlinable_state N text.old).text ++ chars string.now }
    ensures ok { IsOk result }
{
    text.write_str(string)
}

/// A part of a path: `+=` where it is known to fit.
pub fn add_part(path: &mut InlineStringN<16>, part: &str)
    requires { size path.old + length part.now ≤ 16 }
    ensures { path.new ≡ path.old ++ chars part.now }
{
    *path += part;
}

/// A function over `&str` is given a text.
pub fn same_length(line: &InlinableString, name: &InlineStringN<16>) -> bool
    ensures { IsTrue result ↔ (size (inlinable_state 30 line.now).text ≡ size name.now) }
{
    bytes_in(line) == bytes_in(name)
}

/// How many bytes a string has.
fn bytes_in(string: &str) -> usize
    ensures { result ≡ length string.now }
{
    string.len()
}

/// What is noted.
pub enum Note<'a> {
    /// A word.
    Word(&'a str),
    /// A gap between words.
    Gap,
}

/// Adds what a note says. A `&str` out of a variant is not known
/// to be UTF-8, so it goes by a function, whose parameter is.
pub fn add_note(text: &mut InlinableString, note: &Note) -> Result<(), AllocError>
    ensures { OnOk result ((word : _) → note.now ≡ Note.Word word
        → bytes_of (inlinable_state 30 text.new).text
        ≡ bytes_of (inlinable_state 30 text.old).text ++ word.now) }
{
    match note {
        Note::Word(word) => add_bytes(text, word),
        Note::Gap => text.push(' '),
    }
}

/// Adds a string: the bytes of the text are followed by its own.
fn add_bytes(text: &mut InlinableString, string: &str) -> Result<(), AllocError>
    ensures { OnOk result (bytes_of (inlinable_state 30 text.new).text
        ≡ bytes_of (inlinable_state 30 text.old).text ++ string.now) }
{
    text.push_str(string)
}
