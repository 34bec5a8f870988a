//! A lexer that never allocates: a token is a part of its source, and what a word, a number or a
//! text means goes into one buffer of `N` bytes.
//!
//! Letters, digits and white space are those of std. No contract says how long a call takes.
ghost use Rattle.std.specs.Prelude.{◌≡◌, ◌≢◌, ◌+◌, ◌^◌, ◌<◌, ◌==◌, if◌then◌else◌, ◌++◌, ◌∷◌, [], List, ℕ, length, None, Some, Ok, IfOk, IfSome, IfNone, IsSomeAnd, IfErr, OnOk, OnErr, IsUtf8, drop, take};
ghost use Rattle.std.specs.List.{count_by, take_while};
ghost use Rattle.std.specs.Str.{chars, IsCharBoundary};
ghost use Rattle.inlinable_string.specs.Text.{size};
ghost use Rattle.inline_uses.specs.declared.tokens.Kind.{Kind};
ghost use Rattle.inline_uses.specs.Tokens.{AreTokens, Fails, HasNoClose, IsStop, IsTextFault, IsToken, column_after, continues, escape_of, kind_at, kind_of, is_solid, is_solid_kind, newlines, slash_kind, unescaped};

mod ascii;
mod letters;
mod printed;

use ascii::{ascii_len, kind_of_ascii};
use inlinable_string::InlineStringN;
use inlinable_string::laws::{sizes_of_parts, steps_are_over_characters};
use letters::is_letter;

/// A token, and what follows it in the source.
#[derive(Clone, Copy, Debug, PartialEq, Eq)]
pub struct Token<'a> {
    pub kind: Kind,
    /// The token as it is written in the source.
    pub text: &'a str,
    /// The rest of the source.
    pub rest: &'a str,
}

/// Reads the token that the source begins with, white space and comments too, or returns `None`
/// if the source is empty. The buffer then has the word or the number, or what the text between
/// quotes means, and is empty after any other token. Fails exactly if that has more than `N`
/// bytes, if the source ends in a text or a block comment, or at an escape that there is not.
pub fn next_token<'a, const N: usize>(
    word: &mut InlineStringN<N>,
    source: &'a str,
) -> Result<Option<Token<'a>>, Fault>
    ensures parts { IfOk result (λ found. IfSome found
        (λ token. source.now ≡ token.text.now ++ token.rest.now)) }
    ensures chars { IfOk result (λ found. IfSome found
        (λ token. chars source.now ≡ chars token.text.now ++ chars token.rest.now)) }
    ensures progress { IfOk result (λ found. IfSome found (λ token. token.text.now ≢ [])) }
    ensures end { IfOk result (λ found. IfNone found (source.now ≡ [])) }
    ensures kind { IfOk result (λ found. IfSome found
        (λ token. kind_at (chars source.now) ≡ Some token.kind)) }
    ensures text { IfOk result (λ found. IfSome found
        (λ token. IsToken token.kind (chars source.now) (chars token.text.now) word.new)) }
    ensures fault { IfErr result (λ fault. IsSomeAnd (kind_at (chars source.now))
        (λ kind. Fails N kind (chars source.now) fault)) }
    ensures err { OnErr result (word.new ≡ []) }
{
    word.clear();
    let Some(kind) = kind_at(source) else {
        return Ok(None);
    };
    match read_token(word, kind, source) {
        Ok((text, rest)) => {
            chars_of_parts(text, rest);
            Ok(Some(Token { kind, text, rest }))
        }
        Err(fault) => {
            word.clear();
            Err(fault)
        }
    }
}

/// Why a source has no next token.
#[derive(Clone, Copy, Debug, PartialEq, Eq)]
pub enum Fault {
    /// The word, the number or the text needs more than `N` bytes.
    TooLong,
    /// The source ends in the comment or the text.
    Unterminated,
    /// A `\` has a character after it that it doesn't go with. This is the number of bytes that
    /// the source has from that `\` on.
    BadEscape(usize),
}

/// What a token is, which the two characters that it begins with determine.
#[derive(Clone, Copy, Debug, PartialEq, Eq)]
pub enum Kind {
    /// White space, up to the next character that is none.
    Space,
    /// A letter or `_`, with the letters, digits and `_` after it.
    Word,
    /// A digit from `0` to `9`, with the ASCII letters, digits and `_` after it, as `0x1F` and
    /// `10_usize`. A point is a mark of its own.
    Number,
    /// `//` and what follows it in its line.
    LineComment,
    /// From `/*` to the first `*/`.
    BlockComment,
    /// From `"` to the next `"` that is not escaped.
    Text,
    /// Any other character.
    Mark(char),
}

impl Kind {
    /// Whether a token of this kind goes on with `ch`.
    fn goes_on_with(self, ch: char) -> bool
        ensures { result ≡ continues self ch }
    {
        match self {
            Kind::Space => ch.is_whitespace(),
            Kind::Word => ch == '_' || is_letter(ch) || ch.is_numeric(),
            Kind::Number => ch == '_' || ch.is_ascii_alphanumeric(),
            Kind::LineComment => ch != '\n',
            Kind::BlockComment | Kind::Text | Kind::Mark(_) => false,
        }
    }

    /// Returns whether a token of this kind is no white space and no comment.
    pub fn is_solid(self) -> bool
        ensures { result ≡ is_solid_kind self }
    {
        !matches!(self, Kind::Space | Kind::LineComment | Kind::BlockComment)
    }
}

/// The first character of a source, and what follows it.
fn split_first(source: &str) -> Option<(char, &str)>
    ensures some { IfSome result (λ found. chars source.now ≡ found.0 ∷ chars found.1.now) }
    ensures shorter { IfSome result (λ found. length found.1.now < length source.now) }
    ensures utf8 { IfSome result (λ found. IsUtf8 found.1.now) }
    ensures none { IfNone result (chars source.now ≡ []) }
{
    steps_are_over_characters();
    let mut rest = source.chars();
    let first = rest.next()?;
    Some((first, rest.as_str()))
}

/// A law: the characters of a text in two parts are those of the first and then of the second.
fn chars_of_parts(text: &str, rest: &str)
    ensures joined { chars (text.now ++ rest.now) ≡ chars text.now ++ chars rest.now }
    ensures utf8 { IsUtf8 rest.now }
{}

/// The kind of a token that begins with `/`.
fn slash_kind(next: Option<char>) -> Kind
    ensures { result ≡ slash_kind next }
{
    match next {
        Some('/') => Kind::LineComment,
        Some('*') => Kind::BlockComment,
        _ => Kind::Mark('/'),
    }
}

/// The kind of the token that `first` is where nothing follows it. Only a token that begins with
/// `/` may have another kind where something does.
fn kind_of(first: char) -> Kind
    ensures { result ≡ kind_of first None }
{
    if first.is_ascii() {
        kind_of_ascii(first as u8)
    } else if is_letter(first) {
        Kind::Word
    } else if first.is_whitespace() {
        Kind::Space
    } else {
        Kind::Mark(first)
    }
}

/// The kind of the token that a source begins with, or `None` if the source is empty.
pub fn kind_at(source: &str) -> Option<Kind>
    ensures { result ≡ kind_at (chars source.now) }
{
    let (first, rest) = split_first(source)?;
    if first != '/' {
        return Some(kind_of(first));
    }
    Some(slash_kind(rest.chars().next()))
}

/// The character that `letter` means after a `\`.
pub fn unescape(letter: char) -> Option<char>
    ensures { result ≡ escape_of letter }
{
    match letter {
        '"' | '\'' | '\\' => Some(letter),
        '0' => Some('\0'),
        'n' => Some('\n'),
        'r' => Some('\r'),
        't' => Some('\t'),
        _ => None,
    }
}

/// Returns how many bytes the characters have with which a token of the kind goes on.
#[inline(never)]
fn len_while(kind: Kind, source: &str) -> usize
    requires { kind ≢ Kind.LineComment }
    ensures end { IsCharBoundary source.now result }
    ensures front { chars (take result source.now)
        ≡ take_while (continues kind) (chars source.now) }
{
    match source.find(move |ch: char| !kind.goes_on_with(ch)) {
        Some(end) => end,
        None => source.len(),
    }
}

/// Splits a source before the end of the line.
fn split_line(source: &str) -> (&str, &str)
    ensures parts { source.now ≡ result.0.now ++ result.1.now }
    ensures front { chars result.0.now
        ≡ take_while (continues Kind.LineComment) (chars source.now) }
{
    match source.find('\n') {
        Some(end) => source.split_at(end),
        None => (source, ""),
    }
}

/// Splits a source after the characters with which a token of the kind goes on. It looks at each of
/// them, so a line comment, of which only the end counts, goes by `split_line`.
fn split_while(kind: Kind, source: &str) -> (&str, &str)
    requires { kind ≢ Kind.LineComment }
    ensures parts { source.now ≡ result.0.now ++ result.1.now }
    ensures front { chars result.0.now ≡ take_while (continues kind) (chars source.now) }
{
    let passed = ascii_len(kind, source);
    let (front, rest) = source.split_at(passed);
    match rest.as_bytes().first() {
        Some(next) if next.is_ascii() => (front, rest),
        _ => source.split_at(passed + len_while(kind, rest)),
    }
}

/// Splits a source before `rest`, with which it ends.
fn split_before<'a>(source: &'a str, rest: &str) -> (&'a str, &'a str)
    requires { (front : List ℕ) × (chars source.now ≡ front ++ chars rest.now) }
    ensures parts { source.now ≡ result.0.now ++ result.1.now }
    ensures front { (front : List ℕ) → chars source.now ≡ front ++ chars rest.now
        → chars result.0.now ≡ front }
    ensures rest { result.1.now ≡ rest.now }
{
    source.split_at(source.len() - rest.len())
}

/// Splits a source after the block comment that it begins with, if this ends.
fn split_comment(source: &str) -> Option<(&str, &str)>
    requires { kind_at (chars source.now) ≡ Some Kind.BlockComment }
    ensures parts { IfSome result (λ found. source.now ≡ found.0.now ++ found.1.now) }
    ensures text { IfSome result (λ found. (inside : List ℕ)
        × (chars found.0.now ≡ 47 ∷ 42 ∷ inside ++ 42 ∷ 47 ∷ [])
        × HasNoClose (inside ++ 42 ∷ [])) }
    ensures none { IfNone result (HasNoClose (drop 2 (chars source.now))) }
{
    let (_, after) = split_first(source)?;
    let (_, inside) = split_first(after)?;
    match inside.split_once("*/") {
        Some((_, rest)) => Some(split_before(source, rest)),
        None => None,
    }
}

/// Reads a character of a text, by itself or escaped, or its closing quote, which gives `None`.
/// Returns it with what follows it.
fn read_char(source: &str) -> Result<(Option<char>, &str), Fault>
    ensures char { IfOk result (λ found. IfSome found.0 (λ c. (written : List ℕ)
        × (chars source.now ≡ written ++ chars found.1.now)
        × (unescaped written ≡ Some (c ∷ [])))) }
    ensures quote { IfOk result (λ found. IfNone found.0
        (chars source.now ≡ 34 ∷ chars found.1.now)) }
    ensures shorter { IfOk result (λ found. length found.1.now < length source.now) }
    ensures utf8 { IfOk result (λ found. IsUtf8 found.1.now) }
    ensures err { IfErr result (λ fault. IsStop fault (chars source.now)) }
{
    sizes_of_parts();
    let Some((first, rest)) = split_first(source) else {
        return Err(Fault::Unterminated);
    };
    if first == '"' {
        return Ok((None, rest));
    }
    if first != '\\' {
        return Ok((Some(first), rest));
    }
    let Some((letter, rest)) = split_first(rest) else {
        return Err(Fault::Unterminated);
    };
    match unescape(letter) {
        Some(ch) => Ok((Some(ch), rest)),
        None => Err(Fault::BadEscape(source.len())),
    }
}

/// Reads a text from after its opening quote into the buffer, and returns what follows it.
fn read_text<'a, const N: usize>(
    word: &mut InlineStringN<N>,
    source: &'a str,
) -> Result<&'a str, Fault>
    requires { word.old ≡ [] }
    ensures ok { IfOk result (λ rest. (inside : List ℕ)
        × (chars source.now ≡ inside ++ 34 ∷ chars rest.now)
        × (unescaped inside ≡ Some word.new)) }
    ensures err { IfErr result (λ fault. IsTextFault N fault (chars source.now)) }
{
    sizes_of_parts();
    let mut rest = source;
    loop {
        let (ch, after) = match read_char(rest) {
            Ok(read) => read,
            Err(fault) => return Err(fault),
        };
        let Some(ch) = ch else {
            return Ok(after);
        };
        match word.push(ch) {
            Ok(()) => rest = after,
            Err(_) => return Err(Fault::TooLong),
        }
    }
}

/// Reads the text that a source begins with into the buffer.
fn read_quoted<'a, const N: usize>(
    word: &mut InlineStringN<N>,
    source: &'a str,
) -> Result<(&'a str, &'a str), Fault>
    requires empty { word.old ≡ [] }
    requires kind { kind_at (chars source.now) ≡ Some Kind.Text }
    ensures parts { IfOk result (λ found. source.now ≡ found.0.now ++ found.1.now) }
    ensures text { IfOk result (λ found.
        IsToken Kind.Text (chars source.now) (chars found.0.now) word.new) }
    ensures err { IfErr result (λ fault. Fails N Kind.Text (chars source.now) fault) }
{
    let Some((_, after)) = split_first(source) else {
        return Err(Fault::Unterminated);
    };
    match read_text(word, after) {
        Ok(rest) => Ok(split_before(source, rest)),
        Err(fault) => Err(fault),
    }
}

/// Splits a source after its first character.
fn split_mark(source: &str) -> (&str, &str)
    requires { chars source.now ≢ [] }
    ensures parts { source.now ≡ result.0.now ++ result.1.now }
    ensures mark { (c : ℕ) → kind_at (chars source.now) ≡ Some (Kind.Mark c)
        → chars result.0.now ≡ c ∷ [] }
{
    let Some((_, rest)) = split_first(source) else {
        return (source, "");
    };
    split_before(source, rest)
}

/// Puts `text` into the buffer, and returns it with `rest`.
fn keep<'a, const N: usize>(
    word: &mut InlineStringN<N>,
    text: &'a str,
    rest: &'a str,
) -> Result<(&'a str, &'a str), Fault>
    requires { word.old ≡ [] }
    ensures same { IfOk result (λ found. (found.0.now ≡ text.now) × (found.1.now ≡ rest.now)) }
    ensures ok { OnOk result (word.new ≡ chars text.now) }
    ensures err { IfErr result (λ fault.
        (fault ≡ Fault.TooLong) × (N < size (chars text.now))) }
{
    sizes_of_parts();
    match word.push_str(text) {
        Ok(()) => Ok((text, rest)),
        Err(_) => Err(Fault::TooLong),
    }
}

/// Splits a source after the token of this kind that it begins with, and puts what that means
/// into the buffer.
fn read_token<'a, const N: usize>(
    word: &mut InlineStringN<N>,
    kind: Kind,
    source: &'a str,
) -> Result<(&'a str, &'a str), Fault>
    requires empty { word.old ≡ [] }
    requires kind { kind_at (chars source.now) ≡ Some kind }
    ensures parts { IfOk result (λ found. source.now ≡ found.0.now ++ found.1.now) }
    ensures text { IfOk result (λ found.
        IsToken kind (chars source.now) (chars found.0.now) word.new) }
    ensures err { IfErr result (λ fault. Fails N kind (chars source.now) fault) }
{
    match kind {
        Kind::Space => Ok(split_while(kind, source)),
        Kind::LineComment => Ok(split_line(source)),
        Kind::Mark(_) => Ok(split_mark(source)),
        Kind::Word | Kind::Number => {
            let (text, rest) = split_while(kind, source);
            keep(word, text, rest)
        }
        Kind::BlockComment => match split_comment(source) {
            Some(parts) => Ok(parts),
            None => Err(Fault::Unterminated),
        },
        Kind::Text => read_quoted(word, source),
    }
}

/// A place in a source. The line and the column, which is in characters, are counted from 1.
#[derive(Clone, Copy, Debug, PartialEq, Eq)]
pub struct Position {
    pub line: usize,
    pub column: usize,
}

impl Position {
    /// Returns the place after `ch`, which is here.
    fn after_char(self, ch: char) -> Position
        ensures line { self.line + 1 < 2 ^ 64
            → result.line ≡ (if ch == 10 then self.line + 1 else self.line) }
        ensures column { self.column + 1 < 2 ^ 64
            → result.column ≡ (if ch == 10 then 1 else self.column + 1) }
    {
        if ch == '\n' {
            return Position {
                line: self.line.saturating_add(1),
                column: 1,
            };
        }
        Position {
            line: self.line,
            column: self.column.saturating_add(1),
        }
    }

    /// Returns the place after `text`, which begins here. A count that would exceed `usize::MAX`
    /// is not exact.
    pub fn after(self, text: &str) -> Position
        ensures line { self.line + length text.now < 2 ^ 64
            → result.line ≡ self.line + newlines (chars text.now) }
        ensures column { self.column + length text.now < 2 ^ 64
            → result.column ≡ column_after self.column (chars text.now) }
    {
        let mut at = self;
        let mut rest = text;
        while let Some((ch, after)) = split_first(rest) {
            at = at.after_char(ch);
            rest = after;
        }
        at
    }
}

/// How many tokens one of this kind is, of those that are no white space and no comment.
fn solid_count(kind: Kind) -> usize
    ensures count { result ≡ (if is_solid_kind kind then 1 else 0) }
    ensures most { result < 2 }
{
    if kind.is_solid() { 1 } else { 0 }
}

/// Counts the tokens of a source that are no white space and no comment. A fault comes with the
/// place of the token in which it is.
pub fn count_tokens<const N: usize>(
    word: &mut InlineStringN<N>,
    source: &str,
) -> Result<usize, (Fault, Position)>
    ensures count { IfOk result (λ count. (tokens : List (Kind × List ℕ))
        × AreTokens (chars source.now) tokens × (count ≡ count_by is_solid tokens)) }
    ensures fault { IfErr result (λ found. (passed rest : List ℕ)
        × (chars source.now ≡ passed ++ rest)
        × IsSomeAnd (kind_at rest) (λ kind. Fails N kind rest found.0)
        × (found.1.line ≡ 1 + newlines passed) × (found.1.column ≡ column_after 1 passed)) }
{
    let mut count: usize = 0;
    let mut rest = source;
    loop {
        let token = match next_token(word, rest) {
            Ok(token) => token,
            Err(fault) => {
                let (passed, _) = split_before(source, rest);
                let start = Position { line: 1, column: 1 };
                return Err((fault, start.after(passed)));
            }
        };
        let Some(token) = token else {
            return Ok(count);
        };
        chars_of_parts(token.text, token.rest);
        count += solid_count(token.kind);
        rest = token.rest;
    }
}
