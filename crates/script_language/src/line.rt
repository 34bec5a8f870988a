//! One line of a script, as the command that it asks for.
ghost use Rattle.std.specs.Prelude.{◌≡◌, ◌≢◌, ℕ, ◌+◌, ◌*◌, ◌≤◌, ◌∷◌, ◌++◌, List, [], IfNone, IfSome, codes, length, take};
ghost use Rattle.std.specs.Option.{SomeIff};
ghost use Rattle.std.specs.Str.Parse.{AllDigits, digits_value};
ghost use Rattle.inlinable_string.specs.declared.run.Command.{Command};
ghost use Rattle.script_language.specs.Line.{arguments_of, IsCharText, IsHexText, IsLine, IsNumberText, IsTail, space, word_of};

use crate::cut::{cut_at, cut_front_at};
use inlinable_string::run::Command;

/// The most digits that a place is written in.
const MOST_DIGITS: usize = 20;

/// The command of a line: a word, and what follows the first space where there is one.
///
/// The line is searched faster where `bytes`, which begin with it, have more that follows it.
///
/// The bytes that a `replace_bytes` line is written for are put at the front of `room`, which has
/// to be half as long as the line. The rest of `room` is returned.
#[inline]
pub fn command_of<'a>(
    line: &'a str,
    bytes: &[u8],
    room: &'a mut [u8],
) -> Option<(Command<'a>, &'a mut [u8])>
    requires front { take (length line.now) bytes.now ≡ line.now }
    requires room { length line.now ≤ 2 * length room.old + 1 }
    ensures some { IfSome result (λ found. IsLine line.now found.0) }
    ensures none { IfNone result ((command : Command) → ¬ (IsLine line.now command)) }
    ensures left { IfSome result (λ found.
        2 * length room.old ≤ 2 * length found.1.now + length line.now) }
{
    match cut_front_at(line, bytes, ' ') {
        None => Some((command_alone(line)?, room)),
        Some((word, rest)) => match word {
            "replace_bytes" => {
                let (bytes, left) = bytes_from_digits(rest, room)?;
                Some((Command::ReplaceBytes(bytes), left))
            }
            _ => Some((command_with(word, rest)?, room)),
        },
    }
}

/// A law: two commands that a line asks for have the same word and the same arguments.
pub fn a_line_asks_for_one_command()
    ensures { (line : List ℕ) (one other : Command) → IsLine line one → IsLine line other
        → (word_of one ≡ word_of other) × (arguments_of one ≡ arguments_of other) }
{}

/// The command of a line that has no space.
fn command_alone(word: &str) -> Option<Command<'static>>
    ensures some { IfSome result (λ command.
        (word.now ≡ word_of command) × IsTail (arguments_of command) []) }
    ensures none { IfNone result ((command : Command) → IsTail (arguments_of command) []
        → word.now ≢ word_of command) }
{
    match word {
        "pop" => Some(Command::Pop),
        "clear" => Some(Command::Clear),
        "shrink_to_fit" => Some(Command::ShrinkToFit),
        _ => None,
    }
}

/// The command of a word, a space and the rest of the line, where it has no bytes of its own.
fn command_with<'a>(word: &str, rest: &'a str) -> Option<Command<'a>>
    ensures some { IfSome result (λ command.
        (word.now ≡ word_of command) × IsTail (arguments_of command) (space ∷ rest.now)) }
    ensures none { IfNone result (word.now ≢ codes "replace_bytes"
        → (command : Command) → IsTail (arguments_of command) (space ∷ rest.now)
        → word.now ≢ word_of command) }
{
    match word {
        "push" => Some(Command::Push(char_of(rest)?)),
        "push_str" => Some(Command::PushStr(rest)),
        "insert" => {
            let (place, character) = number_and_rest(rest)?;
            Some(Command::Insert(place, char_of(character)?))
        }
        "insert_str" => {
            let (place, string) = number_and_rest(rest)?;
            Some(Command::InsertStr(place, string))
        }
        "truncate" => Some(Command::Truncate(number_of(rest)?)),
        "remove" => Some(Command::Remove(number_of(rest)?)),
        "reserve" => Some(Command::Reserve(number_of(rest)?)),
        "reserve_exact" => Some(Command::ReserveExact(number_of(rest)?)),
        _ => None,
    }
}

/// Returns the number that a text begins with, and what follows the space after it.
fn number_and_rest(text: &str) -> Option<(usize, &str)>
    ensures some { IfSome result (λ found. (digits : List ℕ)
        × (text.now ≡ digits ++ space ∷ found.1.now) × IsNumberText digits found.0) }
    ensures none { IfNone result ((digits behind : List ℕ) → text.now ≡ digits ++ space ∷ behind
        → (number : ℕ) → ¬ (IsNumberText digits number)) }
{
    let (digits, rest) = cut_at(text, ' ')?;
    Some((number_of(digits)?, rest))
}

/// The number that the digits are written for.
fn number_of(digits: &str) -> Option<usize>
    ensures some { IfSome result (λ number. IsNumberText digits.now number) }
    ensures none { IfNone result ((number : ℕ) → ¬ (IsNumberText digits.now number)) }
{
    // `parse` takes a plus sign.
    if digits.len() > MOST_DIGITS || digits.starts_with('+') {
        return None;
    }
    digits.parse().ok()
}

/// The character that a text is.
fn char_of(text: &str) -> Option<char>
    ensures some { IfSome result (λ c. IsCharText text.now c) }
    ensures none { IfNone result ((c : ℕ) → ¬ (IsCharText text.now c)) }
{
    text.parse().ok()
}

/// The bytes that pairs of digits are written for, at the front of the room, and the room left.
fn bytes_from_digits<'a>(digits: &str, room: &'a mut [u8]) -> Option<(&'a [u8], &'a mut [u8])>
    requires room { length digits.now ≤ 2 * length room.old + 1 }
    ensures some { IfSome result (λ found. IsHexText digits.now found.0.now) }
    ensures none { IfNone result ((bytes : List ℕ) → ¬ (IsHexText digits.now bytes)) }
    ensures left { IfSome result (λ found.
        2 * length room.old ≤ 2 * length found.1.now + length digits.now) }
{
    let (pairs, odd) = digits.as_bytes().as_chunks::<2>();
    if !odd.is_empty() {
        return None;
    }
    let (bytes, left) = room.split_at_mut(pairs.len());
    for (index, pair) in pairs.iter().enumerate() {
        bytes[index] = byte_from_digits(*pair)?;
    }
    Some((bytes, left))
}

/// The byte that two hexadecimal digits are written for.
fn byte_from_digits(digits: [u8; 2]) -> Option<u8>
    ensures { SomeIff result (AllDigits 16 digits) (digits_value 16 digits) }
{
    let [high, low] = digits;
    let high = char::from(high).to_digit(16)?;
    let low = char::from(low).to_digit(16)?;
    Some((16 * high + low) as u8)
}
