//! Prints what a run gave. It takes no memory.
ghost use Rattle.std.specs.Prelude.{◌≡◌, ◌+◌, ◌≤◌, ◌++◌, IfErr, OnOk, decimal, length};
ghost use Rattle.script_language.specs.declared.buffer.TheConstants.{MOST_WAITING};
ghost use Rattle.script_language.specs.declared.output.TheConstants.{LONGEST_REPLY_LINE};
ghost use Rattle.std.specs.Io.KnownBytes.{Appends};
ghost use Rattle.script_language.specs.Output.{labelled_line, printed, reply_line, state_lines, storage_name, IsGathered, WritesFront};

use crate::buffer::Buffer;
use crate::fault::ScriptFault;
use inlinable_string::run::Reply;
use inlinable_string::{Storage, StringExt};
use std::io::Write;

/// The most bytes that the line of a reply has.
const LONGEST_REPLY_LINE: usize = 13;

/// The most digits that a length has.
const LENGTH_DIGITS: usize = 20;

/// Prints a line for each reply, and then the text, its length and its storage.
pub fn print<S: StringExt, W: Write>(
    out: &mut W,
    replies: &[Reply],
    text: &S,
) -> Result<(), ScriptFault>
    ensures written { OnOk result (Appends (W.contents out.old) (W.contents out.new)
        (printed replies.now (S.state text.now))) }
    ensures part { IfErr result (λ _. WritesFront (W.contents out.old) (W.contents out.new)
        (printed replies.now (S.state text.now))) }
    ensures fault { IfErr result (λ fault. fault ≡ ScriptFault.Write) }
{
    let mut buffer = Buffer::new();
    for reply in replies {
        print_reply(out, &mut buffer, *reply)?;
    }
    print_state(out, &mut buffer, text)?;
    buffer.flush(out)
}

/// Prints the lines of the text, its length and its storage.
fn print_state<S: StringExt, W: Write>(
    out: &mut W,
    buffer: &mut Buffer,
    text: &S,
) -> Result<(), ScriptFault>
    ensures gathered { OnOk result (IsGathered (W.contents out.old) (W.contents out.new)
        buffer.old (state_lines (S.state text.now)) buffer.new) }
    ensures part { IfErr result (λ _. WritesFront (W.contents out.old) (W.contents out.new)
        (buffer.old ++ state_lines (S.state text.now))) }
    ensures fault { IfErr result (λ fault. fault ≡ ScriptFault.Write) }
{
    print_line(out, buffer, b"text ", text.as_bytes())?;
    let mut room = [0; LENGTH_DIGITS];
    let digits = decimal_digits(text.len(), &mut room);
    print_line(out, buffer, b"length ", digits)?;
    print_line(out, buffer, b"storage ", storage_name(text.storage()))
}

#[inline]
#[tactic(auto, using(crate::proofs::Fronts::front_of_more, crate::proofs::Fronts::of_any_error))]
fn print_reply<W: Write>(out: &mut W, buffer: &mut Buffer, reply: Reply) -> Result<(), ScriptFault>
    ensures gathered { OnOk result (IsGathered (W.contents out.old) (W.contents out.new)
        buffer.old (reply_line reply) buffer.new) }
    ensures part { IfErr result (λ _. WritesFront (W.contents out.old) (W.contents out.new)
        (buffer.old ++ reply_line reply)) }
    ensures fault { IfErr result (λ fault. fault ≡ ScriptFault.Write) }
{
    buffer.leave_room(out, LONGEST_REPLY_LINE)?;
    put_reply(buffer, reply);
    Ok(())
}

/// Appends the line of a reply to the bytes that wait, which must leave space for it.
#[inline(never)]
fn put_reply(buffer: &mut Buffer, reply: Reply)
    requires { length buffer.old + LONGEST_REPLY_LINE ≤ MOST_WAITING }
    ensures { buffer.new ≡ buffer.old ++ reply_line reply }
{
    match reply {
        Reply::Done => buffer.put(b"done\n"),
        Reply::Char(character) => put_char(buffer, character),
        Reply::NoChar => buffer.put(b"none\n"),
        Reply::BadPlace => buffer.put(b"bad place\n"),
        Reply::NotUtf8 => buffer.put(b"not utf-8\n"),
        Reply::WrongLength => buffer.put(b"wrong length\n"),
        Reply::NoMemory => buffer.put(b"no memory\n"),
    }
}

/// Appends the line of a character to the bytes that wait, which must leave space for it.
#[inline(never)]
fn put_char(buffer: &mut Buffer, character: char)
    requires { length buffer.old + LONGEST_REPLY_LINE ≤ MOST_WAITING }
    ensures { buffer.new ≡ buffer.old ++ reply_line (Reply.Char character) }
{
    // A line of a known length is put there by a few stores.
    if character.is_ascii() {
        let mut line = *b"char _\n";
        line[5] = character as u8;
        return buffer.put(&line);
    }
    let mut bytes = [0; 4];
    buffer.put(b"char ");
    buffer.put(character.encode_utf8(&mut bytes).as_bytes());
    buffer.put(b"\n");
}

/// The digits of a number, which are put at the end of the room.
fn decimal_digits(number: usize, room: &mut [u8; LENGTH_DIGITS]) -> &[u8]
    ensures { result.now ≡ decimal number }
{
    let mut rest = number;
    let mut start = LENGTH_DIGITS - 1;
    while rest >= 10 {
        room[start] = b'0' + (rest % 10) as u8;
        start -= 1;
        rest /= 10;
    }
    room[start] = b'0' + rest as u8;
    &room[start..]
}

fn storage_name(storage: Storage) -> &'static [u8]
    ensures { result.now ≡ storage_name storage }
{
    match storage {
        Storage::Inline => b"inline",
        Storage::Heap => b"heap",
    }
}

fn print_line<W: Write>(
    out: &mut W,
    buffer: &mut Buffer,
    label: &[u8],
    value: &[u8],
) -> Result<(), ScriptFault>
    ensures gathered { OnOk result (IsGathered (W.contents out.old) (W.contents out.new)
        buffer.old (labelled_line label.now value.now) buffer.new) }
    ensures part { IfErr result (λ _. WritesFront (W.contents out.old) (W.contents out.new)
        (buffer.old ++ labelled_line label.now value.now)) }
    ensures fault { IfErr result (λ fault. fault ≡ ScriptFault.Write) }
{
    buffer.add(out, label)?;
    buffer.add(out, value)?;
    buffer.add(out, b"\n")
}
