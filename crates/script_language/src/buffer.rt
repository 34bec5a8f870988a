//! Bytes on their way to a writer, gathered so that one write takes many of them.
ghost use Rattle.std.specs.Prelude.{◌≡◌, ◌+◌, ◌≤◌, ◌++◌, [], length, IfErr, OnOk};
ghost use Rattle.std.specs.Io.KnownBytes.{Appends};
ghost use Rattle.script_language.specs.Output.{IsGathered, WritesFront};

use crate::fault::ScriptFault;
use std::io::Write;
use std::marker::Model;

/// The most bytes that wait to be written together.
const MOST_WAITING: usize = 8192;

/// Bytes that wait to be written, stored in the value itself. A contract sees these bytes.
#[derive(Drop)]
pub struct Buffer {
    bytes: [u8; MOST_WAITING],
    count: usize,
}

impl Model for Buffer {
    ghost use Rattle.std.specs.Prelude.{ℕ, ◌≤◌, List, take};
    ghost use Rattle.script_language.specs.declared.buffer.TheConstants.{MOST_WAITING};

    ghost Value = { List ℕ };

    ghost view = { λ buffer. take buffer.count buffer.bytes };

    ghost invariant = { λ buffer. buffer.count ≤ MOST_WAITING };
}

impl Buffer {
    /// No byte waits.
    pub fn new() -> Buffer
        ensures { result ≡ [] }
    {
        Buffer {
            bytes: [0; MOST_WAITING],
            count: 0,
        }
    }

    /// Appends `bytes` to those that wait. If they don't fit there, these are written first.
    pub fn add<W: Write>(&mut self, out: &mut W, bytes: &[u8]) -> Result<(), ScriptFault>
        ensures gathered { OnOk result (IsGathered (W.contents out.old) (W.contents out.new)
            self.old bytes.now self.new) }
        ensures part { IfErr result (λ _. WritesFront (W.contents out.old) (W.contents out.new)
            (self.old ++ bytes.now)) }
        ensures fault { IfErr result (λ fault. fault ≡ ScriptFault.Write) }
    {
        if bytes.len() <= MOST_WAITING - self.count {
            self.put(bytes);
            return Ok(());
        }
        self.flush(out)?;
        if MOST_WAITING < bytes.len() {
            return write_whole(out, bytes);
        }
        self.put(bytes);
        Ok(())
    }

    /// Leaves space for `count` bytes after those that wait: if there is none, these are written.
    #[inline]
    pub fn leave_room<W: Write>(&mut self, out: &mut W, count: usize) -> Result<(), ScriptFault>
        requires { count ≤ MOST_WAITING }
        ensures room { OnOk result (length self.new + count ≤ MOST_WAITING) }
        ensures gathered { OnOk result (IsGathered (W.contents out.old) (W.contents out.new)
            self.old [] self.new) }
        ensures part { IfErr result (λ _. WritesFront (W.contents out.old) (W.contents out.new)
            self.old) }
        ensures fault { IfErr result (λ fault. fault ≡ ScriptFault.Write) }
    {
        if MOST_WAITING - self.count < count {
            self.flush(out)?;
        }
        Ok(())
    }

    /// Appends `bytes` to those that wait, which must leave space for them.
    #[inline]
    pub fn put(&mut self, bytes: &[u8])
        requires { length self.old + length bytes.now ≤ MOST_WAITING }
        ensures { self.new ≡ self.old ++ bytes.now }
    {
        let end = self.count + bytes.len();
        self.bytes[self.count..end].copy_from_slice(bytes);
        self.count = end;
    }

    /// Writes all that waits.
    #[inline(never)]
    pub fn flush<W: Write>(&mut self, out: &mut W) -> Result<(), ScriptFault>
        ensures written { OnOk result
            (Appends (W.contents out.old) (W.contents out.new) self.old) }
        ensures empty { OnOk result (self.new ≡ []) }
        ensures part { IfErr result (λ _. WritesFront (W.contents out.old) (W.contents out.new)
            self.old) }
        ensures fault { IfErr result (λ fault. fault ≡ ScriptFault.Write) }
    {
        write_whole(out, &self.bytes[..self.count])?;
        self.count = 0;
        Ok(())
    }
}

/// Writes all of the bytes.
///
/// Every failed write is a fault, an interrupted one too, and so is one that takes no byte: so
/// writing ends.
fn write_whole<W: Write>(out: &mut W, bytes: &[u8]) -> Result<(), ScriptFault>
    ensures written { OnOk result (Appends (W.contents out.old) (W.contents out.new) bytes.now) }
    ensures part { IfErr result (λ _. WritesFront (W.contents out.old) (W.contents out.new)
        bytes.now) }
    ensures fault { IfErr result (λ fault. fault ≡ ScriptFault.Write) }
{
    let mut rest = bytes;
    while !rest.is_empty() {
        match out.write(rest) {
            Ok(0) | Err(_) => return Err(ScriptFault::Write),
            Ok(count) => rest = &rest[count..],
        }
    }
    Ok(())
}
