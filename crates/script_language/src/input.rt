//! Reads a whole input, within a limit.
ghost use Rattle.std.specs.Prelude.{ℕ, List, ◌+◌, ◌≡◌, ◌⊎◌, ◌≤◌, ◌<◌, IfErr, IfOk, IfSome, take, length, vec_len};
ghost use Rattle.std.specs.Io.KnownBytes.{Consumes, IsAtEnd};
ghost use Rattle.script_language.specs.declared.input.TheConstants.{MOST_BYTES};

use crate::fault::ScriptFault;
use std::alloc::Global;
use std::io::Read;

/// The most bytes that a script has.
pub const MOST_BYTES: usize = 65_536;

/// The whole input, where it has at most `MOST_BYTES` bytes.
///
/// Its one request for memory comes before the first read. A longer input is read to its first
/// byte past the limit, and no further.
pub fn read_input<R: Read>(alloc: Global, input: &mut R) -> Result<Vec<u8>, ScriptFault>
    ensures bound { IfOk result (λ bytes. vec_len bytes ≤ MOST_BYTES) }
    ensures whole { IfOk result (λ bytes.
        IfSome (R.remaining input.old) (λ all. bytes.items ≡ all)) }
    ensures all_read { IfOk result (λ bytes.
        Consumes (R.remaining input.old) (R.remaining input.new) bytes.items) }
    ensures at_end { IfOk result (λ bytes. IsAtEnd (R.remaining input.new)) }
    ensures too_long { result ≡ Err ScriptFault.TooLong
        → IfSome (R.remaining input.old) (λ all. MOST_BYTES < length all) }
    ensures fault { IfErr result (λ fault. (fault ≡ ScriptFault.NoMemory)
        ⊎ (fault ≡ ScriptFault.TooLong) ⊎ (fault ≡ ScriptFault.Read)) }
    ensures reads { (read : List ℕ) × Consumes (R.remaining input.old) (R.remaining input.new) read
        × (length read ≤ MOST_BYTES + 1) }
{
    let mut bytes = vec![in alloc; 0u8; MOST_BYTES + 1]?;
    let length = fill(input, bytes.as_mut_slice())?;
    if length > MOST_BYTES {
        return Err(ScriptFault::TooLong);
    }
    bytes.truncate(length);
    Ok(bytes)
}

/// Reads until the input ends or the room is full, and answers how many bytes came.
///
/// Every failed read is a fault, an interrupted one too, so that reading ends.
fn fill<R: Read>(input: &mut R, room: &mut [u8]) -> Result<usize, ScriptFault>
    ensures bound { IfOk result (λ count. count ≤ length room.new) }
    ensures bytes { IfOk result (λ count.
        Consumes (R.remaining input.old) (R.remaining input.new) (take count room.new)) }
    ensures end { IfOk result (λ count.
        count < length room.new → IsAtEnd (R.remaining input.new)) }
    ensures fault { IfErr result (λ fault. fault ≡ ScriptFault.Read) }
    ensures reads { (read : List ℕ) × Consumes (R.remaining input.old) (R.remaining input.new) read
        × (length read ≤ length room.new) }
{
    let mut filled = 0;
    while filled < room.len() {
        match input.read(&mut room[filled..]) {
            Ok(0) => break,
            Ok(count) => filled += count,
            Err(_) => return Err(ScriptFault::Read),
        }
    }
    Ok(filled)
}
