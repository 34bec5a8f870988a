//! A test for UTF-8 that looks at each byte once, without a branch on it.
ghost use Rattle.std.specs.Prelude.{◌≡◌, ◌↔◌, IsTrue, IsUtf8, IfOk, IfErr, IsOk, MatchOption, length, slice_index};
ghost use Rattle.std.specs.Str.{IsAscii};
ghost use Rattle.std.specs.String.{string_vec, from_utf8_error_vec};
ghost use Rattle.inlinable_string.specs.WellFormed.{is_state, state_of, Leads};

use std::str;
use std::string::FromUtf8Error;

// A row has six bits for each state, the first state lowest: where the six bits of the next state
// begin. The states, in octal: 00 between characters; 06, 14, 22 before one, two, three bytes of
// 80..BF; 30 after E0, 36 after ED, 44 after F0, 52 after F4; 60 after bytes that are no UTF-8.
const ASCII: u64 = 0o60_60_60_60_60_60_60_60_00;

const LATER_80: u64 = 0o60_14_60_06_60_14_06_00_60;

const LATER_90: u64 = 0o60_60_14_06_60_14_06_00_60;

const LATER_A0: u64 = 0o60_60_14_60_06_14_06_00_60;

const TWO: u64 = 0o60_60_60_60_60_60_60_60_06;

const AT_E0: u64 = 0o60_60_60_60_60_60_60_60_30;

const THREE: u64 = 0o60_60_60_60_60_60_60_60_14;

const AT_ED: u64 = 0o60_60_60_60_60_60_60_60_36;

const AT_F0: u64 = 0o60_60_60_60_60_60_60_60_44;

const FOUR: u64 = 0o60_60_60_60_60_60_60_60_22;

const AT_F4: u64 = 0o60_60_60_60_60_60_60_60_52;

const BAD: u64 = 0o60_60_60_60_60_60_60_60_60;

/// The row of each byte.
const ROWS: &[u64] = &[
    ASCII, ASCII, ASCII, ASCII, ASCII, ASCII, ASCII, ASCII, ASCII, ASCII, ASCII, ASCII, ASCII,
    ASCII, ASCII, ASCII, ASCII, ASCII, ASCII, ASCII, ASCII, ASCII, ASCII, ASCII, ASCII, ASCII,
    ASCII, ASCII, ASCII, ASCII, ASCII, ASCII, ASCII, ASCII, ASCII, ASCII, ASCII, ASCII, ASCII,
    ASCII, ASCII, ASCII, ASCII, ASCII, ASCII, ASCII, ASCII, ASCII, ASCII, ASCII, ASCII, ASCII,
    ASCII, ASCII, ASCII, ASCII, ASCII, ASCII, ASCII, ASCII, ASCII, ASCII, ASCII, ASCII, ASCII,
    ASCII, ASCII, ASCII, ASCII, ASCII, ASCII, ASCII, ASCII, ASCII, ASCII, ASCII, ASCII, ASCII,
    ASCII, ASCII, ASCII, ASCII, ASCII, ASCII, ASCII, ASCII, ASCII, ASCII, ASCII, ASCII, ASCII,
    ASCII, ASCII, ASCII, ASCII, ASCII, ASCII, ASCII, ASCII, ASCII, ASCII, ASCII, ASCII, ASCII,
    ASCII, ASCII, ASCII, ASCII, ASCII, ASCII, ASCII, ASCII, ASCII, ASCII, ASCII, ASCII, ASCII,
    ASCII, ASCII, ASCII, ASCII, ASCII, ASCII, ASCII, ASCII, ASCII, ASCII, ASCII, LATER_80,
    LATER_80, LATER_80, LATER_80, LATER_80, LATER_80, LATER_80, LATER_80, LATER_80, LATER_80,
    LATER_80, LATER_80, LATER_80, LATER_80, LATER_80, LATER_80, LATER_90, LATER_90, LATER_90,
    LATER_90, LATER_90, LATER_90, LATER_90, LATER_90, LATER_90, LATER_90, LATER_90, LATER_90,
    LATER_90, LATER_90, LATER_90, LATER_90, LATER_A0, LATER_A0, LATER_A0, LATER_A0, LATER_A0,
    LATER_A0, LATER_A0, LATER_A0, LATER_A0, LATER_A0, LATER_A0, LATER_A0, LATER_A0, LATER_A0,
    LATER_A0, LATER_A0, LATER_A0, LATER_A0, LATER_A0, LATER_A0, LATER_A0, LATER_A0, LATER_A0,
    LATER_A0, LATER_A0, LATER_A0, LATER_A0, LATER_A0, LATER_A0, LATER_A0, LATER_A0, LATER_A0, BAD,
    BAD, TWO, TWO, TWO, TWO, TWO, TWO, TWO, TWO, TWO, TWO, TWO, TWO, TWO, TWO, TWO, TWO, TWO, TWO,
    TWO, TWO, TWO, TWO, TWO, TWO, TWO, TWO, TWO, TWO, TWO, TWO, AT_E0, THREE, THREE, THREE, THREE,
    THREE, THREE, THREE, THREE, THREE, THREE, THREE, THREE, AT_ED, THREE, THREE, AT_F0, FOUR, FOUR,
    FOUR, AT_F4, BAD, BAD, BAD, BAD, BAD, BAD, BAD, BAD, BAD, BAD, BAD,
];

/// The state after bytes that are no UTF-8.
const NO_TEXT: u64 = 0o60;

/// The bytes that are tested for ASCII together.
const LANES: usize = 16;

/// Those at the front, where a longer text is often ASCII throughout.
const FRONT_LANES: usize = 64;

/// Returns whether the bytes are UTF-8.
pub(crate) fn is_utf8(bytes: &[u8]) -> bool
    ensures { IsTrue result ↔ IsUtf8 bytes.now }
{
    let mut front = bytes;
    while FRONT_LANES <= front.len() {
        let (block, after) = front.split_at(FRONT_LANES);
        if !is_ascii(block) {
            break;
        }
        front = after;
    }
    let mut bits = 0;
    let mut rest = front;
    while LANES <= rest.len() {
        let (block, after) = rest.split_at(LANES);
        if bits & 63 != 0 || !is_ascii(block) {
            bits = read_block(bits, block);
            if bits & 63 == NO_TEXT {
                return false;
            }
        }
        rest = after;
    }
    // What is left is shorter than a block, and the end of one.
    if bits & 63 == 0 && LANES <= bytes.len() && is_ascii(&bytes[bytes.len() - LANES..]) {
        return true;
    }
    read(bits, rest) & 63 == 0
}

/// Returns the bytes as text, or `None` if they are not UTF-8.
pub(crate) fn text_in(bytes: &[u8]) -> Option<&str>
    ensures { MatchOption result
        (¬ (IsUtf8 bytes.now)) (λ text. (text.now ≡ bytes.now) × IsUtf8 bytes.now) }
{
    if is_utf8(bytes) {
        Some(unsafe { str::from_utf8_unchecked(bytes) })
    } else {
        None
    }
}

/// Returns the text of these bytes, in the same allocation.
pub(crate) fn string_from(bytes: Vec<u8>) -> Result<String, FromUtf8Error>
    ensures ok { IfOk result (λ made. string_vec made ≡ bytes) }
    ensures err { IfErr result (λ error. from_utf8_error_vec error ≡ bytes) }
    ensures succeeds { IsUtf8 bytes.items → IsOk result }
{
    if is_utf8(bytes.as_slice()) {
        Ok(unsafe { String::from_utf8_unchecked(bytes) })
    } else {
        String::from_utf8(bytes)
    }
}

/// Returns what [`read`] does, without a loop.
// Out of line: else its loads go before the test of a block for ASCII, which is then done by bytes.
#[inline(never)]
fn read_block(bits: u64, block: &[u8]) -> u64
    requires state { IsTrue (is_state (state_of bits)) }
    requires len { length block.now ≡ LANES }
    ensures { Leads (state_of bits) block.now (state_of result) }
{
    read(bits, &block[..LANES])
}

/// Returns the state after the bytes, from the one before them, each in the six low bits.
#[inline(always)]
fn read(bits: u64, bytes: &[u8]) -> u64
    requires { IsTrue (is_state (state_of bits)) }
    ensures { Leads (state_of bits) bytes.now (state_of result) }
{
    let mut state = bits;
    for byte in bytes.iter() {
        state = row_of(*byte) >> (state & 63);
    }
    state
}

/// Returns the row of a byte.
#[inline(always)]
fn row_of(byte: u8) -> u64
    ensures { result ≡ slice_index ROWS.now byte }
{
    ROWS[usize::from(byte)]
}

/// Returns whether each byte is ASCII.
// No early exit, so that the loop is vectorized.
#[inline(always)]
pub(crate) fn is_ascii(bytes: &[u8]) -> bool
    ensures { IsTrue result ↔ IsAscii bytes.now }
{
    let mut is_ascii = true;
    for i in 0..bytes.len() {
        is_ascii &= bytes[i] < 0x80;
    }
    is_ascii
}

/// Returns `string`. The prover knows a `&str` to be UTF-8 only as a parameter, not out of an
/// iterator.
pub(crate) fn utf8_param(string: &str) -> &str
    ensures value { result.now ≡ string.now }
    ensures utf8 { IsUtf8 string.now }
{
    string
}
