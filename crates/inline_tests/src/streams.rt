//! Scripts over a reader and a writer that hand over little, or fail.

mod narrow;

use narrow::{Narrow, OneByOne};
use script_language::ScriptFault;
use script_language::script::script;
use std::alloc::Global;
use std::io::ErrorKind;
use std::process::Abort;
use std::test::Fail;

const SCRIPT: &[u8] = b"push_str ab\npop\n";

const OUTPUT: &[u8] = b"done\nchar b\ntext a\nlength 1\nstorage inline\n";

/// What a script on an inline text answers.
fn answer_to(
    alloc: Global,
    input: &mut OneByOne,
    out: &mut Narrow,
) -> Result<Result<(), ScriptFault>, Fail> {
    let words = [String::from_str(alloc, "inline")?];
    Ok(script(alloc, &words, input, out))
}

#[test]
fn a_failed_read_is_a_fault_and_prints_nothing(rt: HostRuntime) -> Result<(), Fail> {
    for read in [1, 2] {
        let mut input = OneByOne::failing_at(SCRIPT, read);
        let mut out = Narrow::failing_at(&mut [], 0, None);
        let answer = answer_to(rt.alloc(), &mut input, &mut out)?;
        assert!(rt; answer == Err(ScriptFault::Read), "{answer:?} at {read}");
        assert!(rt; input.reads == read && out.writes == 0);
    }
    Ok(())
}

/// Asserts what a script answers and writes where this write fails, and returns whether there was
/// such a write. Input in single bytes is the same input.
fn assert_failed_at(
    rt: &(impl Abort + AllocGlobal),
    write: usize,
    error: Option<ErrorKind>,
) -> Result<bool, Fail> {
    let mut cells = [0; 64];
    let mut input = OneByOne::failing_at(SCRIPT, 0);
    let mut out = Narrow::failing_at(&mut cells, write, error);
    let answer = answer_to(rt.alloc(), &mut input, &mut out)?;
    let (taken, has_failed) = (out.taken, out.writes >= write);
    let written = cells.get(..taken).unwrap_or(&[]);
    let wanted = if has_failed {
        Err(ScriptFault::Write)
    } else {
        Ok(())
    };
    assert!(rt; answer == wanted, "{error:?} at {write}");
    assert!(rt; OUTPUT.starts_with(written), "{error:?} at {write}");
    let is_cut = taken < OUTPUT.len();
    assert!(rt; has_failed == is_cut, "{error:?} at {write}");
    Ok(has_failed)
}

#[test]
fn a_failed_write_is_a_fault_after_a_part_of_the_output(rt: HostRuntime) -> Result<(), Fail> {
    for error in [Some(ErrorKind::Other), Some(ErrorKind::Interrupted), None] {
        let mut failures = 0u8;
        for write in 1..=OUTPUT.len() {
            if assert_failed_at(&rt, write, error)? {
                failures = failures.saturating_add(1);
            }
        }
        // A write takes three of the 43 bytes at most.
        assert!(rt; failures >= 15, "{failures} failures");
    }
    Ok(())
}

#[test]
fn the_replies_to_a_full_script_are_few_writes(rt: HostRuntime) -> Result<(), Fail> {
    let pops = "pop\n".repeat(rt.alloc(), 16_384)?;
    let mut input = OneByOne::failing_at(pops.as_bytes(), 0);
    // "none" and a line feed for each, and the three lines of the text.
    let mut cells = vec![in rt.alloc(); 0u8; 81_950]?;
    let mut out = Narrow::failing_at(cells.as_mut_slice(), 0, None);
    out.most = usize::MAX;
    let answer = answer_to(rt.alloc(), &mut input, &mut out)?;
    assert!(rt; answer == Ok(()) && out.taken == 81_950);
    let writes = out.writes;
    assert!(rt; writes <= 20, "{writes} writes");
    Ok(())
}
