//! A compiler interns the names of a program, looks them up, and names them again.
use super::task::Task;
use crate::digest::Digest;
use crate::input::names::Names;
use inline_uses::symbols::Symbols;
use std::alloc::AllocError;

/// The digest of the ids and texts of each input, which is a table of `size` names.
pub fn digest_of(task: &Task) -> Option<u64> {
    let mut digest = Digest::new();
    for input in 0..task.inputs {
        let names = Names::new(task.seed, input);
        add_table(task, &names, &mut digest).ok()?;
    }
    Some(digest.value())
}

fn add_table(task: &Task, names: &Names, digest: &mut Digest) -> Result<(), AllocError> {
    let mut symbols = Symbols::new(task.alloc);
    let mut name = String::new(task.alloc);
    for number in 0..task.size {
        names.write(number as u64, &mut name)?;
        digest.add(symbols.intern(&name)?);
    }
    // Every other name is known, and the last half are mostly new.
    for number in 0..task.size {
        names.write((number as u64).wrapping_mul(2), &mut name)?;
        digest.add_found(symbols.find(&name));
    }
    for id in 0..symbols.len() {
        digest.add_found_text(symbols.text(id));
    }
    Ok(())
}
