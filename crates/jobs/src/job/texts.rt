//! A program reads the lines of a log, whose encodings differ, counts and edits their fields, sorts
//! the lines, and runs commands on each.
use super::task::Task;
use crate::digest::Digest;
use crate::input::names::Names;
use inlinable_string::run::{Command, Reply, run};
use inlinable_string::{InlinableString, StringExt, StringMake};
use std::alloc::{AllocError, Global};
use std::borrow::CowStr;
use std::collections::BTreeMap;

/// How often each field is there.
type Counts = BTreeMap<InlinableString, usize>;

/// The digest of the counts, the fields and the lines. An input is `size` lines.
pub fn digest_of(task: &Task) -> Option<u64> {
    let mut digest = Digest::new();
    for input in 0..task.inputs {
        let names = Names::new(task.seed, input);
        let mut lines = read_lines(task, &names, &mut digest)?;
        lines.sort_unstable();
        for line in lines {
            add_line(line, &mut digest);
        }
    }
    Some(digest.value())
}

/// The lines, whose fields are counted and edited.
fn read_lines(task: &Task, names: &Names, digest: &mut Digest) -> Option<Vec<InlinableString>> {
    let mut lines = Vec::new(task.alloc);
    let mut counts = Counts::new(task.alloc);
    let mut written = String::new(task.alloc);
    for number in 0..task.size {
        names.write_line(number as u64, &mut written).ok()?;
        let line = read_line(task.alloc, &written, names.bits(number as u64))?;
        add_fields(task.alloc, line.as_str(), &mut counts, digest).ok()?;
        lines.push(line).ok()?;
    }
    for (field, count) in counts.iter() {
        digest.add_text(field.as_str());
        digest.add(*count);
    }
    Some(lines)
}

/// A line as it is read from its bytes or, one in eight, from UTF-16. One in eight has a byte that
/// is not UTF-8, and is read as well as can be.
fn read_line(alloc: Global, written: &str, bits: u64) -> Option<InlinableString> {
    if bits & 7 == 0 {
        let units = units_of(alloc, written).ok()?;
        return InlinableString::from_utf16(alloc, &units).ok();
    }
    let mut bytes = Vec::from_slice(alloc, written.as_bytes()).ok()?;
    if bits & 7 == 1 {
        bytes.push(0xE9).ok()?;
    }
    match InlinableString::from_utf8(alloc, bytes) {
        Ok(mut line) => {
            line.shrink_to_fit().ok()?;
            Some(line)
        }
        Err(error) => {
            let bytes = error.into_bytes();
            let read = InlinableString::from_utf8_lossy(alloc, &bytes).ok()?;
            owned(alloc, &read).ok()
        }
    }
}

fn owned(alloc: Global, read: &CowStr) -> Result<InlinableString, AllocError> {
    match read {
        CowStr::Borrowed(text) => InlinableString::from(alloc, text),
        CowStr::Owned(text) => InlinableString::from(alloc, text.as_str()),
    }
}

/// The UTF-16 of a text whose characters have one unit each.
fn units_of(alloc: Global, text: &str) -> Result<Vec<u16>, AllocError> {
    let mut units = Vec::with_capacity(alloc, text.len())?;
    for ch in text.chars() {
        units.push(u16::try_from(u32::from(ch)).unwrap_or(0xFFFD))?;
    }
    Ok(units)
}

/// Counts each field of a line, and edits it.
fn add_fields(
    alloc: Global,
    line: &str,
    counts: &mut Counts,
    digest: &mut Digest,
) -> Result<(), AllocError> {
    let mut last = InlinableString::new(alloc);
    for field in line.split(' ') {
        let mut field = InlinableString::from(alloc, field)?;
        digest.add(usize::from(field == last));
        last = field.clone()?;
        edit(&mut field, last.len())?;
        digest.add_text(field.as_str());
        count(counts, field)?;
    }
    Ok(())
}

/// Puts a field in quotes, marks it, and removes its first characters.
fn edit(field: &mut InlinableString, len: usize) -> Result<(), AllocError> {
    field.insert(0, '"')?;
    field.push('"')?;
    if len % 2 == 0 {
        field.push_str(" seen again in this line")?;
    }
    if len % 4 == 3 && !field.is_empty() {
        field.remove(0);
        field.pop();
    }
    field.push('\n')
}

fn count(counts: &mut Counts, field: InlinableString) -> Result<(), AllocError> {
    match counts.get_mut(&field) {
        Some(count) => *count = count.saturating_add(1),
        None => {
            counts.insert(field, 1)?;
        }
    }
    Ok(())
}

/// Runs commands on a line.
fn add_line(mut line: InlinableString, digest: &mut Digest) {
    let commands = [
        Command::Push('.'),
        Command::Remove(1),
        Command::InsertStr(0, "log: "),
        Command::Pop,
        Command::Truncate(40),
        Command::PushStr(" .."),
        Command::Insert(3, 'é'),
        Command::ShrinkToFit,
    ];
    let mut replies = [Reply::Done; 8];
    run(&mut line, &commands, &mut replies);
    for reply in replies {
        digest.add(number_of(reply));
    }
    digest.add_text(line.as_str());
}

fn number_of(reply: Reply) -> usize {
    match reply {
        Reply::Done => 1,
        Reply::Char(ch) => (u32::from(ch) as usize).saturating_add(10),
        Reply::NoChar => 2,
        Reply::BadPlace => 3,
        Reply::NotUtf8 => 4,
        Reply::WrongLength => 5,
        Reply::NoMemory => 6,
    }
}
