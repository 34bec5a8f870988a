//! Sources of a program, as a lexer reads them.
use super::random::Random;
use super::words::{joined, pair, plain, wide};
use std::alloc::{AllocError, Global};

/// What a source is like.
#[derive(Clone, Copy, PartialEq, Eq)]
pub enum Style {
    /// Statements with a comment here and there.
    Plain,
    /// Half of the words have letters outside ASCII.
    Wide,
    /// Most of it is comments, some of them long.
    Comments,
}

/// How many different lines the sources of an input have.
const LINES: u32 = 512;

/// The lines that make up the sources of one style.
#[derive(Drop)]
pub struct Lines {
    alloc: Global,
    lines: Vec<String>,
}

impl Lines {
    pub fn new(alloc: Global, random: &mut Random, style: Style) -> Result<Self, AllocError> {
        let mut lines = Vec::new(alloc);
        for _ in 0..LINES {
            let mut line = String::new(alloc);
            push_line(&mut line, random, style)?;
            lines.push(line)?;
        }
        Ok(Lines { alloc, lines })
    }

    /// A source of at least `size` bytes. One in eight ends within a text.
    pub fn source(&self, random: &mut Random, size: usize) -> Result<String, AllocError> {
        let mut text = String::with_capacity(self.alloc, size.saturating_add(8192))?;
        for _ in 0..size {
            if text.len() >= size {
                break;
            }
            if let Some(line) = self.lines.get(random.below(LINES)) {
                text.push_str(line)?;
            }
        }
        if random.below(8) == 0 {
            text.push_str("let last = \"which does not end\\\"")?;
        }
        Ok(text)
    }
}

fn push_line(text: &mut String, random: &mut Random, style: Style) -> Result<(), AllocError> {
    match random.below(16) {
        0 | 1 => push_line_comment(text, random, style),
        2 => push_block_comment(text, random, style, 6),
        3 if style == Style::Comments => push_block_comment(text, random, style, 300),
        4..=11 if style == Style::Comments => push_line_comment(text, random, style),
        3 | 4 => push_text(text, random, style),
        5..=8 => push_call(text, random, style),
        _ => push_assignment(text, random, style),
    }
}

/// A word, or two that are joined.
fn push_word(text: &mut String, random: &mut Random, style: Style) -> Result<(), AllocError> {
    let bits = random.next();
    if style == Style::Wide && bits & 64 == 0 {
        return text.push_str(wide(bits >> 7));
    }
    text.push_str(plain(bits))?;
    if bits & 128 == 0 {
        text.push_str(joined(bits >> 8))?;
    }
    Ok(())
}

fn push_number(text: &mut String, random: &mut Random) -> Result<(), AllocError> {
    let bits = random.next();
    if bits & 1 == 0 {
        text.push_str(pair(bits >> 10))?;
    }
    text.push_str(pair(bits >> 20))
}

fn push_line_comment(
    text: &mut String,
    random: &mut Random,
    style: Style,
) -> Result<(), AllocError> {
    text.push_str("    //")?;
    push_prose(text, random, style, 9)?;
    text.push('\n')
}

fn push_block_comment(
    text: &mut String,
    random: &mut Random,
    style: Style,
    most: u32,
) -> Result<(), AllocError> {
    text.push_str("/*")?;
    push_prose(text, random, style, most)?;
    text.push_str(" **/\n")
}

/// Fewer words than `most`, in lines of twelve.
fn push_prose(
    text: &mut String,
    random: &mut Random,
    style: Style,
    most: u32,
) -> Result<(), AllocError> {
    for place in 0..random.below(most.max(1)) {
        text.push_str(if place % 12 == 11 { " *\n  " } else { " " })?;
        push_word(text, random, style)?;
    }
    Ok(())
}

fn push_text(text: &mut String, random: &mut Random, style: Style) -> Result<(), AllocError> {
    text.push_str("    print(\"")?;
    push_word(text, random, style)?;
    text.push_str(" is\\t")?;
    push_word(text, random, style)?;
    text.push_str("\\n\", ")?;
    push_word(text, random, style)?;
    text.push_str(");\n")
}

fn push_call(text: &mut String, random: &mut Random, style: Style) -> Result<(), AllocError> {
    text.push_str("        ")?;
    push_word(text, random, style)?;
    text.push('.')?;
    push_word(text, random, style)?;
    text.push('(')?;
    push_word(text, random, style)?;
    text.push_str(", ")?;
    push_number(text, random)?;
    text.push_str(")?;\n")
}

fn push_assignment(text: &mut String, random: &mut Random, style: Style) -> Result<(), AllocError> {
    text.push_str("    let ")?;
    push_word(text, random, style)?;
    text.push_str(" = ")?;
    push_word(text, random, style)?;
    text.push_str(" + 0x")?;
    push_number(text, random)?;
    text.push_str("_u64;\n")
}
