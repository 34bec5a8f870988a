//! A compiler reads the tokens of its sources, with the line and the column of each, and a tool
//! counts those of others.
use super::task::Task;
use crate::digest::Digest;
use crate::input::random::Random;
use crate::input::sources::{Lines, Style};
use inlinable_string::InlineStringN;
use inline_uses::tokens::{Fault, Kind, Position, Token, count_tokens, next_token};
use std::alloc::AllocError;

/// How many sources an input has, of which every other one is counted alone.
const SOURCES: usize = 20;

/// The digest of the tokens of each input, which is sources of each style, of `size` bytes each.
pub fn digest_of(task: &Task) -> Option<u64> {
    let mut digest = Digest::new();
    for input in 0..task.inputs {
        let mut random = Random::new(task.seed, input);
        for style in [Style::Plain, Style::Wide, Style::Comments] {
            add_sources(task, &mut random, style, &mut digest).ok()?;
        }
    }
    Some(digest.value())
}

fn add_sources(
    task: &Task,
    random: &mut Random,
    style: Style,
    digest: &mut Digest,
) -> Result<(), AllocError> {
    let lines = Lines::new(task.alloc, random, style)?;
    for number in 0..SOURCES {
        let source = lines.source(random, task.size)?;
        if number % 2 == 0 {
            add_tokens(&source, digest);
        } else {
            add_count(&source, digest);
        }
    }
    Ok(())
}

/// Reads the tokens of a source, up to the first fault.
fn add_tokens(source: &str, digest: &mut Digest) {
    let mut word: InlineStringN<62> = InlineStringN::new();
    let mut at = Position { line: 1, column: 1 };
    let mut rest = source;
    for _ in 0..=source.len() {
        match next_token(&mut word, rest) {
            Ok(Some(token)) => {
                add_token(&token, word.as_str(), at, digest);
                at = at.after(token.text);
                rest = token.rest;
            }
            Ok(None) => break,
            Err(fault) => {
                digest.add(number_of(fault));
                break;
            }
        }
    }
}

/// Adds a token with what it means, its length and its place, if it is no white space.
fn add_token(token: &Token, word: &str, at: Position, digest: &mut Digest) {
    if token.kind == Kind::Space {
        return;
    }
    digest.add(token.text.len());
    digest.add_text(word);
    digest.add(at.line);
    digest.add(at.column);
}

fn add_count(source: &str, digest: &mut Digest) {
    let mut word: InlineStringN<62> = InlineStringN::new();
    match count_tokens(&mut word, source) {
        Ok(count) => digest.add(count),
        Err((fault, at)) => {
            digest.add(number_of(fault));
            digest.add(at.line);
            digest.add(at.column);
        }
    }
}

fn number_of(fault: Fault) -> usize {
    match fault {
        Fault::TooLong => 1,
        Fault::Unterminated => 2,
        Fault::BadEscape(left) => left.saturating_add(3),
    }
}
