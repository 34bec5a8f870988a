//! Callers of the modules, as a user writes them: each is proved from their contracts alone, with
//! no answer written by hand.
ghost use Rattle.std.specs.Prelude.{◌≡◌, ◌↔◌, ◌++◌, ◌+◌, ◌-◌, ◌^◌, ℕ, List, min, length, [], Some, None, IfOk, IfSome, IfNone, OnOk, OnErr, IsSome, IsTrue, slice_get};
ghost use Rattle.std.specs.Option.{unwrap_or};
ghost use Rattle.std.specs.Str.{chars};
ghost use Rattle.inline_uses.specs.Editor.{text_of};
ghost use Rattle.inline_uses.specs.Symbols.{AreIdsOf};
ghost use Rattle.inline_uses.specs.Tokens.{kind_at};
ghost use Rattle.inline_uses.specs.Tree.{node_at};
ghost use Rattle.inline_uses.specs.Store.{value_of as text_under, with_value};
ghost use Rattle.inline_uses.specs.TextMap.{deref_entry, entries_between, value_of, with_value as with_entry, without as without_entry};

use crate::editor::Line;
use crate::store::Store;
use crate::symbols::Symbols;
use crate::text_map::TextMap;
use crate::tokens::{Kind, next_token};
use crate::tree::{Fault, Tree};
use inlinable_string::{InlinableString, InlineStringN};
use std::alloc::{AllocError, Global};

/// Returns the ids of two texts, and gives ids to those that have none.
pub fn intern_both(
    symbols: &mut Symbols,
    one: &str,
    other: &str,
) -> Result<(usize, usize), AllocError>
    ensures first { IfOk result (λ ids. slice_get symbols.new ids.0 ≡ Some one.now) }
    ensures second { IfOk result (λ ids. slice_get symbols.new ids.1 ≡ Some other.now) }
{
    let first = symbols.intern(one)?;
    let second = symbols.intern(other)?;
    Ok((first, second))
}

/// Returns the ids of the words of a list, and gives ids to those that have none.
pub fn ids_of_words(
    symbols: &mut Symbols,
    alloc: Global,
    words: &[&str],
) -> Result<Vec<usize>, AllocError>
    ensures ids { IfOk result (λ ids. AreIdsOf symbols.new words.now ids.items) }
    ensures kept { (i : ℕ) (known : List ℕ) → slice_get symbols.old i ≡ Some known
        → slice_get symbols.new i ≡ Some known }
{
    let mut ids = Vec::new(alloc);
    symbols.intern_all(words.iter().copied(), &mut ids)?;
    Ok(ids)
}

/// Puts a value under a key that has none, and returns whether it had none.
pub fn put_if_new(store: &mut Store, key: &str, value: &str) -> Result<bool, AllocError>
    ensures answer { IfOk result (λ new. IsTrue new ↔ (text_under store.old key.now ≡ None)) }
    ensures new { IfOk result (λ new. IsTrue new
        → store.new ≡ with_value store.old key.now value.now) }
    ensures known { IfOk result (λ new. ¬ (IsTrue new) → store.new ≡ store.old) }
    ensures err { OnErr result (store.new ≡ store.old) }
{
    if store.get(key).is_some() {
        return Ok(false);
    }
    store.put(key, value)?;
    Ok(true)
}

/// Adds one to the number under a key, up to the greatest, and returns whether the key has one.
pub fn add_one(map: &mut TextMap<u64>, key: &str) -> bool
    ensures found { IsTrue result ↔ IsSome (value_of map.old key.now) }
    ensures known { (n : ℕ) → value_of map.old key.now ≡ Some n
        → map.new ≡ with_entry map.old key.now (min (n + 1) (2 ^ 64 - 1)) }
    ensures unknown { value_of map.old key.now ≡ None → map.new ≡ map.old }
{
    match map.get_mut(key) {
        Some(number) => {
            *number = number.saturating_add(1);
            true
        }
        None => false,
    }
}

/// Adds one to the number of a text, up to the greatest; one that has no number gets 0 first. Fails
/// only if an allocation does; the map is then unchanged.
pub fn count_text(map: &mut TextMap<u64>, text: &str) -> Result<(), AllocError>
    ensures ok { OnOk result (map.new ≡ with_entry map.old text.now
        (min (unwrap_or (value_of map.old text.now) 0 + 1) (2 ^ 64 - 1))) }
    ensures err { OnErr result (map.new ≡ map.old) }
{
    let number = map.get_or_put(text, 0)?;
    *number = number.saturating_add(1);
    Ok(())
}

/// Puts a number under a key that has none, and returns whether it had none.
pub fn put_first(map: &mut TextMap<u64>, key: &str, number: u64) -> Result<bool, AllocError>
    ensures answer { IfOk result (λ new. IsTrue new ↔ (value_of map.old key.now ≡ None)) }
    ensures new { IfOk result (λ new. IsTrue new
        → map.new ≡ with_entry map.old key.now number) }
    ensures known { IfOk result (λ new. ¬ (IsTrue new) → map.new ≡ map.old) }
    ensures err { OnErr result (map.new ≡ map.old) }
{
    if map.get(key).is_some() {
        return Ok(false);
    }
    map.put(key, number)?;
    Ok(true)
}

/// Removes a key, and returns the number that it had, or 0.
pub fn take(map: &mut TextMap<u64>, key: &str) -> u64
    ensures left { map.new ≡ without_entry map.old key.now }
    ensures known { (n : ℕ) → value_of map.old key.now ≡ Some n → result ≡ n }
{
    map.delete(key).unwrap_or(0)
}

/// Returns the number of keys from one up to and not including another.
pub fn count_between(map: &TextMap<u64>, from: &str, to: &str) -> usize
    ensures { result ≡ length (entries_between map.now from.now to.now) }
{
    map.range(from, to).len()
}

/// Returns the number of all keys, one after the other.
pub fn count_all(map: &TextMap<u64>) -> usize
    ensures { result ≡ length map.now }
{
    map.iter().count()
}

/// Returns the greatest key with its number, if there is a key.
pub fn greatest(map: &TextMap<u64>) -> Option<(&InlinableString, &u64)>
    ensures last { IfSome result (λ entry. slice_get map.now (length map.now - 1)
        ≡ Some (deref_entry entry)) }
    ensures none { IfNone result (map.now ≡ []) }
{
    map.iter().next_back()
}

/// Removes the whole line, wherever its cursor is.
pub fn erase<const N: usize>(line: &mut Line<N>)
    ensures { text_of line.new ≡ [] }
{
    line.home();
    line.kill_to_end();
}

/// Returns what follows the word that a source begins with, if it begins with one that fits.
pub fn after_word(source: &str) -> Option<&str>
    ensures rest { IfSome result (λ rest. (word : List ℕ) × (source.now ≡ word ++ rest.now)) }
    ensures kind { IfSome result (λ _. kind_at (chars source.now) ≡ Some Kind.Word) }
{
    let mut word: InlineStringN<32> = InlineStringN::new();
    let token = next_token(&mut word, source).ok()??;
    if token.kind != Kind::Word {
        return None;
    }
    Some(token.rest)
}

/// Returns the number of the node at the top that has this key, which is added if there is none.
pub fn top_node(tree: &mut Tree, key: &str) -> Result<usize, Fault>
    ensures node { IfOk result
        (λ id. slice_get tree.new id ≡ Some (node_at None (chars key.now))) }
    ensures err { OnErr result (tree.new ≡ tree.old) }
{
    if let Some(id) = tree.child(None, key) {
        return Ok(id);
    }
    tree.add(None, key)
}
