//! An editor keeps the tree of a document, finds nodes and their paths, and writes it as JSON and
//! reads it back.
use super::task::Task;
use crate::digest::Digest;
use crate::input::names::Names;
use crate::input::random::Random;
use inlinable_string::StringExt;
use inline_uses::tree::{Fault, Tree};
use std::alloc::AllocError;

/// A node at this depth has none under it, so that JSON can have the tree.
const DEEPEST: u8 = 125;

/// Where a node was added, and how many are above it.
#[derive(Clone, Copy)]
struct Place {
    id: usize,
    depth: u8,
}

/// The digest of what is found. An input is a tree of about `size` nodes: many under one, and long
/// chains.
pub fn digest_of(task: &Task) -> Option<u64> {
    let mut digest = Digest::new();
    for input in 0..task.inputs {
        let names = Names::new(task.seed, input);
        let mut random = Random::new(task.seed, input);
        let tree = grown(task, &names, &mut random, &mut digest).ok()?;
        add_children(task, &names, &tree, &mut digest).ok()?;
        add_paths(task, &tree, &mut digest)?;
        let value = tree.to_json(task.alloc).ok()?;
        let copy = Tree::from_json(task.alloc, &value).ok()?;
        digest.add(copy.len());
        add_parents(&copy, &mut digest);
    }
    Some(digest.value())
}

/// The tree, whose nodes are under the last one, one of the last thousand, one of eight, or none.
fn grown(
    task: &Task,
    names: &Names,
    random: &mut Random,
    digest: &mut Digest,
) -> Result<Tree, AllocError> {
    let mut tree = Tree::new(task.alloc);
    let mut places: Vec<Place> = Vec::new(task.alloc);
    let mut key = String::new(task.alloc);
    for number in 0..task.size {
        names.write_key(number as u64, &mut key)?;
        let above = place_above(&places, random);
        let depth = match above {
            Some(place) => place.depth.saturating_add(1),
            None => 0,
        };
        match tree.add(above.map(|place: Place| place.id), &key) {
            Ok(id) => {
                digest.add(id);
                if depth < DEEPEST {
                    places.push(Place { id, depth })?;
                }
            }
            Err(Fault::NoMemory) => return Err(AllocError),
            Err(_) => digest.add_found(None),
        }
    }
    Ok(tree)
}

/// Where the next node is put.
fn place_above(places: &[Place], random: &mut Random) -> Option<Place> {
    match random.below(8) {
        0 => None,
        1..=3 => places.last().copied(),
        4..=6 => places
            .get(places.len().saturating_sub(1 + random.below(1000)))
            .copied(),
        _ => places.get(random.below(8)).copied(),
    }
}

/// Looks for every other node under its parent, and under each of the others for a key that no node
/// has.
fn add_children(
    task: &Task,
    names: &Names,
    tree: &Tree,
    digest: &mut Digest,
) -> Result<(), AllocError> {
    let mut key = String::new(task.alloc);
    for id in 0..tree.len() {
        let found = match tree.node(id) {
            Some(node) if id % 2 == 0 => tree.child(node.parent, node.key.as_str()),
            _ => {
                names.write_key(id as u64, &mut key)?;
                key.push('-')?;
                tree.child(Some(id), &key)
            }
        };
        digest.add_found(found);
    }
    Ok(())
}

/// The paths of every fourth node.
fn add_paths(task: &Task, tree: &Tree, digest: &mut Digest) -> Option<()> {
    for quarter in 0..tree.len() / 4 {
        let path = tree.path(task.alloc, quarter.saturating_mul(4)).ok()?;
        digest.add_text(path.as_str());
    }
    Some(())
}

fn add_parents(tree: &Tree, digest: &mut Digest) {
    for id in 0..tree.len() {
        if let Some(node) = tree.node(id) {
            digest.add_found(node.parent);
            digest.add_text(node.key.as_str());
        }
    }
}
