//! The requests of a tree.
use super::Start::Rising;
use super::{Call, GREATEST, Start, UNKNOWN, assert_requests};
use TreeCall::{Add, Child, NotAdded};
use inline_uses::tree::{Fault, Tree};
use std::alloc::{AllocError, Global};
use std::test::Fail;

/// What is called.
#[derive(Clone, Copy)]
enum TreeCall {
    Add,
    NotAdded,
    Child,
}

/// Adds a node under the top, and returns whether that is no fault of its key.
fn is_added(tree: &mut Tree, key: &str) -> Result<bool, AllocError> {
    match tree.add(None, key) {
        Err(Fault::NoMemory) => Err(AllocError),
        added => Ok(added.is_ok()),
    }
}

impl Call for TreeCall {
    type Subject = Tree;

    fn subject(alloc: Global, start: Start) -> Result<Tree, AllocError> {
        let mut tree = Tree::new(alloc);
        for turn in 0..start.len() {
            is_added(&mut tree, start.text(turn).as_str())?;
        }
        Ok(tree)
    }

    fn make(self, _: Global, tree: &mut Tree) -> Result<bool, AllocError> {
        match self {
            Add => is_added(tree, GREATEST),
            NotAdded => Ok(
                tree.add(None, "000001") == Err(Fault::Taken)
                    && tree.add(Some(2), "000001") == Err(Fault::NoNode)
                    && tree.add(None, UNKNOWN) == Err(Fault::LongKey),
            ),
            Child => Ok(
                tree.child(None, "000001") == Some(1)
                    && tree.child(Some(0), "000001").is_none()
                    && tree.child(None, UNKNOWN).is_none()
                    && tree.node(1).is_some(),
            ),
        }
    }
}

/// The nodes, and the map.
#[test]
fn the_first_node(rt: HostRuntime) -> Result<(), Fail> {
    assert_requests(&rt, Rising(0), 0, Add, 2)
}

/// There is room for four.
#[test]
fn a_later_node(rt: HostRuntime) -> Result<(), Fail> {
    assert_requests(&rt, Rising(3), 2, Add, 0)
}

/// The map has room for fifteen in one part.
#[test]
fn a_fifth_node(rt: HostRuntime) -> Result<(), Fail> {
    assert_requests(&rt, Rising(4), 2, Add, 1)
}

/// Fifteen nodes request room three times. The next splits the one part of the map in two, under a
/// third.
#[test]
fn a_node_that_splits_the_map(rt: HostRuntime) -> Result<(), Fail> {
    assert_requests(&rt, Rising(15), 4, Add, 2)
}

#[test]
fn child(rt: HostRuntime) -> Result<(), Fail> {
    assert_requests(&rt, Rising(2), 2, Child, 0)
}

#[test]
fn what_is_not_added(rt: HostRuntime) -> Result<(), Fail> {
    assert_requests(&rt, Rising(2), 2, NotAdded, 0)
}
