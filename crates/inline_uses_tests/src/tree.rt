//! Trees and their JSON: deep ones, and what is no tree.
use inlinable_string::StringExt;
use inline_uses::tree::json::copied;
use inline_uses::tree::{Fault, LEVELS, Tree};
use serde_json::{Map, Value};
use std::alloc::{AllocError, Global};
use std::test::Fail;

/// JSON texts of no tree, and why. A clause leaves it open whether an allocation fails.
const NO_TREES: &[(&str, Fault)] = &[
    (r#"{"a":{"b":{},"c":1}}"#, Fault::NotObject),
    (r#"{"a":{"sechzehn Größen":{}}}"#, Fault::LongKey),
];

#[test]
fn only_objects_in_objects_are_trees(rt: HostRuntime) -> Result<(), Fail> {
    for (text, fault) in NO_TREES {
        let value = Value::from_str(rt.alloc(), text)?;
        assert!(rt; Tree::from_json(rt.alloc(), &value).is_err_and(|found| found == *fault));
    }
    Ok(())
}

/// JSON objects, each the member `a` of the one around it.
fn nested(alloc: Global, levels: usize) -> Result<Value, AllocError> {
    let mut value = Value::Object(Map::new(alloc));
    for _ in 1..levels {
        let mut outer = Map::new(alloc);
        drop(outer.insert(String::from_str(alloc, "a")?, value)?);
        value = Value::Object(outer);
    }
    Ok(value)
}

/// Takes objects apart from the outermost in, since std drops a value by recursion; counts them.
fn take_apart(value: Value, most: usize) -> usize {
    let mut value = value;
    for levels in 1..most {
        let Value::Object(mut members) = value else {
            return 0;
        };
        match members.remove("a") {
            Some(inner) => value = inner,
            None => return levels,
        }
    }
    most
}

/// Nodes with the key `a`, each under the one before it.
fn chain(alloc: Global, nodes: usize) -> Result<Tree, Fault> {
    let mut tree = Tree::new(alloc);
    let mut place = None;
    for _ in 0..nodes {
        place = Some(tree.add(place, "a")?);
    }
    Ok(tree)
}

/// How many levels of JSON are too many, and how many nodes are too deep: within the time of a
/// test.
const TOO_DEEP: &[(usize, usize)] = &[(LEVELS + 1, LEVELS), (30_000, 29_999)];

#[test]
fn what_is_too_deep_is_neither_read_nor_written(rt: HostRuntime) -> Result<(), Fail> {
    let alloc = rt.alloc();
    for (levels, nodes) in TOO_DEEP {
        let value = nested(alloc, *levels)?;
        assert!(rt; Tree::from_json(alloc, &value).is_err_and(|fault| fault == Fault::TooDeep));
        assert_eq!(rt; take_apart(value, usize::MAX), *levels);
        let tree = chain(alloc, *nodes).map_err(|_| "refused")?;
        let written = tree.to_json(alloc);
        assert!(rt; written.is_err_and(|fault| fault == Fault::TooDeep));
        let path = tree.path(alloc, nodes.saturating_sub(1));
        assert!(rt; path.is_ok_and(|path| path.len() == nodes.saturating_mul(2)));
    }
    Ok(())
}

#[test]
fn a_deep_object_is_read_and_written(rt: HostRuntime) -> Result<(), Fail> {
    let (alloc, value) = (rt.alloc(), nested(rt.alloc(), LEVELS)?);
    let tree = Tree::from_json(alloc, &value).map_err(|_| "refused")?;
    assert!(rt; tree.to_json(alloc).is_ok_and(|shown| shown == value));
    let tree = chain(alloc, LEVELS - 1).map_err(|_| "refused")?;
    assert!(rt; copied(alloc, &tree).is_ok());
    Ok(())
}
