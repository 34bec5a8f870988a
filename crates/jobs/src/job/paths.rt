//! An archive indexes the paths of its files: texts of more than 30 bytes with long beginnings in
//! common, in orders that move most of what is there.
use super::task::Task;
use crate::digest::Digest;
use crate::input::names::Names;
use inlinable_string::StringExt;
use inline_uses::store::Store;
use inline_uses::symbols::Symbols;
use std::alloc::AllocError;

/// In which order paths come.
#[derive(Clone, Copy)]
enum Order {
    Rising,
    Falling,
    Mixed,
}

/// The digest of what is found. An input is three tables of `size` paths, and a store of a quarter
/// as many.
pub fn digest_of(task: &Task) -> Option<u64> {
    let mut digest = Digest::new();
    for input in 0..task.inputs {
        let names = Names::new(task.seed, input);
        for order in [Order::Rising, Order::Falling, Order::Mixed] {
            add_table(task, &names, order, &mut digest).ok()?;
        }
        add_store(task, &names, &mut digest).ok()?;
    }
    Some(digest.value())
}

/// The number of the path that comes at this place.
fn number_at(order: Order, place: usize, size: usize) -> u64 {
    match order {
        Order::Rising => place as u64,
        Order::Falling => size.saturating_sub(place) as u64,
        Order::Mixed => (place as u64).wrapping_mul(7_368_787) % 999_983,
    }
}

fn add_table(
    task: &Task,
    names: &Names,
    order: Order,
    digest: &mut Digest,
) -> Result<(), AllocError> {
    let mut symbols = Symbols::new(task.alloc);
    let mut path = String::new(task.alloc);
    for place in 0..task.size {
        names.write_path(number_at(order, place, task.size), &mut path)?;
        digest.add(symbols.intern(&path)?);
    }
    for place in 0..task.size {
        names.write_path(number_at(order, place, task.size), &mut path)?;
        digest.add_found(symbols.find(&path));
    }
    Ok(())
}

fn add_store(task: &Task, names: &Names, digest: &mut Digest) -> Result<(), AllocError> {
    let mut store = Store::new(task.alloc);
    let mut path = String::new(task.alloc);
    let mut value = String::new(task.alloc);
    let size = task.size / 4;
    for place in 0..size {
        names.write_path(number_at(Order::Falling, place, size), &mut path)?;
        names.write_value(place as u64, &mut value)?;
        store.put(&path, &value)?;
    }
    for (path, value) in store.scan() {
        digest.add_text(path.as_str());
        digest.add_text(value.as_str());
    }
    Ok(())
}
