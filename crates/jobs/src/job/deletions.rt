//! A map is filled, and loses its keys in an order that a structure can be slow in, or keep memory
//! after. `bench/growth` times each order.
use super::task::Task;
use crate::digest::Digest;
use crate::input::drawn::Drawn;
use crate::input::names::Names;
use inlinable_string::StringExt;
use inline_uses::text_map::TextMap;
use std::alloc::{AllocError, Global};

/// In which order keys are deleted.
#[derive(Clone, Copy, Debug, PartialEq, Eq)]
pub enum Order {
    /// None is deleted.
    None,
    Rising,
    Falling,
    Drawn,
    /// The map itself says which key is the first, until it is empty.
    First,
    /// The least key goes before each new one, which is greater than all.
    Queue,
    /// All but a tenth go in drawn order, and all are put again; this twice.
    Refill,
}

impl Order {
    /// The name of the job.
    pub fn name(self) -> &'static str {
        match self {
            Order::None => "deletions-none",
            Order::Rising => "deletions-rising",
            Order::Falling => "deletions-falling",
            Order::Drawn => "deletions-drawn",
            Order::First => "deletions-first",
            Order::Queue => "deletions-queue",
            Order::Refill => "deletions-refill",
        }
    }
}

/// How many keys a queue gets after it was filled, by those that it has.
const ROUNDS: u64 = 4;

/// A map, and what is needed to put keys in by their numbers, which are the values.
#[derive(Drop)]
struct Numbered {
    names: Names,
    key: String,
    map: TextMap<u64>,
    digest: Digest,
}

/// The digest of what is deleted and of what is left. An input is a map of `size` keys.
pub fn digest_of(task: &Task, order: Order) -> Option<u64> {
    let mut numbered = Numbered::new(task.alloc, Names::new(task.seed, 0));
    for input in 0..task.inputs {
        numbered.names = Names::new(task.seed, input);
        numbered.map = TextMap::new(task.alloc);
        numbered.do_all(task, order).ok()?;
        numbered.add_left();
    }
    Some(numbered.digest.value())
}

impl Numbered {
    fn new(alloc: Global, names: Names) -> Self {
        Numbered {
            names,
            key: String::new(alloc),
            map: TextMap::new(alloc),
            digest: Digest::new(),
        }
    }

    fn do_all(&mut self, task: &Task, order: Order) -> Result<(), AllocError> {
        let size = task.size as u64;
        self.fill(task, size)?;
        match order {
            Order::None => Ok(()),
            Order::Rising => self.delete_rising(size),
            Order::Falling => self.delete_falling(size),
            Order::Drawn => self.delete_drawn(task, order),
            Order::First => self.delete_first(size),
            Order::Queue => self.queue(size),
            Order::Refill => {
                self.refill(task)?;
                self.refill(task)
            }
        }
    }

    fn put(&mut self, number: u64) -> Result<(), AllocError> {
        self.names.write_rising(number, &mut self.key)?;
        drop(self.map.put(&self.key, number)?);
        Ok(())
    }

    fn delete(&mut self, number: u64) -> Result<(), AllocError> {
        self.names.write_rising(number, &mut self.key)?;
        let deleted = self.map.delete(&self.key);
        self.add_found(deleted);
        Ok(())
    }

    fn add_found(&mut self, number: Option<u64>) {
        match number {
            Some(number) => self.digest.add(number as usize),
            None => self.digest.add_found(None),
        }
    }

    /// Puts all keys in, in drawn order.
    fn fill(&mut self, task: &Task, size: u64) -> Result<(), AllocError> {
        let drawn = Drawn::new(task.seed, size);
        for place in 0..=drawn.last {
            if let Some(number) = drawn.at(place) {
                self.put(number)?;
            }
        }
        Ok(())
    }

    fn delete_rising(&mut self, size: u64) -> Result<(), AllocError> {
        for number in 0..size {
            self.delete(number)?;
        }
        Ok(())
    }

    fn delete_falling(&mut self, size: u64) -> Result<(), AllocError> {
        for place in 0..size {
            self.delete(size.wrapping_sub(place).wrapping_sub(1))?;
        }
        Ok(())
    }

    /// Deletes the keys in another order than they were put in; for a refill not each tenth key.
    fn delete_drawn(&mut self, task: &Task, order: Order) -> Result<(), AllocError> {
        let drawn = Drawn::new(task.seed.wrapping_add(1), task.size as u64);
        for place in 0..=drawn.last {
            if let Some(number) = drawn.at(place) {
                if order != Order::Refill || number % 10 != 0 {
                    self.delete(number)?;
                }
            }
        }
        Ok(())
    }

    fn delete_first(&mut self, size: u64) -> Result<(), AllocError> {
        for _ in 0..size {
            self.key.clear();
            if let Some((key, _)) = self.map.iter().next() {
                self.key.push_str(key.as_str())?;
            }
            let deleted = self.map.delete(&self.key);
            self.add_found(deleted);
        }
        Ok(())
    }

    fn queue(&mut self, size: u64) -> Result<(), AllocError> {
        for number in 0..size.saturating_mul(ROUNDS) {
            self.delete(number)?;
            self.put(number.wrapping_add(size))?;
        }
        Ok(())
    }

    fn refill(&mut self, task: &Task) -> Result<(), AllocError> {
        let size = task.size as u64;
        self.delete_drawn(task, Order::Refill)?;
        self.fill(task, size)
    }

    fn add_left(&mut self) {
        for (_, number) in self.map.iter() {
            self.digest.add(*number as usize);
        }
    }
}
