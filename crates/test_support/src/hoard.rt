//! All memory that can be had, held by a test.
use std::alloc::Global;

/// How many blocks are held at most. Under the address sanitizer of `rt try` memory cannot be used
/// up with so few.
const MOST_BLOCKS: usize = 20_000;

/// What a test says that cannot hold all memory, and so has not checked anything.
pub const NEEDS_THE_PROVED_BUILD: &str =
    "all memory cannot be held here: this test needs the proved build";

/// All memory that can be had. Until it is dropped, each request fails. `rt try` has too much
/// memory to be held.
#[derive(Drop)]
pub struct Hoard {
    blocks: Vec<Vec<u8>>,
}

impl Hoard {
    /// Takes all memory. `None` where it is not used up then.
    pub fn take(alloc: Global) -> Option<Hoard> {
        Hoard::rest(alloc, Vec::with_capacity(alloc, MOST_BLOCKS).ok()?)
    }

    /// Takes all memory but one block, which serves one request of this size. The C library gives a
    /// longer one at times and keeps that for requests of its own length, so this tries whether the
    /// block that was given back serves, and else sets others aside first.
    pub fn take_but_one(alloc: Global, size: usize) -> Option<Hoard> {
        for tries in 0..10usize {
            let mut blocks = Vec::with_capacity(alloc, MOST_BLOCKS).ok()?;
            take_some(alloc, &mut blocks, size, 50 * tries);
            let spare: Vec<u8> = Vec::with_capacity(alloc, size).ok()?;
            let hoard = Hoard::rest(alloc, blocks)?;
            drop(spare);
            let granted: Result<Vec<u8>, _> = Vec::with_capacity(alloc, size);
            if granted.is_ok() {
                return Some(hoard);
            }
        }
        None
    }

    /// Takes all memory that is left, in addition to these blocks: of each size until one is
    /// refused, the largest first, down to one byte, and then what the C library keeps of freed
    /// blocks for requests of about their own size.
    fn rest(alloc: Global, mut blocks: Vec<Vec<u8>>) -> Option<Hoard> {
        for smaller in 0..=46u32 {
            let size = 1usize << (46 - smaller);
            take_some(alloc, &mut blocks, size, MOST_BLOCKS);
        }
        for size in 1..=1040usize {
            take_some(alloc, &mut blocks, size, MOST_BLOCKS);
        }
        let one_more: Result<Vec<u8>, _> = Vec::with_capacity(alloc, 1);
        if blocks.len() < MOST_BLOCKS && one_more.is_err() {
            Some(Hoard { blocks })
        } else {
            None
        }
    }
}

/// Takes at most `count` blocks of this size, until one is refused, as far as there are places for
/// them.
fn take_some(alloc: Global, blocks: &mut Vec<Vec<u8>>, size: usize, count: usize) {
    for _ in 0..count {
        let Ok(block) = Vec::with_capacity(alloc, size) else {
            break;
        };
        if blocks.push(block).is_err() {
            break;
        }
    }
}
