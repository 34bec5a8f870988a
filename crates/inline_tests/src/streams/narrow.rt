//! A reader and a writer that hand over little, or fail.

use std::io::{self, ErrorKind, Read, Write};

/// Hands out its bytes one at a time, and fails at the read of that number, counted from 1.
#[derive(Drop)]
pub struct OneByOne<'a> {
    rest: &'a [u8],
    failing_read: usize,
    /// How many reads were made.
    pub reads: usize,
}

impl<'a> OneByOne<'a> {
    pub fn failing_at(rest: &'a [u8], failing_read: usize) -> OneByOne<'a> {
        OneByOne {
            rest,
            failing_read,
            reads: 0,
        }
    }
}

impl Read for OneByOne<'_> {
    fn read(&mut self, buf: &mut [u8]) -> io::Result<usize> {
        self.reads = self.reads.saturating_add(1);
        if self.failing_read == self.reads {
            return Err(io::Error::from(ErrorKind::Interrupted));
        }
        let (Some((first, rest)), Some(cell)) = (self.rest.split_first(), buf.first_mut()) else {
            return Ok(0);
        };
        *cell = *first;
        self.rest = rest;
        Ok(1)
    }
}

/// Takes a few bytes a write, and fails at the write of that number, counted from 1: with an error,
/// or by taking no byte.
#[derive(Drop)]
pub struct Narrow<'a> {
    cells: &'a mut [u8],
    /// How many bytes a write takes at most.
    pub most: usize,
    failing_write: usize,
    error: Option<ErrorKind>,
    /// How many writes were made.
    pub writes: usize,
    /// How many bytes were taken.
    pub taken: usize,
}

impl<'a> Narrow<'a> {
    pub fn failing_at(
        cells: &'a mut [u8],
        failing_write: usize,
        error: Option<ErrorKind>,
    ) -> Narrow<'a> {
        Narrow {
            cells,
            most: 3,
            failing_write,
            error,
            writes: 0,
            taken: 0,
        }
    }
}

impl Write for Narrow<'_> {
    fn write(&mut self, buf: &[u8]) -> io::Result<usize> {
        self.writes = self.writes.saturating_add(1);
        if self.writes == self.failing_write {
            return self.error.map_or(Ok(0), |kind| Err(io::Error::from(kind)));
        }
        let Some(room) = self.cells.get_mut(self.taken..) else {
            return Ok(0);
        };
        let count = buf.len().min(room.len()).min(self.most);
        room[..count].copy_from_slice(&buf[..count]);
        self.taken = self.taken.saturating_add(count);
        Ok(count)
    }

    fn flush(&mut self) -> io::Result<()> {
        Ok(())
    }
}
