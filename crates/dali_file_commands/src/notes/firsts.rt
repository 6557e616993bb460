use std::alloc::{AllocError, Global};
use std::cmp::Ordering;

// The most that a block has.
const MOST: usize = 512;

/// The first order under a number as far as it is kept: which item it was, and a sum over its unit and its updates.
#[derive(Clone, Copy)]
pub(crate) struct First {
    pub id: u64,
    pub item: u32,
    pub sum: u32,
}

/// The first orders of all numbers so far, by rising numbers, in blocks: so one more moves few others, and at no time
/// is there a copy of all.
#[derive(Drop)]
pub(crate) struct Firsts {
    alloc: Global,
    blocks: Vec<Vec<First>>,
}

impl Firsts {
    // No orders.
    pub(crate) fn new(alloc: Global) -> Firsts {
        Firsts {
            alloc,
            blocks: Vec::new(alloc),
        }
    }

    // The earlier order of this number, if there is one; else this one is added.
    pub(crate) fn earlier_or_add(&mut self, first: First) -> Result<Option<First>, AllocError> {
        let at = self.room_for(first.id)?;
        let Some(block) = self.blocks.get_mut(at) else {
            return Ok(None);
        };
        match block.binary_search_by(|known| known.id.cmp(&first.id)) {
            Ok(place) => Ok(block.get(place).copied()),
            Err(place) => {
                if place <= block.len() {
                    block.insert(place, first)?;
                }
                Ok(None)
            }
        }
    }

    // The block for a number, in which there is room for one more.
    fn room_for(&mut self, id: u64) -> Result<usize, AllocError> {
        let at = self.block_of(id);
        let (length, last) = match self.blocks.get(at) {
            Some(block) => (block.len(), block.last().copied()),
            None => (MOST, None),
        };
        if length < MOST {
            return Ok(at);
        }
        let next = at.saturating_add(1);
        let is_behind_all = match last {
            Some(last) => next >= self.blocks.len() && last.id < id,
            None => true,
        };
        if is_behind_all {
            self.blocks.push(Vec::new(self.alloc))?;
            return Ok(self.blocks.len().saturating_sub(1));
        }
        self.split(at, next)?;
        Ok(self.block_of(id))
    }

    // Puts the upper half of a block into one of its own after it.
    fn split(&mut self, at: usize, next: usize) -> Result<(), AllocError> {
        let Some(block) = self.blocks.get_mut(at) else {
            return Ok(());
        };
        let half = block.len() / 2;
        let upper = block[half..].to_vec(self.alloc)?;
        block.truncate(half);
        if next <= self.blocks.len() {
            self.blocks.insert(next, upper)?;
        }
        Ok(())
    }

    // The last block that begins with no greater number, or the first.
    fn block_of(&self, id: u64) -> usize {
        let found = self.blocks.binary_search_by(|block| match block.first() {
            Some(first) => first.id.cmp(&id),
            None => Ordering::Greater,
        });
        match found {
            Ok(at) => at,
            Err(at) => at.saturating_sub(1),
        }
    }
}
