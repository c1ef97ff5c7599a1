// Takes the process's memory.
use std::alloc::{AllocError, Global};

const ROOM: usize = 200_000;

// Takes blocks of falling size until not even the smallest is left. Nothing is written to them, so little is really used.
fn take_all(alloc: Global) -> Result<Vec<Vec<u8>>, AllocError> {
    let mut held = Vec::with_capacity(alloc, ROOM)?;
    let mut size = 1usize << 44;
    for _ in 0..45u8 {
        for _ in 0..ROOM {
            if held.len() >= held.capacity() {
                return Ok(held);
            }
            match Vec::with_capacity(alloc, size) {
                Ok(block) => held.push(block)?,
                Err(_) => break,
            }
        }
        size /= 2;
    }
    Ok(held)
}

/// All memory of the process: while it is held, the allocator refuses each request that finds no room left by what is given
/// back.
#[derive(Drop)]
pub struct Held {
    blocks: Option<Vec<Vec<u8>>>,
    is_all: bool,
}

impl Held {
    /// Takes all that there is.
    pub fn all(alloc: Global) -> Held {
        let blocks = take_all(alloc).ok();
        let is_all = Vec::<u8>::with_capacity(alloc, 1).is_err();
        Held { blocks, is_all }
    }

    /// Gives it back. Returns whether nothing was left while it was held.
    pub fn give_back(self) -> bool {
        self.blocks.is_some() && self.is_all
    }
}
