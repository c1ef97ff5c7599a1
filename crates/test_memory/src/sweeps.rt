// Tries with room for ever more bytes: later and later growths are the first one refused.
use super::taking::Held;
use std::alloc::{AllocError, Global};

/// Blocks that are given back one by one while all other memory is taken, so that the room grows step by step.
pub const SPARES: usize = 8000;

/// Bytes of a spare block: more than the allocator keeps aside for quick use, so that neighbours that are given back become
/// one.
const SPARE: usize = 144;

/// What comes of a try.
#[derive(Clone, Copy, PartialEq, Eq)]
pub enum MemoryOutcome {
    /// What is to come of it.
    Done,
    /// It is refused for want of memory.
    WithoutMemory,
    /// Anything else.
    Otherwise,
}

/// How often a thing was refused for want of memory, and what came of the last try.
#[derive(Clone, Copy)]
pub struct Sweep {
    pub refused: u32,
    pub last: MemoryOutcome,
}

impl Sweep {
    // Where memory can't be taken.
    const FAILED: Sweep = Sweep {
        refused: 0,
        last: MemoryOutcome::Otherwise,
    };

    /// Whether it was refused more than so many times, and then done.
    pub fn is_done_after(&self, refused: u32) -> bool {
        self.last == MemoryOutcome::Done && self.refused > refused
    }
}

fn spare_blocks(alloc: Global) -> Result<Vec<Vec<u8>>, AllocError> {
    let mut spares = Vec::with_capacity(alloc, SPARES)?;
    for _ in 0..SPARES {
        spares.push(Vec::with_capacity(alloc, SPARE)?)?;
    }
    Ok(spares)
}

// Tries a thing until it comes to anything but a refusal for want of memory, at most so many times. After each refusal one
// spare block is given back.
fn tried_again<F: FnMut() -> MemoryOutcome>(
    spares: &mut Vec<Vec<u8>>,
    most: usize,
    mut tried: F,
) -> Sweep
    requires { F.IsAlwaysCallable tried }
{
    let mut refused = 0u32;
    for _ in 0..most {
        let last = tried();
        if last != MemoryOutcome::WithoutMemory {
            return Sweep { refused, last };
        }
        refused = refused.saturating_add(1);
        drop(spares.pop());
    }
    Sweep {
        refused,
        last: MemoryOutcome::WithoutMemory,
    }
}

/// Tries a thing while all memory is taken, and again each time that one more block is given back, until it comes to
/// anything but a refusal for want of memory; at most so many times. Then all memory is given back.
pub fn swept<F: FnMut() -> MemoryOutcome>(alloc: Global, most: usize, tried: F) -> Sweep
    requires { F.IsAlwaysCallable tried }
{
    match spare_blocks(alloc) {
        Ok(mut spares) => {
            let held = Held::all(alloc);
            let sweep = tried_again(&mut spares, most, tried);
            if held.give_back() {
                sweep
            } else {
                Sweep::FAILED
            }
        }
        Err(_) => Sweep::FAILED,
    }
}
