// Where keys may stand in a list of them, so that most are found without a search. Nothing is promised of these indices: whoever goes
// by one looks whether it is right, and searches where it isn't.
use plan_basics::OpKey;
use std::alloc::{AllocError, Global};

/// So many slots there are for each key: then one key in nine loses its slot to another.
const SLOTS_EACH: usize = 4;

/// Indices of keys, each in the slot of its key.
// A map of the standard library would need `Hash` of the keys, with what it promises; of slots nothing has to be proved.
#[derive(Drop)]
pub struct Hints {
    slots: Vec<u32>,
}

// A number with one more part (Fowler, Noll and Vo).
fn with_part(number: u64, part: u64) -> u64 {
    (number ^ part).wrapping_mul(0x0000_0100_0000_01b3)
}

// A number that a key gives; that of another key is seldom the same.
fn number_of(key: &OpKey) -> u64 {
    let arrival = key.occurrence.arrival.minute().unsigned_abs();
    let mut number = with_part(0xcbf2_9ce4_8422_2325, arrival);
    for byte in key.occurrence.app.as_bytes() {
        number = with_part(number, u64::from(*byte));
    }
    with_part(number, u64::from(key.number))
}

impl Hints {
    /// Where these keys stand.
    pub fn of(alloc: Global, keys: &[OpKey]) -> Result<Hints, AllocError> {
        let count = keys.len().saturating_mul(SLOTS_EACH);
        let mut hints = Hints {
            slots: vec![in alloc; 0; count]?,
        };
        for (index, key) in keys.iter().enumerate() {
            hints.note(key, index);
        }
        Ok(hints)
    }

    // The slot of a key.
    fn slot_of(&self, key: &OpKey) -> usize {
        let slots = self.slots.len() as u64;
        number_of(key).checked_rem(slots).unwrap_or(0) as usize
    }

    // A key stands at an index.
    fn note(&mut self, key: &OpKey, index: usize) {
        let slot = self.slot_of(key);
        if let Some(place) = self.slots.get_mut(slot) {
            *place = u32::try_from(index).unwrap_or(0);
        }
    }

    /// Where a key may stand.
    pub fn near(&self, key: &OpKey) -> usize {
        match self.slots.get(self.slot_of(key)) {
            Some(place) => *place as usize,
            None => 0,
        }
    }
}
