//! Random sets and look-ups beside an ordered map.

use crate::plot::{Given, Plot};
use lldb_base::Trouble;
use ql_edge::{Bytes, NoMemory};
use std::alloc::Global;
use std::collections::BTreeMap;
use std::test::Fail;

/// A tree, and what it is to hold: by the number of a key, the turn in which it was set last.
#[derive(Drop)]
struct Pairing {
    plot: Plot,
    map: BTreeMap<u32, u32>,
    /// How many bytes stand before the digits of each key.
    padding: usize,
    seed: u64,
}

/// How many digits to base 16 a number below 4,096 has without the zeros at its end.
fn digits(number: u32) -> usize {
    if number % 16 != 0 {
        3
    } else if number % 256 != 0 {
        2
    } else if number != 0 {
        1
    } else {
        0
    }
}

/// A byte for a digit, 0 and 255 among them.
fn digit(number: u32) -> u8 {
    (number % 16) as u8 * 17
}

/// The key of a number below 4,096: so many bytes 255, and its digits without the zeros at its end. The order of the keys is
/// that of the numbers.
fn key_of(alloc: Global, padding: usize, number: u32) -> Result<Bytes, NoMemory> {
    let all = [digit(number / 256), digit(number / 16), digit(number)];
    let mut key = Bytes::with_capacity(alloc, padding)?;
    for _ in 0..padding {
        key.push(255)?;
    }
    key.extend(&all[..digits(number).min(3)])?;
    Ok(key)
}

/// The value of a turn, of 0 to 16 bytes.
fn value_of(alloc: Global, turn: u32) -> Result<Bytes, NoMemory> {
    let bytes = [(turn % 251) as u8; 16];
    Bytes::from_slice(alloc, &bytes[..(turn % 17) as usize])
}

/// Whether a pair is that of a number and a turn.
fn is_pair(
    alloc: Global,
    pair: &Given,
    padding: usize,
    number: u32,
    turn: u32,
) -> Result<bool, NoMemory> {
    let key = key_of(alloc, padding, number)?;
    let value = value_of(alloc, turn)?;
    Ok(pair.key.as_slice() == key.as_slice() && pair.value.as_slice() == value.as_slice())
}

impl Pairing {
    fn new(alloc: Global, padding: usize) -> Result<Pairing, Trouble> {
        let plot = Plot::new(alloc)?;
        let map = BTreeMap::new(alloc);
        let seed = 1;
        Ok(Pairing {
            plot,
            map,
            padding,
            seed,
        })
    }

    /// The next of some numbers below 4,096 that look random.
    fn number(&mut self) -> u32 {
        self.seed = self
            .seed
            .wrapping_mul(6_364_136_223_846_793_005)
            .wrapping_add(1_442_695_040_888_963_407);
        (self.seed >> 52) as u32
    }

    /// Sets a pair in both.
    fn set(&mut self, number: u32, turn: u32) -> Result<(), Trouble> {
        let alloc = self.plot.alloc;
        let key = key_of(alloc, self.padding, number)?;
        let value = value_of(alloc, turn)?;
        self.plot.set(key.as_slice(), value.as_slice())?;
        match self.map.insert(number, turn) {
            Ok(_) => Ok(()),
            Err(_) => Err(Trouble::NoMemory),
        }
    }

    /// Removes a key from both, and answers whether both had it or neither.
    fn remove(&mut self, number: u32) -> Result<bool, Trouble> {
        let alloc = self.plot.alloc;
        let key = key_of(alloc, self.padding, number)?;
        let had = self.plot.remove(key.as_slice())?;
        Ok(had == self.map.remove(&number).is_some())
    }

    /// Whether both have the same at a number.
    fn agrees(&mut self, number: u32) -> Result<bool, Trouble> {
        let alloc = self.plot.alloc;
        let key = key_of(alloc, self.padding, number)?;
        let found = self.plot.get(key.as_slice())?;
        match (found, self.map.get(&number)) {
            (None, None) => Ok(true),
            (Some(value), Some(turn)) => {
                let wanted = value_of(alloc, *turn)?;
                Ok(value.as_slice() == wanted.as_slice())
            }
            _ => Ok(false),
        }
    }

    /// Sets so many random pairs, and looks another one up after each. It answers the first turn in which that differs.
    fn run(&mut self, turns: u32) -> Result<Option<u32>, Trouble> {
        for turn in 0..turns {
            let number = self.number();
            self.set(number, turn)?;
            let other = self.number();
            if !self.agrees(number)? || !self.agrees(other)? {
                return Ok(Some(turn));
            }
        }
        Ok(None)
    }

    /// Sets and removes so many random keys: more are set in the first half, and more removed in the second. It answers the
    /// first turn in which the tree differs.
    fn change(&mut self, turns: u32) -> Result<Option<u32>, Trouble> {
        for turn in 0..turns {
            let number = self.number() % 1024;
            let sets = (self.number() % 3 == 0) == (turn > turns / 2);
            if sets {
                self.set(number, turn)?;
            } else if !self.remove(number)? {
                return Ok(Some(turn));
            }
            if !self.agrees(number)? || (turn % 100 == 0 && !self.plot.is_well()?) {
                return Ok(Some(turn));
            }
        }
        Ok(None)
    }

    /// Whether a whole pass by a cursor gives what the map has.
    fn passes(&mut self) -> Result<bool, Trouble> {
        let alloc = self.plot.alloc;
        let mut cursor = self.plot.tree.cursor();
        for (number, turn) in self.map.iter() {
            let Some(pair) = self.plot.next(&mut cursor)? else {
                return Ok(false);
            };
            if !is_pair(alloc, &pair, self.padding, *number, *turn)? {
                return Ok(false);
            }
        }
        Ok(self.plot.next(&mut cursor)?.is_none())
    }
}

/// Whether a tree of keys with so much padding does as an ordered map does.
fn is_as_a_map(alloc: Global, padding: usize, turns: u32) -> Result<bool, Trouble> {
    let mut pairing = Pairing::new(alloc, padding)?;
    let differs = pairing.run(turns)?.is_some();
    Ok(!differs && pairing.passes()?)
}

#[test]
fn beside_a_map(rt: HostRuntime) -> Result<(), Fail> {
    let same = is_as_a_map(rt.alloc(), 0, 2000)?;
    assert!(rt; same);
    Ok(())
}

#[test]
fn beside_a_map_with_long_keys(rt: HostRuntime) -> Result<(), Fail> {
    let same = is_as_a_map(rt.alloc(), 1097, 1200)?;
    assert!(rt; same);
    Ok(())
}

/// Whether a tree from which keys are removed too does as an ordered map does.
fn changes_as_a_map(alloc: Global, padding: usize, turns: u32) -> Result<bool, Trouble> {
    let mut pairing = Pairing::new(alloc, padding)?;
    let differs = pairing.change(turns)?.is_some();
    Ok(!differs && pairing.plot.is_well()? && pairing.passes()?)
}

#[test]
fn removed_beside_a_map(rt: HostRuntime) -> Result<(), Fail> {
    let same = changes_as_a_map(rt.alloc(), 0, 4000)?;
    assert!(rt; same);
    Ok(())
}

#[test]
fn removed_beside_a_map_with_long_keys(rt: HostRuntime) -> Result<(), Fail> {
    let same = changes_as_a_map(rt.alloc(), 1097, 1500)?;
    assert!(rt; same);
    Ok(())
}
