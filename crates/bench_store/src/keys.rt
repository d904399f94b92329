//! The keys, and the orders in which they are put and got.
use bk_base::Key;
use std::alloc::{AllocError, Global};
use std::io;
use std::io::ErrorKind;

/// The key of this number: 16 bytes.
pub fn key_of(alloc: Global, number: u32) -> io::Result<Key> {
    let number = u64::from(number);
    let mixed = number.wrapping_mul(0x9e37_79b9_7f4a_7c15);
    let mut bytes = Vec::with_capacity(alloc, 16)?;
    bytes.extend_from_slice(&number.to_le_bytes())?;
    bytes.extend_from_slice(&mixed.to_le_bytes())?;
    Key::new(bytes).map_err(|_| ErrorKind::InvalidInput.into())
}

/// The keys of these numbers.
fn keys_of(alloc: Global, numbers: &[u32]) -> io::Result<Vec<Key>> {
    let mut keys = Vec::with_capacity(alloc, numbers.len())?;
    for number in numbers {
        keys.push(key_of(alloc, *number)?)?;
    }
    Ok(keys)
}

/// The numbers from 0 on, so many, in order.
fn counted(alloc: Global, items: u32) -> Result<Vec<u32>, AllocError> {
    let mut numbers = Vec::with_capacity(alloc, items as usize)?;
    for number in 0..items {
        numbers.push(number)?;
    }
    Ok(numbers)
}

/// Puts them into a random order, the same in each run.
fn shuffle(numbers: &mut [u32]) {
    let mut state = 1u64;
    for place in 1..numbers.len() {
        state = state
            .wrapping_mul(6_364_136_223_846_793_005)
            .wrapping_add(1_442_695_040_888_963_407);
        let other = (state >> 33) as usize % (place + 1);
        numbers.swap(place, other);
    }
}

/// The keys of a run: their numbers as they come and in a random order, and the keys in another.
#[derive(Drop)]
pub struct Orders {
    pub counted: Vec<u32>,
    pub shuffled: Vec<u32>,
    pub wanted: Vec<Key>,
}

impl Orders {
    pub fn new(alloc: Global, items: u32) -> io::Result<Orders> {
        let counted = counted(alloc, items)?;
        let mut shuffled = counted.clone()?;
        shuffle(&mut shuffled);
        let mut again = shuffled.clone()?;
        shuffle(&mut again);
        Ok(Orders {
            counted,
            shuffled,
            wanted: keys_of(alloc, &again)?,
        })
    }
}
