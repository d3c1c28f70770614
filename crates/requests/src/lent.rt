// What is lent to a call: filled before it, so that a byte missed or written by a refusal shows, and hashed after it.

const MODULUS: u64 = 4294967291;

pub fn fill_bytes(bytes: &mut [u8]) {
    for (i, byte) in bytes.iter_mut().enumerate() {
        *byte = (i % 251 + 1) as u8;
    }
}

pub fn fill_masks(masks: &mut [u64]) {
    let mut value: u64 = 0;
    for mask in masks.iter_mut() {
        value = value.wrapping_add(72340172838076673);
        *mask = value;
    }
}

// The hash with a byte more taken in.
fn hashed(hash: u64, byte: u8) -> u64 {
    (hash % MODULUS * 257 + u64::from(byte) + 1) % MODULUS
}

pub fn hash_bytes(bytes: &[u8]) -> u64 {
    bytes.iter().fold(1, |hash, byte| hashed(hash, *byte))
}

// A mask is hashed as its eight bytes, the lowest first.
pub fn hash_masks(masks: &[u64]) -> u64 {
    let mut hash = 1;
    for mask in masks {
        for byte in mask.to_le_bytes() {
            hash = hashed(hash, byte);
        }
    }
    hash
}
