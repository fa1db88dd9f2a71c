// Words of files that more than one test reads: from-action-to is a line.
use std::alloc::Global;
use std::test::*;

// The file of these words, each with its low byte first.
pub(crate) fn file(words: &[u32], heap: Global) -> Result<Vec<u8>, Fail> {
    let mut bytes = Vec::new(heap);
    for word in words {
        for byte in word.to_le_bytes() {
            bytes.push(byte)?;
        }
    }
    Ok(bytes)
}

// examples/morning.card, the card 0-0-1 1-1-2 1-2-2: after action 0 it offers actions 1 and 2 together.
pub(crate) const MORNING: [u32; 5] = [
    0x1003_0003,
    0x2000_0001,
    0x2000_0842,
    0x2000_0882,
    0x5000_0000,
];

// examples/evening.card, the card 0-0-1 0-0-2 1-1-3 2-2-3: after action 0 it offers either of them.
pub(crate) const EVENING: [u32; 6] = [
    0x1004_0004,
    0x2000_0001,
    0x2000_0002,
    0x2000_0843,
    0x2000_1083,
    0x5000_0000,
];

// examples/damaged.card: the head tells two states, and the line at place 2 leads to a third.
pub(crate) const DAMAGED: [u32; 5] = [
    0x1003_0002,
    0x2000_0001,
    0x2000_0842,
    0x2000_0882,
    0x5000_0000,
];
