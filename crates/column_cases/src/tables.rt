//! Numbers in the rows of tables.

use std::alloc::Global;
use std::process::Abort;

/// The numbers of a text, with spaces between them.
pub fn numbers_of(rt: &impl Abort, alloc: Global, text: &str) -> Vec<u32> {
    let mut numbers = Vec::new(alloc);
    for word in text.split_whitespace() {
        let number = word.parse::<u32>().ok().expect(rt, "a number");
        numbers.push(number).expect(rt, "memory");
    }
    numbers
}

/// The same, where they are numbers of 64 bits.
pub fn values_of(rt: &impl Abort, alloc: Global, text: &str) -> Vec<i64> {
    let mut values = Vec::new(alloc);
    for word in text.split_whitespace() {
        let value = word.parse::<i64>().ok().expect(rt, "a value");
        values.push(value).expect(rt, "memory");
    }
    values
}

fn digit_of(byte: u8) -> u64 {
    match byte {
        b'0'..=b'9' => u64::from(byte - b'0'),
        b'a'..=b'f' => u64::from(byte - b'a') + 10,
        _ => 0,
    }
}

// A word that is written by digits of 16.
fn word_of(text: &str) -> u64 {
    let mut word = 0u64;
    for byte in text.as_bytes() {
        word = word.wrapping_mul(16).wrapping_add(digit_of(*byte));
    }
    word
}

/// Whether the words are those of a text, by digits of 16.
pub fn are_words(words: &[u64], text: &str) -> bool {
    let mut left = words;
    for wanted in text.split_whitespace() {
        let [word, rest @ ..] = left else {
            return false;
        };
        if *word != word_of(wanted) {
            return false;
        }
        left = rest;
    }
    left.is_empty()
}
