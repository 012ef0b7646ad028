// Numbers in bytes, and memory byte by byte and word by word.
#![tactic(auto)]

pub mod alike;
pub mod by_bytes;
pub mod by_words;
pub mod memory;
pub mod words;
