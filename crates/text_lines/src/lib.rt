//! What all texts of Dovecounter are made of: lines, words, decimal numbers and hexadecimal bytes.
//! Nothing here allocates.
#![tactic(auto)]

mod decimal;
mod hexadecimal;
mod lines;
mod printed_words;
mod words;

pub use decimal::read_decimal;
pub use hexadecimal::{HexByte, Hexadecimal, read_hex_byte, read_hexadecimal};
pub use lines::{LF, Lines, split_ended_line, split_line, split_long_line};
pub use printed_words::{PrintedWords, ToWords, Word};
pub use words::split_words;
