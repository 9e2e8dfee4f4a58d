//! What is put out, appended to bytes: numbers in decimal and bytes in hex.
//!
//! It stands on `hex` for the digits of bytes and on `itoa` for those of numbers. Its main
//! clauses are those of `push_hex` and `push_number`: just these digits are appended, or
//! nothing where memory runs out.
#![tactic(auto)]

mod digits;

pub use digits::{push_hex, push_number};
