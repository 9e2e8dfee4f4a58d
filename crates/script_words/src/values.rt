//! What a word stands for where it must be a number or hex.
ghost use Rattle.std.specs.Prelude.{◌≡◌, ◌≤◌, ◌<◌, ◌^◌, true, IfOk};
ghost use Rattle.board_text.specs.Number.{number_of};
ghost use Rattle.byte_fields.specs.Sizes.{is_queue_size as is_queue_size_of};
ghost use Rattle.script_words.specs.Values.{GivesAlways, number_in, any_number, is_width as is_width_of, width_at, queue_size_at, among as among_of};

use crate::cause::{Cause, Fault};
use crate::words::Word;
use board_text::read_decimal;

/// The number that a word spells, if it does.
pub fn number_at(word: &Word) -> Option<u64>
    ensures { result ≡ number_of word.now }
{
    match read_decimal(word.bytes()) {
        Ok(number) => Some(number),
        Err(_) => None,
    }
}

/// A number within bounds.
pub fn number(word: &Word, low: u64, high: u64) -> Result<u64, Fault>
    ensures value { GivesAlways result (number_in low high word.now) }
    ensures bound { IfOk result (λ n. n ≤ high) }
    ensures low { IfOk result (λ n. low ≤ n) }
{
    let Some(number) = number_at(word) else {
        return Err(Fault::Bad(Cause::Number));
    };
    if low <= number && number <= high {
        Ok(number)
    } else {
        Err(Fault::Bad(Cause::Number))
    }
}

/// A number of any size.
pub fn large_number(word: &Word) -> Result<u64, Fault>
    ensures { GivesAlways result (any_number (number_of word.now)) }
{
    match number_at(word) {
        Some(number) => Ok(number),
        None => Err(Fault::Bad(Cause::Number)),
    }
}

pub(crate) fn is_width(number: u64) -> bool
    ensures { result ≡ is_width_of number }
{
    number == 1 || number == 2 || number == 4
}

/// 1, 2 or 4.
pub fn width(word: &Word) -> Result<u32, Fault>
    ensures value { GivesAlways result (width_at (number_of word.now)) }
    ensures width { IfOk result (λ n. is_width_of n ≡ true) }
{
    match number_at(word) {
        Some(number) => {
            if is_width(number) {
                Ok(number as u32)
            } else {
                Err(Fault::Bad(Cause::Number))
            }
        }
        None => Err(Fault::Bad(Cause::Number)),
    }
}

fn is_queue_size(number: u64) -> bool
    ensures { result ≡ is_queue_size_of number }
{
    number == 4
        || number == 8
        || number == 16
        || number == 32
        || number == 64
        || number == 128
        || number == 256
}

/// A power of two from 4 to 256.
pub fn queue_size(word: &Word) -> Result<u32, Fault>
    ensures value { GivesAlways result (queue_size_at (number_of word.now)) }
    ensures size { IfOk result (λ n. is_queue_size_of n ≡ true) }
{
    match number_at(word) {
        Some(number) => {
            if is_queue_size(number) {
                Ok(number as u32)
            } else {
                Err(Fault::Bad(Cause::Number))
            }
        }
        None => Err(Fault::Bad(Cause::Number)),
    }
}

/// One of those that exist.
pub fn among(word: &Word, low: u64, end: u64) -> Result<u32, Fault>
    requires { end < 2 ^ 32 }
    ensures value { GivesAlways result (among_of low end (number_of word.now)) }
    ensures bound { IfOk result (λ n. n < end) }
    ensures low { IfOk result (λ n. low ≤ n) }
{
    let Some(number) = number_at(word) else {
        return Err(Fault::Bad(Cause::Number));
    };
    if low <= number && number < end {
        Ok(number as u32)
    } else {
        Err(Fault::Bad(Cause::Actor))
    }
}
