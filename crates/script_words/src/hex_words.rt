//! What a word stands for where it must be hex.
ghost use Rattle.std.specs.Prelude.{◌≡◌, ◌≢◌, ◌≤◌, ◌<◌, IfOk, IfErr, OnOk, OnErr, length, is_some, true, None, IsSome};
ghost use Rattle.std.specs.List.{list_all};
ghost use Rattle.hex.specs.Hex.{is_hex_digit, IsBytes};
ghost use Rattle.board_text.specs.Hex.{hex_bytes};
ghost use Rattle.board_text.specs.Limits.{piece_limit, place_limit};
ghost use Rattle.script_words.specs.declared.cause.Fault.TheVariants.{NoMemory};
ghost use Rattle.script_words.specs.Values.{Gives, GivesAlways, Steps, is_width as is_width_of, any_bytes, bytes_in, bytes_of_width as bytes_of_width_of};

use crate::cause::{Cause, Fault};
use crate::values::is_width;
use crate::words::Word;
use board_text::{Bytes, HexFault, Piece, read_hex};
use std::alloc::Global;

// The bytes that a word spells.
#[inline(always)]
fn read_bytes(alloc: Global, word: &Word) -> Result<Bytes, Fault>
    ensures value { Gives result (any_bytes (hex_bytes word.now)) }
    ensures each { IfOk result IsBytes }
{
    match read_hex(alloc, word.bytes()) {
        Ok(bytes) => Ok(bytes),
        Err(HexFault::Malformed(_)) => Err(Fault::Bad(Cause::Hex)),
        Err(HexFault::NoMemory) => Err(Fault::NoMemory),
    }
}

/// Bytes of a number within bounds, of any number. `hex` where the word spells no bytes, `range` where it
/// spells too few or too many.
pub fn bytes(alloc: Global, word: &Word, low: usize, high: usize) -> Result<Bytes, Fault>
    ensures value { Gives result (bytes_in low high word.now) }
    ensures each { IfOk result IsBytes }
    ensures low { IfOk result (λ b. low ≤ length b) }
    ensures high { IfOk result (λ b. length b ≤ high) }
{
    let bytes = read_bytes(alloc, word)?;
    let length = bytes.as_slice().len();
    if low <= length && length <= high {
        Ok(bytes)
    } else {
        Err(Fault::Bad(Cause::Range))
    }
}

/// 1, 2 or 4 bytes. `hex` where the word spells no bytes, `range` where it spells another number of them.
pub fn bytes_of_width(alloc: Global, word: &Word) -> Result<Bytes, Fault>
    ensures value { Gives result (bytes_of_width_of (hex_bytes word.now)) }
    ensures each { IfOk result IsBytes }
    ensures width { IfOk result (λ bytes. is_width_of (length bytes) ≡ true) }
{
    let bytes = read_bytes(alloc, word)?;
    if is_width(bytes.as_slice().len() as u64) {
        Ok(bytes)
    } else {
        Err(Fault::Bad(Cause::Range))
    }
}

fn all_hex(text: &[u8]) -> bool
    ensures { result ≡ list_all is_hex_digit text.now }
{
    text.iter().all(|byte| matches!(*byte, b'0'..=b'9' | b'a'..=b'f' | b'A'..=b'F'))
}

// Whether a text spells bytes, of any number.
fn is_hex(text: &[u8]) -> bool
    ensures { result ≡ is_some (hex_bytes text.now) }
{
    if text.is_empty() || text.len() % 2 == 1 {
        return false;
    }
    all_hex(text)
}

// What is wrong with a word that doesn't spell as many bytes as it must.
fn fault_of_number(word: &Word) -> Fault
    ensures hex { hex_bytes word.now ≡ None → result ≡ Fault.Bad Cause.Hex }
    ensures range { IsSome (hex_bytes word.now) → result ≡ Fault.Bad Cause.Range }
{
    if is_hex(word.bytes()) {
        Fault::Bad(Cause::Range)
    } else {
        Fault::Bad(Cause::Hex)
    }
}

/// Puts the bytes that a word spells into a piece: a number of bytes within bounds, of at most 256. Fewer than 39 take
/// no memory. After an error the piece is as it was.
pub fn fill_piece(
    alloc: Global,
    word: &Word,
    low: usize,
    high: usize,
    piece: &mut Piece,
) -> Result<(), Fault>
    requires { high ≤ piece_limit }
    ensures value { Steps result piece.new (bytes_in low high word.now) }
    ensures memory { high < place_limit → IfErr result (λ fault. fault ≢ NoMemory) }
    ensures refused { OnErr result (piece.new ≡ piece.old) }
    ensures each { OnOk result (IsBytes piece.new) }
    ensures low { OnOk result (low ≤ length piece.new) }
    ensures high { OnOk result (length piece.new ≤ high) }
{
    let length = word.bytes().len() / 2;
    if length < low || high < length {
        return Err(fault_of_number(word));
    }
    match piece.read_hex(alloc, word.bytes()) {
        Ok(true) => Ok(()),
        Ok(false) => Err(Fault::Bad(Cause::Hex)),
        Err(_) => Err(Fault::NoMemory),
    }
}

/// Bytes of a number within bounds, fewer than 39. It takes no memory.
pub fn piece(alloc: Global, word: &Word, low: usize, high: usize) -> Result<Piece, Fault>
    requires { high < place_limit }
    ensures value { GivesAlways result (bytes_in low high word.now) }
    ensures each { IfOk result IsBytes }
    ensures low { IfOk result (λ b. low ≤ length b) }
    ensures high { IfOk result (λ b. length b ≤ high) }
{
    let mut piece = Piece::new();
    fill_piece(alloc, word, low, high, &mut piece)?;
    Ok(piece)
}
