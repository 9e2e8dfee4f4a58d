//! The parts of a line.
ghost use Rattle.std.specs.Prelude.{◌≡◌, ◌∷◌, ◌++◌, [], OnOk};
ghost use Rattle.std.specs.Fmt.{decimal};
ghost use Rattle.hex.specs.Hex.{encode_lower};
ghost use Rattle.script_writer.specs.Written.{switch_word, spaced};

use board_text::Bytes;
use itoa::Buffer;
use std::alloc::AllocError as NoMemory;

const DIGITS: &[u8; 16] = b"0123456789abcdef";

// A number in decimal.
pub(crate) fn put_decimal(text: &mut Bytes, number: u64) -> Result<(), NoMemory>
    ensures { OnOk result (text.new ≡ text.old ++ decimal number) }
{
    let mut buffer = Buffer::new();
    text.extend(buffer.format(number).as_bytes())
}

fn put_digits(text: &mut Bytes, bytes: &[u8]) -> Result<(), NoMemory>
    ensures { OnOk result (text.new ≡ text.old ++ encode_lower bytes.now) }
{
    for byte in bytes {
        text.push(DIGITS[(*byte / 16) as usize])?;
        text.push(DIGITS[(*byte % 16) as usize])?;
    }
    Ok(())
}

// A fixed word behind a space.
pub(crate) fn put_word(text: &mut Bytes, word: &[u8]) -> Result<(), NoMemory>
    ensures { OnOk result (text.new ≡ text.old ++ spaced (word.now ∷ [])) }
{
    text.push(b' ')?;
    text.extend(word)
}

// A number behind a space.
pub(crate) fn put_number(text: &mut Bytes, number: u64) -> Result<(), NoMemory>
    ensures { OnOk result (text.new ≡ text.old ++ spaced (decimal number ∷ [])) }
{
    text.push(b' ')?;
    put_decimal(text, number)
}

// Bytes in hex behind a space.
pub(crate) fn put_hex(text: &mut Bytes, bytes: &[u8]) -> Result<(), NoMemory>
    ensures { OnOk result (text.new ≡ text.old ++ spaced (encode_lower bytes.now ∷ [])) }
{
    text.push(b' ')?;
    put_digits(text, bytes)
}

// A name and a number.
pub(crate) fn put_named(text: &mut Bytes, name: &[u8], number: u64) -> Result<(), NoMemory>
    ensures { OnOk result (text.new ≡ text.old ++ spaced (name.now ∷ decimal number ∷ [])) }
{
    put_word(text, name)?;
    put_number(text, number)
}

// A name and two numbers.
pub(crate) fn put_named_numbers(
    text: &mut Bytes,
    name: &[u8],
    first: u64,
    second: u64,
) -> Result<(), NoMemory>
    ensures { OnOk result (text.new ≡ text.old ++ spaced (name.now ∷ decimal first ∷ decimal second ∷ [])) }
{
    put_named(text, name, first)?;
    put_number(text, second)
}

// A name, a number and bytes.
pub(crate) fn put_named_hex(
    text: &mut Bytes,
    name: &[u8],
    number: u64,
    bytes: &[u8],
) -> Result<(), NoMemory>
    ensures { OnOk result (text.new ≡ text.old ++ spaced (name.now ∷ decimal number ∷ encode_lower bytes.now ∷ [])) }
{
    put_named(text, name, number)?;
    put_hex(text, bytes)
}

// A name and `on` or `off`.
pub(crate) fn put_named_switch(text: &mut Bytes, name: &[u8], on: bool) -> Result<(), NoMemory>
    ensures { OnOk result (text.new ≡ text.old ++ spaced (name.now ∷ switch_word on ∷ [])) }
{
    put_word(text, name)?;
    put_word(text, if on { b"on" } else { b"off" })
}

// The end of a line.
pub(crate) fn end_line(text: &mut Bytes) -> Result<(), NoMemory>
    ensures { OnOk result (text.new ≡ text.old ++ 10 ∷ []) }
{
    text.push(b'\n')
}
