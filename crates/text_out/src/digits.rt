//! Digits.
ghost use Rattle.std.specs.Prelude.{◌≡◌, ◌++◌, ◌≤◌, length, OnOk, OnErr};
ghost use Rattle.std.specs.Fmt.{decimal};
ghost use Rattle.hex.specs.Hex.{encode_lower};

use itoa::Buffer;
use std::alloc::AllocError as NoMemory;

// How many bytes are turned into hex at once.
const PART: usize = 64;

// Appends a part in hex.
fn push_part(output: &mut Vec<u8>, part: &[u8]) -> Result<(), NoMemory>
    requires { length part.now ≤ 64 }
    ensures ok { OnOk result (output.new.items ≡ output.old.items ++ encode_lower part.now) }
    ensures err { OnErr result (output.new.items ≡ output.old.items) }
{
    let mut digits = [0; 2 * PART];
    let digits = &mut digits[..2 * part.len()];
    hex::encode_to_slice(part, digits).unwrap();
    output.extend_from_slice(digits)
}

/// Appends bytes in hex, two digits each, in lower case. After `NoMemory` the output is as it was.
pub fn push_hex(output: &mut Vec<u8>, bytes: &[u8]) -> Result<(), NoMemory>
    ensures ok { OnOk result (output.new.items ≡ output.old.items ++ encode_lower bytes.now) }
    ensures err { OnErr result (output.new.items ≡ output.old.items) }
{
    let before = output.len();
    let mut from = 0;
    'parts: while from < bytes.len() {
        let count = PART.min(bytes.len() - from);
        if let Err(fault) = push_part(output, &bytes[from..from + count]) {
            output.truncate(before);
            return Err(fault);
        }
        from += count;
    }
    Ok(())
}

/// Appends a number in decimal, without a superfluous zero. After `NoMemory` the output is as it was.
pub fn push_number(output: &mut Vec<u8>, number: u64) -> Result<(), NoMemory>
    ensures ok { OnOk result (output.new.items ≡ output.old.items ++ decimal number) }
    ensures err { OnErr result (output.new.items ≡ output.old.items) }
{
    let mut digits = Buffer::new();
    output.extend_from_slice(digits.format(number).as_bytes())
}
