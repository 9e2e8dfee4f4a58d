//! Whether all words of a line may stand there, by its bytes alone.
ghost use Rattle.std.specs.Prelude.{◌≡◌, ◌==◌, true};
ghost use Rattle.std.specs.List.{list_any};
ghost use Rattle.script_words.specs.Words.{words_of, are_words, is_printable as is_printable_of};
ghost use Rattle.script_words.specs.Kept.{may_follow as may_follow_of, goes_on as goes_on_of};

// Bytes are looked at so many at a time, as far as there are as many, and then one after another.
const MANY: usize = 32;

// Whether a byte may stand behind another.
fn may_follow(before: u8, byte: u8) -> bool
    ensures { result ≡ may_follow_of before byte }
{
    matches!(byte, b' '..=b'~') & ((before != b' ') | (byte != b' '))
}

fn is_printable(byte: u8) -> bool
    ensures { result ≡ is_printable_of byte }
{
    matches!(byte, b'!'..=b'~')
}

// Whether bytes may stand one behind another, the first of them behind this one, and the last is no space.
fn goes_on(first: u8, bytes: &[u8]) -> bool
    ensures { result ≡ goes_on_of true first bytes.now }
{
    let mut before = first;
    'bytes: for byte in bytes {
        if !is_printable(*byte) {
            if *byte != b' ' {
                return false;
            }
            if before == b' ' {
                return false;
            }
        }
        before = *byte;
    }
    before != b' '
}

// The same of a line, whose front is gone over many bytes at a time.
fn is_plain_long(line: &[u8]) -> bool
    ensures { result ≡ goes_on_of true 32 line.now }
{
    let (front, rest) = line.split_at(line.len() / MANY * MANY);
    let mut good = true;
    let mut before = b' ';
    'bytes: for byte in front {
        good = good & may_follow(before, *byte);
        before = *byte;
    }
    good && goes_on(before, rest)
}

// Whether all words of the line may stand there.
pub(crate) fn is_plain(line: &[u8]) -> bool
    ensures { result ≡ are_words (words_of line.now) }
{
    if line.len() < MANY {
        goes_on(b' ', line)
    } else {
        is_plain_long(line)
    }
}

// Whether a space stands in the text.
pub(crate) fn has_space(text: &[u8]) -> bool
    ensures { result ≡ list_any (λ byte. byte == 32) text.now }
{
    let mut found = false;
    'bytes: for byte in text {
        found = found | (*byte == b' ');
    }
    found
}
