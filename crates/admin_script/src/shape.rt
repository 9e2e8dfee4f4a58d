//! Which form a line of the input of `admin` has.
ghost use Rattle.std.specs.Prelude.{◌≡◌};
ghost use Rattle.admin_script.specs.Admin.{admin_form, admin_shape_of};

use script_words::{Word, Words, are_plain};

// A line of a known form, with its words that aren't fixed.
#[derive(Debug, Drop)]
pub(crate) enum AdminShape<'a> {
    Vfs { count: Word<'a> },
    Reset,
    Cmd { writable: Word<'a>, bytes: Word<'a> },
}

fn read_form(words: Words) -> Option<AdminShape>
    ensures { result ≡ admin_form words.entry }
{
    let (name, rest) = words.split()?;
    if name.is(b"vfs") {
        let count = rest.one()?;
        Some(AdminShape::Vfs { count })
    } else if name.is(b"reset") {
        if rest.is_ended() {
            Some(AdminShape::Reset)
        } else {
            None
        }
    } else if name.is(b"cmd") {
        let (writable, bytes) = rest.two()?;
        Some(AdminShape::Cmd { writable, bytes })
    } else {
        None
    }
}

pub(crate) fn read_shape(line: &[u8]) -> Option<AdminShape>
    ensures { result ≡ admin_shape_of line.now }
{
    let words = Words::of(line);
    if !are_plain(words.again()) {
        return None;
    }
    read_form(words)
}
