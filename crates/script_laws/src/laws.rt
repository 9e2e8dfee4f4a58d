//! Laws of scripts and their texts.
ghost use Rattle.script_laws.specs.Again.{IsReadAgain};

/// The text that is written of a script reads as the same script, with the numbers of the lines of that text.
pub fn written_is_read_again()
    ensures { IsReadAgain }
{}
