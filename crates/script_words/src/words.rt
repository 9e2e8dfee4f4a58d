//! The words of a line.
ghost use Rattle.std.specs.Prelude.{◌≡◌, ◌∷◌, [], ◌==◌, MatchOption, position, length};
ghost use Rattle.std.specs.Str.{bytes_eq};
ghost use Rattle.std.specs.List.{list_all};
ghost use Rattle.std.specs.Char.{is_ascii_digit};
ghost use Rattle.script_words.specs.Words.{words_of, are_words, after_at_of, are_digits as are_digits_of, head_of, one_of, two_of, three_of};

use crate::plain::{has_space, is_plain};
use std::marker::Model;

/// A word of a line, which is a part of the text.
#[derive(Debug, Drop)]
pub struct Word<'a> {
    bytes: &'a [u8],
}

impl<'a> Model for Word<'a> {
    ghost use Rattle.std.specs.Prelude.{ℕ, List};

    ghost Value = { List ℕ };

    ghost view = { λ w. w.bytes.now };
}

impl<'a> Word<'a> {
    pub fn of(bytes: &'a [u8]) -> Word<'a>
        ensures { result ≡ bytes.now }
    {
        Word { bytes }
    }

    pub fn bytes(&self) -> &'a [u8]
        ensures { result.now ≡ self.now }
    {
        self.bytes
    }

    /// Whether the word is this one.
    pub fn is(&self, name: &[u8]) -> bool
        ensures { result ≡ bytes_eq self.now name.now }
    {
        self.bytes == name
    }

    /// What follows `@`.
    pub fn after_at(&self) -> Option<Word<'a>>
        ensures { result ≡ after_at_of self.now }
    {
        let (first, rest) = self.bytes.split_first()?;
        if *first == b'@' {
            Some(Word { bytes: rest })
        } else {
            None
        }
    }
}

/// A first word: a guest or a worker by its digits, or a name.
#[derive(Debug, Drop)]
pub enum Head<'a> {
    Guest(Word<'a>),
    Worker(Word<'a>),
    Name(Word<'a>),
}

fn all_digits(text: &[u8]) -> bool
    ensures { result ≡ list_all is_ascii_digit text.now }
{
    text.iter().all(|byte| byte.is_ascii_digit())
}

fn are_digits(text: &[u8]) -> bool
    ensures { result ≡ are_digits_of text.now }
{
    match text.split_first() {
        Some(_) => all_digits(text),
        None => false,
    }
}

impl<'a> Word<'a> {
    // The word as a name.
    fn name(&self) -> Head<'a>
        ensures { result ≡ Head.Name self.now }
    {
        Head::Name(Word { bytes: self.bytes })
    }

    /// Whether the word is `g` or `w` with digits after it.
    pub fn head(&self) -> Head<'a>
        ensures { result ≡ head_of self.now }
    {
        let Some((letter, digits)) = self.bytes.split_first() else {
            return self.name();
        };
        if !are_digits(digits) {
            return self.name();
        }
        match *letter {
            b'g' => Head::Guest(Word { bytes: digits }),
            b'w' => Head::Worker(Word { bytes: digits }),
            _ => self.name(),
        }
    }
}

/// The words that are left of a line.
#[derive(Debug, Drop)]
pub struct Words<'a> {
    rest: &'a [u8],
    ended: bool,
}

impl<'a> Model for Words<'a> {
    ghost use Rattle.std.specs.Prelude.{ℕ, List, [], if◌then◌else◌};
    ghost use Rattle.script_words.specs.Words.{words_of};

    ghost Value = { List (List ℕ) };

    ghost view = { λ w. if w.ended then [] else words_of w.rest.now };
}

// Where the first space stands.
fn first_space(text: &[u8]) -> Option<usize>
    ensures { result ≡ position (λ byte. byte == 32) text.now }
{
    text.iter().position(|byte| *byte == b' ')
}

impl<'a> Words<'a> {
    /// All words of a line.
    pub fn of(line: &'a [u8]) -> Words<'a>
        ensures { result ≡ words_of line.now }
    {
        Words {
            rest: line,
            ended: false,
        }
    }

    /// The first word and the others.
    pub fn split(self) -> Option<(Word<'a>, Words<'a>)>
        ensures { MatchOption result (self.entry ≡ []) (λ parts. self.entry ≡ parts.0 ∷ parts.1) }
    {
        if self.ended {
            return None;
        }
        match first_space(self.rest) {
            Some(place) => Some((
                Word {
                    bytes: &self.rest[..place],
                },
                Words {
                    rest: &self.rest[place + 1..],
                    ended: false,
                },
            )),
            None => Some((
                Word { bytes: self.rest },
                Words {
                    rest: &[],
                    ended: true,
                },
            )),
        }
    }

    /// The same words once more.
    pub fn again(&self) -> Words<'a>
        ensures { result ≡ self.now }
    {
        Words {
            rest: self.rest,
            ended: self.ended,
        }
    }

    /// Whether no word is left.
    pub fn is_ended(&self) -> bool
        ensures { result ≡ (length self.now == 0) }
    {
        self.ended
    }

    /// The one word that is left.
    pub fn one(self) -> Option<Word<'a>>
        ensures { result ≡ one_of self.entry }
    {
        if self.ended {
            return None;
        }
        if has_space(self.rest) {
            return None;
        }
        Some(Word { bytes: self.rest })
    }

    /// The two words that are left.
    pub fn two(self) -> Option<(Word<'a>, Word<'a>)>
        ensures { result ≡ two_of self.entry }
    {
        let (first, rest) = self.split()?;
        let second = rest.one()?;
        Some((first, second))
    }

    /// The three words that are left.
    pub fn three(self) -> Option<(Word<'a>, Word<'a>, Word<'a>)>
        ensures { result ≡ three_of self.entry }
    {
        let (first, rest) = self.split()?;
        let (second, third) = rest.two()?;
        Some((first, second, third))
    }
}

/// Whether all words of a line may stand there.
pub fn are_plain(words: Words) -> bool
    ensures { result ≡ are_words words.entry }
{
    if words.ended {
        return true;
    }
    is_plain(words.rest)
}
