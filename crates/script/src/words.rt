// The words of a line, read from the first on.
ghost use Rattle.std.specs.Prelude.{◌≡◌, [], ◌∷◌, drop, position, MatchResult};
ghost use Rattle.std.specs.List.{prefix_len};
ghost use Rattle.script.specs.Forms.{byte, amount, keyword, end};
ghost use Rattle.script.specs.Splitting.{white, dark, words_of};
ghost use Rattle.script.specs.declared.misread.Misread.TheVariants.{Count};

use crate::misread::Misread;
use crate::number::number;
use std::marker::Model;

// White space between words: a space, a tab or a carriage return. The library's `is_ascii_whitespace` takes a form feed too.
fn is_white(byte: u8) -> bool
    ensures { result ≡ white byte }
{
    matches!(byte, b' ' | b'\t' | b'\r')
}

// Where the first word begins, if there is one.
fn word_start(text: &[u8]) -> Option<usize>
    ensures { result ≡ position dark text.now }
{
    text.iter().position(|byte| !is_white(*byte))
}

// How many bytes the text has before its first white space.
fn word_len(text: &[u8]) -> usize
    ensures { result ≡ prefix_len dark text.now }
{
    text.iter().take_while(|byte| !is_white(**byte)).count()
}

// The words of a line that are still to come. They lie in the line, and are not copied.
#[derive(Drop)]
pub(crate) struct Words<'a> {
    rest: &'a [u8],
}

impl<'a> Model for Words<'a> {
    ghost use Rattle.std.specs.Prelude.{ℕ, List};
    ghost use Rattle.script.specs.Splitting.{words_of};

    ghost Value = { List (List ℕ) };

    ghost view = { λ w. words_of w.rest.now };
}

impl<'a> Iterator for Words<'a> {
    type Item = &'a [u8];

    ghost use Rattle.std.specs.Iterator.{YieldsFirstBy, item_count};

    ghost next_gives = { YieldsFirstBy (λ w. w.now) (λ ws. ws) };

    ghost remaining = { item_count (λ ws. ws) };

    fn next(&mut self) -> Option<&'a [u8]> {
        let start = word_start(self.rest)?;
        let text = &self.rest[start..];
        let (word, rest) = text.split_at(word_len(text));
        self.rest = rest;
        Some(word)
    }
}

impl<'a> Words<'a> {
    pub(crate) fn of(line: &'a [u8]) -> Words<'a>
        ensures { result ≡ words_of line.now }
    {
        Words { rest: line }
    }

    // The next word, which there must be.
    fn word(&mut self) -> Result<&'a [u8], Misread>
        ensures { MatchResult result (λ w. self.old ≡ w.now ∷ self.new) (λ e. (e ≡ Count) × (self.old ≡ []) × (self.new ≡ [])) }
    {
        self.next().ok_or(Misread::Count)
    }

    // An amount: a number of 64 bits.
    pub(crate) fn amount(&mut self) -> Result<u64, Misread>
        ensures amount { result ≡ amount 0 self.old }
        ensures left { self.new ≡ drop 1 self.old }
    {
        number(self.word()?)
    }

    // An account, an asset, or a count of either: a number of 8 bits.
    pub(crate) fn byte(&mut self) -> Result<u8, Misread>
        ensures byte { result ≡ byte 0 self.old }
        ensures left { self.new ≡ drop 1 self.old }
    {
        u8::try_from(self.amount()?).or(Err(Misread::Range))
    }

    // This word and no other.
    pub(crate) fn keyword(&mut self, name: &[u8]) -> Result<(), Misread>
        ensures keyword { result ≡ keyword name.now 0 self.old }
        ensures left { self.new ≡ drop 1 self.old }
    {
        if self.word()? == name {
            Ok(())
        } else {
            Err(Misread::Unknown)
        }
    }

    // There must be no word left over.
    pub(crate) fn end(&mut self) -> Result<(), Misread>
        ensures { result ≡ end self.old }
    {
        match self.next() {
            Some(_) => Err(Misread::Count),
            None => Ok(()),
        }
    }
}
