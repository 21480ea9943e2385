// Numbers as a script writes them.
ghost use Rattle.std.specs.Prelude.{◌≡◌, ◌-◌, ◌^◌};
ghost use Rattle.script.specs.Numeral.{digits, numeral};

use crate::misread::Misread;

// Whether the word has decimal digits alone.
fn is_digits(word: &[u8]) -> bool
    ensures { result ≡ digits word.now }
{
    word.iter().all(|byte| byte.is_ascii_digit())
}

// The number of 64 bits that a word of decimal digits writes.
pub(crate) fn number(word: &[u8]) -> Result<u64, Misread>
    ensures { result ≡ numeral (2 ^ 64 - 1) word.now }
{
    if word.is_empty() || !is_digits(word) {
        return Err(Misread::NoNumber);
    }
    let text = str::from_utf8(word).or(Err(Misread::NoNumber))?;
    text.parse().or(Err(Misread::Range))
}
