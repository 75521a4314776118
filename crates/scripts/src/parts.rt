// What stands at the front of a text, and the text behind it.
// Words in, value and rest out, as in specs/Grammar, makes each contract one equation; a cursor behind `&mut` would have
// two states in each clause.
ghost use Rattle.std.specs.Prelude.{◌≡◌, ◌≤◌, IfOk, MatchOption, true, false};
ghost use Rattle.scripts.specs.Grammar.{word_at, number_at, byte_at, address_at, length_at, nothing, key_at};
ghost use Rattle.scripts.specs.Mistakes.{Gives};
ghost use Rattle.scripts.specs.Words.{words};

use crate::digits::number_of;
use crate::mistake::{Mistake, ParseError};
use crate::word::next_word;

pub(crate) fn word_at(text: &[u8]) -> Result<(&[u8], &[u8]), ParseError>
    ensures { Gives (λ x. (x.0.now, words x.1.now)) result (word_at (words text.now)) }
{
    next_word(text).ok_or(ParseError::Mistake(Mistake::MissingWord))
}

#[tactic(auto, unfolding(crate::specs::Grammar::number_at))]
fn number_at(text: &[u8], most: u64) -> Result<(u64, &[u8]), ParseError>
    ensures value { Gives (λ x. (x.0, words x.1.now)) result (number_at most (words text.now)) }
    ensures small { IfOk result (λ x. x.0 ≤ most) }
{
    let (word, rest) = word_at(text)?;
    let n = number_of(word, most)?;
    Ok((n, rest))
}

// A number of each size, by a function of its own: a trait with a greatest would need an impl for each.
pub(crate) fn byte_at(text: &[u8]) -> Result<(u8, &[u8]), ParseError>
    ensures { Gives (λ x. (x.0, words x.1.now)) result (byte_at (words text.now)) }
{
    let (n, rest) = number_at(text, 255)?;
    Ok((n as u8, rest))
}

pub(crate) fn code_at(text: &[u8]) -> Result<(u16, &[u8]), ParseError>
    ensures { Gives (λ x. (x.0, words x.1.now)) result (number_at 65535 (words text.now)) }
{
    let (n, rest) = number_at(text, 65_535)?;
    Ok((n as u16, rest))
}

pub(crate) fn address_at(text: &[u8]) -> Result<(u32, &[u8]), ParseError>
    ensures { Gives (λ x. (x.0, words x.1.now)) result (address_at (words text.now)) }
{
    let (n, rest) = number_at(text, 0xffff_ffff)?;
    Ok((n as u32, rest))
}

pub(crate) fn length_at(text: &[u8]) -> Result<(usize, &[u8]), ParseError>
    ensures { Gives (λ x. (x.0, words x.1.now)) result (length_at (words text.now)) }
{
    let (n, rest) = number_at(text, u64::MAX)?;
    Ok((n as usize, rest))
}

// Nothing is left.
pub(crate) fn end(text: &[u8]) -> Result<(), ParseError>
    ensures { Gives (λ _. tt) result (nothing (words text.now)) }
{
    if next_word(text).is_some() {
        return Err(ParseError::Mistake(Mistake::SurplusWord));
    }
    Ok(())
}

// What stands behind a word, if that stands in front.
pub(crate) fn strip_word<'a>(text: &'a [u8], key: &[u8]) -> Option<&'a [u8]>
    ensures { MatchOption result (key_at key.now (words text.now) ≡ (false, words text.now)) (λ rest. key_at key.now (words text.now) ≡ (true, words rest.now)) }
{
    match next_word(text) {
        Some((word, rest)) if word == key => Some(rest),
        _ => None,
    }
}
