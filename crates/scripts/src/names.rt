// Words that name something.
ghost use Rattle.std.specs.Prelude.{◌≡◌};
ghost use Rattle.scripts.specs.Grammar.{verb_of, how_of, is_high, format_of};

use crate::mistake::Mistake;
use crate::request::How;
use files::format::Format;

// The calls, by their names. An enum between `parse` and `call_at`, since the grammar has the same two steps.
#[derive(Clone, Copy)]
pub(crate) enum Verb {
    Plan,
    Tables,
    Draw,
    Join,
    Strap,
    Erase,
    Read,
    Same,
    Used,
    Count,
    Issue,
    Reopen,
    List,
}

#[tactic(auto, unfolding(crate::specs::Grammar::verb_of))]
pub(crate) fn verb_of(word: &[u8]) -> Result<Verb, Mistake>
    ensures { result ≡ verb_of word.now }
{
    match word {
        b"plan" => Ok(Verb::Plan),
        b"tables" => Ok(Verb::Tables),
        b"draw" => Ok(Verb::Draw),
        b"join" => Ok(Verb::Join),
        b"strap" => Ok(Verb::Strap),
        b"erase" => Ok(Verb::Erase),
        b"read" => Ok(Verb::Read),
        b"same" => Ok(Verb::Same),
        b"used" => Ok(Verb::Used),
        b"count" => Ok(Verb::Count),
        b"issue" => Ok(Verb::Issue),
        b"reopen" => Ok(Verb::Reopen),
        b"list" => Ok(Verb::List),
        _ => Err(Mistake::UnknownCall),
    }
}

#[tactic(auto, unfolding(crate::specs::Grammar::how_of))]
pub(crate) fn how_of(word: &[u8]) -> Result<How, Mistake>
    ensures { result ≡ how_of word.now }
{
    match word {
        b"both" => Ok(How::Both),
        b"either" => Ok(How::Either),
        b"differ" => Ok(How::Differ),
        b"overlay" => Ok(How::Overlay),
        _ => Err(Mistake::UnknownJoining),
    }
}

#[tactic(auto, unfolding(crate::specs::Grammar::is_high))]
pub(crate) fn is_high(word: &[u8]) -> Result<bool, Mistake>
    ensures { result ≡ is_high word.now }
{
    match word {
        b"low" => Ok(false),
        b"high" => Ok(true),
        _ => Err(Mistake::UnknownLevel),
    }
}

#[tactic(auto, unfolding(crate::specs::Grammar::format_of))]
pub(crate) fn format_of(word: &[u8]) -> Result<Format, Mistake>
    ensures { result ≡ format_of word.now }
{
    match word {
        b"bits" => Ok(Format::Bits),
        b"settings" => Ok(Format::Settings),
        b"ranges" => Ok(Format::Ranges),
        _ => Err(Mistake::UnknownKind),
    }
}
