ghost use Rattle.std.specs.Prelude.{option_map};
ghost use Rattle.scripts.specs.Grammar.{request};
ghost use Rattle.scripts.specs.Mistakes.{Gives};
ghost use Rattle.scripts.specs.Requests.{asked};
ghost use Rattle.scripts.specs.Words.{words};

use crate::grammar::call_at;
use crate::mistake::ParseError;
use crate::names::verb_of;
use crate::request::Request;
use crate::word::next_word;
use std::alloc::Global;

// What a line asks for; nothing, if it has no words.
#[tactic(auto, unfolding(crate::specs::Grammar::request))]
pub fn parse(heap: Global, line: &[u8]) -> Result<Option<Request>, ParseError>
    ensures { Gives (option_map asked) result (request (words line.now)) }
{
    let Some((name, text)) = next_word(line) else {
        return Ok(None);
    };
    let verb = verb_of(name)?;
    let request = call_at(heap, verb, text)?;
    Ok(Some(request))
}
