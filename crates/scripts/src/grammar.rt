// Calls: what stands behind their names.
ghost use Rattle.scripts.specs.Numbers.{number};
ghost use Rattle.scripts.specs.Grammar.{pins_of, plan_call, tables_call, draw_call, join_call, strap_call, line_only, read_call, same_call, list_call, call};
ghost use Rattle.scripts.specs.Mistakes.{Gives};
ghost use Rattle.scripts.specs.Requests.{act_of, asked};
ghost use Rattle.scripts.specs.Words.{words};

use crate::digits::number_of;
use crate::layers::{flipped_at, inverted_at, map_of, mounted_at};
use crate::mistake::ParseError;
use crate::names::{Verb, format_of, how_of, is_high};
use crate::parts::{address_at, byte_at, end, length_at, word_at};
use crate::request::{Call, Layers, Request};
use crate::word::next_word;
use std::alloc::Global;

fn pin_of(word: &[u8]) -> Result<u8, ParseError>
    ensures { Gives (λ n. n) result (number 255 word.now) }
{
    let n = number_of(word, 255)?;
    Ok(n as u8)
}

fn pins_of(heap: Global, text: &[u8]) -> Result<Vec<u8>, ParseError>
    ensures { Gives (λ v. v.items) result (pins_of (words text.now)) }
{
    let mut pins = Vec::new(heap);
    // Words are taken one by one, as everywhere here; an iterator over them would be a type with laws of its own.
    let mut rest = text;
    while let Some((word, after)) = next_word(rest) {
        let pin = pin_of(word)?;
        pins.push(pin)?;
        rest = after;
    }
    Ok(pins)
}

#[tactic(auto, unfolding(crate::specs::Grammar::plan_call))]
fn plan_at(heap: Global, text: &[u8]) -> Result<Request, ParseError>
    ensures { Gives asked result (plan_call (words text.now)) }
{
    let (nodes, text) = length_at(text)?;
    let order = pins_of(heap, text)?;
    Ok(Request::Plan { nodes, order })
}

#[tactic(auto, unfolding(crate::specs::Grammar::tables_call))]
fn tables_at(text: &[u8]) -> Result<Request, ParseError>
    ensures { Gives asked result (tables_call (words text.now)) }
{
    let (records, text) = length_at(text)?;
    let (work, text) = length_at(text)?;
    end(text)?;
    Ok(Request::Tables { records, work })
}

#[tactic(auto, unfolding(crate::specs::Grammar::draw_call))]
fn draw_at(heap: Global, text: &[u8]) -> Result<Call, ParseError>
    ensures { Gives act_of result (draw_call (words text.now)) }
{
    let (line, text) = byte_at(text)?;
    let (inverted, text) = inverted_at(text);
    let (flipped, text) = flipped_at(text)?;
    let (mounted, text) = mounted_at(text)?;
    let (kind, text) = word_at(text)?;
    let format = format_of(kind)?;
    let (file, text) = word_at(text)?;
    end(text)?;
    let map = map_of(format, inverted, Layers { flipped, mounted })?;
    let file = Vec::from_slice(heap, file)?;
    Ok(Call::Draw { line, map, file })
}

#[tactic(auto, unfolding(crate::specs::Grammar::join_call))]
fn join_at(text: &[u8]) -> Result<Call, ParseError>
    ensures { Gives act_of result (join_call (words text.now)) }
{
    let (word, text) = word_at(text)?;
    let how = how_of(word)?;
    let (left, text) = byte_at(text)?;
    let (right, text) = byte_at(text)?;
    let (line, text) = byte_at(text)?;
    end(text)?;
    Ok(Call::Join {
        how,
        left,
        right,
        line,
    })
}

#[tactic(auto, unfolding(crate::specs::Grammar::strap_call))]
fn strap_at(text: &[u8]) -> Result<Call, ParseError>
    ensures { Gives act_of result (strap_call (words text.now)) }
{
    let (from, text) = byte_at(text)?;
    let (pin, text) = byte_at(text)?;
    let (word, text) = word_at(text)?;
    let high = is_high(word)?;
    let (line, text) = byte_at(text)?;
    end(text)?;
    Ok(Call::Strap {
        from,
        pin,
        high,
        line,
    })
}

// One line and nothing more.
#[tactic(auto, unfolding(crate::specs::Grammar::line_only))]
fn line_only(text: &[u8]) -> Result<u8, ParseError>
    ensures { Gives (λ n. n) result (line_only (words text.now)) }
{
    let (line, text) = byte_at(text)?;
    end(text)?;
    Ok(line)
}

#[tactic(auto, unfolding(crate::specs::Grammar::read_call))]
fn read_at(text: &[u8]) -> Result<Call, ParseError>
    ensures { Gives act_of result (read_call (words text.now)) }
{
    let (line, text) = byte_at(text)?;
    let (address, text) = address_at(text)?;
    end(text)?;
    Ok(Call::Read { line, address })
}

#[tactic(auto, unfolding(crate::specs::Grammar::same_call))]
fn same_at(text: &[u8]) -> Result<Call, ParseError>
    ensures { Gives act_of result (same_call (words text.now)) }
{
    let (left, text) = byte_at(text)?;
    let (right, text) = byte_at(text)?;
    end(text)?;
    Ok(Call::Same { left, right })
}

#[tactic(auto, unfolding(crate::specs::Grammar::list_call))]
fn list_at(heap: Global, text: &[u8]) -> Result<Call, ParseError>
    ensures { Gives act_of result (list_call (words text.now)) }
{
    let Some((file, text)) = next_word(text) else {
        return Ok(Call::List { file: None });
    };
    end(text)?;
    let file = Vec::from_slice(heap, file)?;
    Ok(Call::List { file: Some(file) })
}

#[tactic(auto, unfolding(crate::specs::Grammar::call))]
pub(crate) fn call_at(heap: Global, verb: Verb, text: &[u8]) -> Result<Request, ParseError>
    ensures { Gives asked result (call verb (words text.now)) }
{
    let call = match verb {
        Verb::Plan => return plan_at(heap, text),
        Verb::Tables => return tables_at(text),
        Verb::Draw => draw_at(heap, text)?,
        Verb::Join => join_at(text)?,
        Verb::Strap => strap_at(text)?,
        Verb::Erase => Call::Erase {
            line: line_only(text)?,
        },
        Verb::Read => read_at(text)?,
        Verb::Same => same_at(text)?,
        Verb::Used => {
            end(text)?;
            Call::Used
        }
        Verb::Count => Call::Count {
            line: line_only(text)?,
        },
        Verb::Issue => {
            end(text)?;
            Call::Issue
        }
        Verb::Reopen => {
            end(text)?;
            Call::Reopen
        }
        Verb::List => list_at(heap, text)?,
    };
    Ok(Request::Call(call))
}
