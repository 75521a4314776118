// How a map file is taken: inverted or not, and with which layers over it, first with the fill as a number.
ghost use Rattle.std.specs.Prelude.{◌≡◌, codes};
ghost use Rattle.scripts.specs.Grammar.{key_at, flipped_at, mounted_at, end_of, mount_of, layers_of, map_of};
ghost use Rattle.scripts.specs.Mistakes.{Gives};
ghost use Rattle.scripts.specs.Words.{words};

use crate::mistake::{Mistake, ParseError};
use crate::parts::{address_at, code_at, strip_word};
use crate::request::{Layers, Map, Mount};
use ends::end::End;
use ends::setting::Setting;
use files::format::Format;

pub(crate) fn inverted_at(text: &[u8]) -> (bool, &[u8])
    ensures { (result.0, words result.1.now) ≡ key_at (codes "inverted") (words text.now) }
{
    match strip_word(text, b"inverted") {
        Some(text) => (true, text),
        None => (false, text),
    }
}

#[tactic(auto, unfolding(crate::specs::Grammar::flipped_at))]
pub(crate) fn flipped_at(text: &[u8]) -> Result<(Option<u32>, &[u8]), ParseError>
    ensures { Gives (λ x. (x.0, words x.1.now)) result (flipped_at (words text.now)) }
{
    let Some(text) = strip_word(text, b"flipped") else {
        return Ok((None, text));
    };
    let (mask, text) = address_at(text)?;
    Ok((Some(mask), text))
}

#[tactic(auto, unfolding(crate::specs::Grammar::mounted_at))]
pub(crate) fn mounted_at(text: &[u8]) -> Result<(Option<Mount<u16>>, &[u8]), ParseError>
    ensures { Gives (λ x. (x.0, words x.1.now)) result (mounted_at (words text.now)) }
{
    let Some(text) = strip_word(text, b"mounted") else {
        return Ok((None, text));
    };
    let (pins, text) = address_at(text)?;
    let (base, text) = address_at(text)?;
    let (fill, text) = code_at(text)?;
    Ok((Some(Mount { pins, base, fill }), text))
}

fn end_of<E: End>(code: u16) -> Result<E, Mistake>
    ensures { result ≡ end_of E.End.decoded code }
{
    E::decode(code).ok_or(Mistake::NoEnd)
}

fn mount_of<E: End>(mounted: Option<Mount<u16>>) -> Result<Option<Mount<E>>, Mistake>
    ensures { result ≡ mount_of E.End.decoded mounted }
{
    mounted
        .map(|mount| {
            let fill = end_of(mount.fill)?;
            Ok(Mount {
                pins: mount.pins,
                base: mount.base,
                fill,
            })
        })
        .transpose()
}

#[tactic(auto, unfolding(crate::specs::Grammar::layers_of))]
fn layers_of<E: End>(layers: Layers<u16>) -> Result<Layers<E>, Mistake>
    ensures { result ≡ layers_of E.End.decoded layers }
{
    let mounted = mount_of(layers.mounted)?;
    Ok(Layers {
        flipped: layers.flipped,
        mounted,
    })
}

// A map of some kind, with its fill an end of the kind.
#[tactic(auto, unfolding(crate::specs::Grammar::map_of))]
pub(crate) fn map_of(format: Format, inverted: bool, layers: Layers<u16>) -> Result<Map, Mistake>
    ensures { result ≡ map_of format inverted layers }
{
    match format {
        Format::Bits => {
            let layers = layers_of(layers)?;
            Ok(Map::Bits { inverted, layers })
        }
        Format::Settings => {
            if inverted {
                return Err(Mistake::InvertedSettings);
            }
            let layers = layers_of::<Setting>(layers)?;
            Ok(Map::Settings { layers })
        }
        Format::Ranges => {
            let layers = layers_of(layers)?;
            Ok(Map::Ranges { inverted, layers })
        }
    }
}
