ghost use Rattle.std.specs.Prelude.{◌≡◌, MatchResult};
ghost use Rattle.readers.specs.Entries.{switch_of};
ghost use Rattle.files.specs.Formats.{count_of, pins_of};
ghost use Rattle.files.specs.Theorems.{Accepted, Refused};
ghost use Rattle.files.specs.Verdict.{accepted};
ghost use Rattle.sources.specs.Mapping.{Mapped};
ghost use Rattle.readers.specs.Selections.{below_top};

use crate::entry::Switch;
use crate::kind::{Kind, Switched};
use crate::map_file::MapFile;
use faults::fault::Fault;
use files::accept::{accept, accepted_or_blank};
use sources::block::Block;
use sources::source::{Answer, Source};
use std::marker::PhantomData;

impl<'a, K: Kind> MapFile<'a, K> {
    // The reader of bytes that are a map file of the kind; else the first fault.
    pub fn read(bytes: &'a [u8]) -> Result<MapFile<'a, K>, Fault>
        ensures { MatchResult result (λ file. Accepted K.format bytes.now file.bytes.now) (λ f. Refused K.format bytes.now f) }
    {
        let bytes = accept(bytes, K::format())?;
        Ok(MapFile {
            bytes,
            kind: PhantomData,
        })
    }

    // The reader of accepted bytes; of any others, that of the smallest map file.
    pub fn over(bytes: &'a [u8]) -> MapFile<'a, K>
        ensures { result.bytes.now ≡ accepted K.format bytes.now }
    {
        let bytes = accepted_or_blank(bytes, K::format());
        MapFile {
            bytes,
            kind: PhantomData,
        }
    }

    pub fn end_at(&self, address: u32) -> Option<K::Of>
        ensures { result ≡ below_top (pins_of K.format self.now.bytes.now) (K.selection self.now.bytes.now) address }
    {
        if !self.fields().has_address(address) {
            return None;
        }
        Some(K::end(self.code_at(address)))
    }
}

impl<'a, K: Switched> MapFile<'a, K> {
    pub fn switches(&self) -> u16
        ensures { result ≡ count_of K.format self.now.bytes.now }
    {
        self.fields().entry_count()
    }

    // The first end is switch 0, at address 0.
    pub fn switch(&self, i: u16) -> Option<Switch<K::Of>>
        ensures { result ≡ switch_of K.format K.end self.now.bytes.now i }
    {
        let fields = self.fields();
        if i > fields.entry_count() {
            return None;
        }
        Some(Switch {
            address: fields.first_address(i),
            end: K::end(fields.code_after(i)),
        })
    }
}

// An answer in codes, in the ends that they stand for.
fn in_ends<K: Kind>(answer: Answer<u8>) -> Answer<K::Of>
    ensures { Mapped (λ c e. e ≡ K.end c) answer result }
{
    answer.map(
        |code: u8| -> K::Of
            ensures { result ≡ K.end code }
        { K::end(code) },
    )
}

impl<'a, K: Kind> Source for MapFile<'a, K> {
    type Of = K::Of;

    ghost width = { λ s. pins_of K.format s.bytes.now };

    ghost selection = { λ s. K.selection s.bytes.now };

    ghost some = { λ s. s.some };

    ghost few = { λ s. s.few };

    fn pins(&self) -> u32 {
        self.pin_count()
    }

    fn ask(&self, block: Block) -> Answer<K::Of> {
        in_ends::<K>(self.ask_codes(block))
    }
}
