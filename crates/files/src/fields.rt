// The fields of bytes that are read in a format, each where it stands; a byte past the end reads as 0.
ghost use Rattle.std.specs.Prelude.{◌≡◌, ◌^◌, ◌<◌, nat_lt, slice_index};
ghost use Rattle.files.specs.Formats.{double, triple, pins_of, count_of, first_of, last_of, code_of};

use crate::format::Format;
use crate::layout::{BEHIND_ADDRESS, FIRST_CODE_AT};

#[derive(Clone, Copy)]
pub struct Fields<'a> {
    pub bytes: &'a [u8],
    pub format: Format,
}

impl<'a> Fields<'a> {
    pub fn byte_at(&self, at: usize) -> u8
        ensures { result ≡ slice_index self.now.bytes.now at }
    {
        self.bytes.get(at).copied().unwrap_or(0)
    }

    // Two bytes as a number, the highest first.
    pub fn be16(&self, at: u32) -> u16
        ensures { result ≡ double self.now.bytes.now at }
    {
        let at = at as usize;
        u16::from_be_bytes([self.byte_at(at), self.byte_at(at + 1)])
    }

    // Three bytes as a number, the highest first.
    pub fn be24(&self, at: u32) -> u32
        ensures value { result ≡ triple self.now.bytes.now at }
        ensures below { result < 2 ^ 24 }
    {
        let at = at as usize;
        u32::from_be_bytes([
            0,
            self.byte_at(at),
            self.byte_at(at + 1),
            self.byte_at(at + 2),
        ])
    }

    pub fn pin_count(&self) -> u8
        ensures { result ≡ pins_of self.now.format self.now.bytes.now }
    {
        self.byte_at(self.format.layout().pins_at)
    }

    pub fn entry_count(&self) -> u16
        ensures { result ≡ count_of self.now.format self.now.bytes.now }
    {
        self.be16(self.format.layout().count_at as u32)
    }

    // Whether the pins have this address.
    pub fn has_address(&self, address: u32) -> bool
        ensures { result ≡ nat_lt address (2 ^ pins_of self.now.format self.now.bytes.now) }
    {
        let pins = self.pin_count();
        pins >= 32 || address < 1 << pins
    }

    // The address of a switch, or the first address of a range. The first end, entry 0, stands at address 0.
    pub fn first_address(&self, entry: u16) -> u32
        ensures { result ≡ first_of self.now.format self.now.bytes.now entry }
    {
        if entry == 0 {
            return 0;
        }
        self.be24(self.format.entry_at(entry))
    }

    // The last address of a range, 1 and up.
    pub fn last_address(&self, range: u16) -> u32
        ensures value { result ≡ last_of self.now.bytes.now range }
        ensures below { result < 2 ^ 24 }
    {
        self.be24(Format::Ranges.entry_at(range) + BEHIND_ADDRESS)
    }

    // The code after some changes of the end.
    pub fn code_after(&self, changes: u16) -> u8
        ensures { result ≡ code_of self.now.format self.now.bytes.now changes }
    {
        match self.format {
            Format::Bits => ((u32::from(self.byte_at(FIRST_CODE_AT)) + u32::from(changes))
                % 2) as u8,
            Format::Settings if changes == 0 => self.byte_at(FIRST_CODE_AT),
            Format::Settings => self.byte_at(
                (self.format.entry_at(changes) + BEHIND_ADDRESS) as usize,
            ),
            Format::Ranges => (changes % 2) as u8,
        }
    }
}
