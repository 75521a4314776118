// Where the fields of each format stand, and how long its parts are.
ghost use Rattle.std.specs.Prelude.{◌≡◌, ◌^◌, ◌<◌};
ghost use Rattle.files.specs.Formats.{mark_of, pins_at, count_at, header_size, entry_size, entry_at, code_limit};

use crate::format::Format;

// Every format has its version here.
pub(crate) const VERSION_AT: u32 = 3;

// A switch file has its kind and the code of its first end here.
pub(crate) const KIND_AT: usize = 5;

pub(crate) const FIRST_CODE_AT: usize = 7;

// An entry begins with an address; the code of a switch, or the last address of a range, stands behind it.
pub(crate) const BEHIND_ADDRESS: u32 = 3;

#[derive(Clone, Copy)]
pub struct Layout {
    pub mark: [u8; 3],
    pub pins_at: usize,
    pub count_at: usize,
    pub header_len: usize,
    pub entry_len: usize,
    // The codes of the ends are those below this number.
    pub codes: u8,
}

impl Format {
    pub fn layout(self) -> Layout
        ensures mark { result.mark ≡ mark_of self }
        ensures pins { result.pins_at ≡ pins_at self }
        ensures count { result.count_at ≡ count_at self }
        ensures header { result.header_len ≡ header_size self }
        ensures entry { result.entry_len ≡ entry_size self }
        ensures codes { result.codes ≡ code_limit self }
    {
        match self {
            Format::Bits => Layout {
                mark: *b"SWL",
                pins_at: 6,
                count_at: 8,
                header_len: 10,
                entry_len: 3,
                codes: 2,
            },
            Format::Settings => Layout {
                mark: *b"SWL",
                pins_at: 6,
                count_at: 8,
                header_len: 10,
                entry_len: 4,
                codes: 128,
            },
            Format::Ranges => Layout {
                mark: *b"RNG",
                pins_at: 5,
                count_at: 6,
                header_len: 8,
                entry_len: 6,
                codes: 2,
            },
        }
    }

    // Where an entry stands, 1 and up.
    pub(crate) fn entry_at(self, entry: u16) -> u32
        ensures value { result ≡ entry_at self entry }
        ensures below { result < 2 ^ 24 }
    {
        let layout = self.layout();
        layout.header_len as u32 + u32::from(entry).saturating_sub(1) * layout.entry_len as u32
    }
}
