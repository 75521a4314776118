ghost use Rattle.std.specs.Prelude.{◌≡◌, nat_eq};
ghost use Rattle.std.proofs.Common.{rules};
ghost use Rattle.files.specs.Formats.{count_of};
ghost use Rattle.readers.specs.Entries.{range_of};
ghost use Rattle.readers.specs.Selections.{inside_at};
ghost use Rattle.readers.specs.Apart.{bit_coded, inside_means};
ghost use Rattle.files.specs.declared.format.Format.TheVariants as formats;

use crate::entry::Range;
use crate::kind::Kind;
use crate::map_file::MapFile;
use files::format::Format;

#[derive(Clone, Copy)]
pub struct Ranges;

impl Kind for Ranges {
    type Of = bool;

    ghost format = { formats.Ranges };

    ghost end = { λ c. nat_eq c 1 };

    ghost selection = { inside_at };

    fn format() -> Format {
        Format::Ranges
    }

    // One line, as of bits: a common trait of the two kinds would be longer.
    fn end(code: u8) -> bool {
        code == 1
    }

    ghost means = { inside_means };

    ghost coded = { bit_coded };

    ghost apart = { Prim.search rules };
}

// A range file that was accepted.
pub type RangeFile<'a> = MapFile<'a, Ranges>;

impl<'a> MapFile<'a, Ranges> {
    // How many ranges there are; the first is range 1.
    pub fn ranges(&self) -> u16
        ensures { result ≡ count_of formats.Ranges self.now.bytes.now }
    {
        self.fields().entry_count()
    }

    pub fn range(&self, i: u16) -> Option<Range>
        ensures { result ≡ range_of self.now.bytes.now i }
    {
        if !(1..=self.ranges()).contains(&i) {
            return None;
        }
        Some(Range {
            first: self.fields().first_address(i),
            last: self.fields().last_address(i),
        })
    }
}
