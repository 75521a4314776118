ghost use Rattle.std.specs.Prelude.{◌≡◌, nat_eq, refl};
ghost use Rattle.std.proofs.Common.{rules};
ghost use Rattle.readers.specs.Selections.{bit_at};
ghost use Rattle.files.specs.declared.format.Format.TheVariants as formats;
ghost use Rattle.readers.specs.Apart.{bit_coded};

use crate::kind::{Kind, Switched};
use crate::map_file::MapFile;
use files::format::Format;

#[derive(Clone, Copy)]
pub struct Bits;

impl Kind for Bits {
    type Of = bool;

    ghost format = { formats.Bits };

    ghost end = { λ c. nat_eq c 1 };

    ghost selection = { bit_at };

    fn format() -> Format {
        Format::Bits
    }

    fn end(code: u8) -> bool {
        code == 1
    }

    ghost means = { λ bs a. refl };

    ghost coded = { bit_coded };

    ghost apart = { Prim.search rules };
}

impl Switched for Bits {}

// A switch file of bits that was accepted.
pub type BitFile<'a> = MapFile<'a, Bits>;
