ghost use Rattle.std.specs.Prelude.{◌≡◌, ℕ, ◌<◌, List, Some};
ghost use Rattle.files.specs.Formats.{code_limit};
ghost use Rattle.files.specs.Meaning.{meaning};
ghost use Rattle.files.specs.declared.format.Format.{Format};

use ends::end::End;
use files::format::Format;

// A kind of map file: its format, and the ends that its codes stand for.
pub trait Kind {
    type Of: End;

    ghost format: { Format };

    ghost end: { ℕ → Self.Of };

    // The end of each address, as the bytes mean it.
    ghost selection: { List ℕ → ℕ → Self.Of };

    fn format() -> Format
        ensures { result ≡ format };

    fn end(code: u8) -> Self::Of
        ensures { result ≡ end code };

    ghost means: { (bs : List ℕ) (a : ℕ) → selection bs a ≡ end (meaning format bs a) };

    // A code of the format is the code of the end that it stands for.
    ghost coded: { (c : ℕ) → c < code_limit format → Self.Of.End.decoded c ≡ Some (end c) };

    // Two codes of the format are not one end.
    ghost apart: { (c d : ℕ) → c < code_limit format → d < code_limit format → end c ≡ end d → c ≡ d };
}

// A kind whose entries are switches.
pub trait Switched: Kind {}
