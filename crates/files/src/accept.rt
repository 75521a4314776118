ghost use Rattle.std.specs.Prelude.{◌≡◌, None, MatchResult};
ghost use Rattle.files.specs.Theorems.{Accepted, Refused};
ghost use Rattle.files.specs.Verdict.{accepted, blank, fault};

use crate::fields::Fields;
use crate::format::Format;
use faults::fault::Fault;

// The same bytes, if they are a map file of the format; else the first fault. (Callers have bytes, and no `Fields` yet.)
pub fn accept(bytes: &[u8], format: Format) -> Result<&[u8], Fault>
    ensures { MatchResult result (λ back. Accepted format bytes.now back.now) (λ f. Refused format bytes.now f) }
{
    Fields { bytes, format }.check()?;
    Ok(bytes)
}

fn blank_file(format: Format) -> &'static [u8]
    ensures { result.now ≡ blank format }
{
    match format {
        Format::Bits => b"SWL\0\x01\0\x01\0\0\0",
        Format::Settings => b"SWL\0\x01\x01\x01\0\0\0",
        Format::Ranges => b"RNG\0\x01\x01\0\0",
    }
}

// Bytes that were not accepted are passed over for the smallest map file, so that a reader's bytes are always a map file.
pub fn accepted_or_blank(bytes: &[u8], format: Format) -> &[u8]
    ensures value { result.now ≡ accepted format bytes.now }
    ensures good { fault format result.now ≡ None }
{
    // By `match`, so that the check alone proves what is handed back of accepted bytes.
    match accept(bytes, format) {
        Ok(bytes) => bytes,
        Err(_) => blank_file(format),
    }
}
