ghost use Rattle.std.specs.Prelude.{◌≡◌, ℕ};
ghost use Rattle.files.specs.Meaning.{meaning};

use crate::kind::Kind;
use crate::map_file::MapFile;
use ends::end::End;

// The code of an accepted file's end at each address is the one that the file has there.
pub fn codes_are_the_files_own<K: Kind>(file: &MapFile<K>)
    ensures { (a : ℕ) → K.Of.End.code (K.selection file.now.bytes.now a) ≡ meaning K.format file.now.bytes.now a }
{}
