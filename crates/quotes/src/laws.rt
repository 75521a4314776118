ghost use Rattle.std.specs.Prelude.{◌*◌, ◌≤◌, length};
ghost use Rattle.files.specs.Formats.{pins_of};
ghost use Rattle.readers.specs.Changes.{change_count};
ghost use Rattle.trees.specs.Mixed.{codes};
ghost use Rattle.trees.specs.Records.{records};

use ends::end::End;
use readers::kind::Kind;
use readers::map_file::MapFile;

// The map of a file needs at most a tree record for each pin and each change of the end: a switch is one, a range two.
pub fn records_of_a_file_are_few<K: Kind>(file: &MapFile<K>)
    ensures { length (records (pins_of K.format file.now.bytes.now) (codes K.Of.End.code (K.selection file.now.bytes.now))) ≤ pins_of K.format file.now.bytes.now * change_count K.format file.now.bytes.now }
{}
