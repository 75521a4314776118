ghost use Rattle.trees.specs.Theorems.{ListsMixed, DividesAll, FewRecords, OneAnswer, SettledTrees};

// The list of mixed blocks has each block with two unlike addresses, and no other, in order of level, then block.
pub fn mixed_blocks_listed()
    ensures { ListsMixed }
{}

// The records divide the mixed blocks, each into halves that mean its own halves.
pub fn records_divide()
    ensures { DividesAll }
{}

// A map of k switches has at most n × k records.
pub fn records_few()
    ensures { FewRecords }
{}

// What is left once pins are fixed has one answer.
pub fn answer_is_one()
    ensures { OneAnswer }
{}

// Trees of the settled examples.
pub fn trees_settle()
    ensures { SettledTrees }
{}
