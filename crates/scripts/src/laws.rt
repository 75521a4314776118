ghost use Rattle.scripts.specs.Examples.{LinesSettle};

// What the grammar makes of some lines.
pub fn lines_settle()
    ensures { LinesSettle }
{}
