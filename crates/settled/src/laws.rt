// The examples of lines on three nodes, on the plain plan, which the calls are promised to follow.
ghost use Rattle.settled.specs.Lines.{LinesSettle};

pub fn lines_settle()
    ensures { LinesSettle }
{}
