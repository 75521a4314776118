ghost use Rattle.std.specs.Prelude.{◌≡◌};
ghost use Rattle.workbench.specs.Handing.{lengths_of};

use crate::desk::Lengths;
use crate::sheet::Sheet;
use plans::work::work_for;

// The lengths of the tree table and of the work that a call is handed: those that were set, or else 20,480 records and
// what the plan asks for, and of each at most what is lent.
pub(crate) fn lengths_of(set: Option<Lengths>, sheet: Sheet, lent: Lengths) -> Lengths
    ensures { result ≡ lengths_of set sheet.pins sheet.nodes lent }
{
    let wanted = set.unwrap_or(Lengths {
        records: 20_480,
        work: work_for(sheet.pins as u8, sheet.nodes as u16),
    });
    Lengths {
        records: wanted.records.min(lent.records),
        work: wanted.work.min(lent.work),
    }
}
