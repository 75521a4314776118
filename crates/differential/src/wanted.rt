// What must have been seen, so that no ground goes untried, nor the order of two grounds.
use crate::call::Name;
use crate::tally::{Seen, Tally};
use faults::fault::Ground;
use std::process::Abort;
use std::test::Fail;

const OF_DRAWS: [Seen; 15] = [
    Seen::Done(Name::Draw),
    Seen::Refused(Name::Draw, Ground::SourceLayer),
    Seen::Refused(Name::Draw, Ground::SourcePins),
    Seen::Refused(Name::Draw, Ground::NoLine),
    Seen::Refused(Name::Draw, Ground::NodeTable),
    Seen::Refused(Name::Draw, Ground::Work),
    Seen::Refused(Name::Draw, Ground::LineTaken),
    Seen::Refused(Name::Draw, Ground::TreeTable),
    Seen::Refused(Name::Draw, Ground::Parts),
    Seen::Contested(Name::Draw, Ground::SourcePins, Ground::NoLine),
    Seen::Contested(Name::Draw, Ground::NoLine, Ground::NodeTable),
    Seen::Contested(Name::Draw, Ground::NodeTable, Ground::Work),
    Seen::Contested(Name::Draw, Ground::Work, Ground::LineTaken),
    Seen::Contested(Name::Draw, Ground::LineTaken, Ground::TreeTable),
    Seen::Contested(Name::Draw, Ground::TreeTable, Ground::Parts),
];

const OF_JOINS: [Seen; 18] = [
    Seen::Done(Name::Join),
    Seen::Tie,
    Seen::Refused(Name::Join, Ground::NoLine),
    Seen::Refused(Name::Join, Ground::NodeTable),
    Seen::Refused(Name::Join, Ground::Work),
    Seen::Refused(Name::Join, Ground::LineEmpty),
    Seen::Refused(Name::Join, Ground::LineTaken),
    Seen::Refused(Name::Join, Ground::Undecoded),
    Seen::Refused(Name::Join, Ground::Parts),
    Seen::Contested(Name::Join, Ground::NoLine, Ground::NoLine),
    Seen::Contested(Name::Join, Ground::NoLine, Ground::NodeTable),
    Seen::Contested(Name::Join, Ground::NodeTable, Ground::Work),
    Seen::Contested(Name::Join, Ground::Work, Ground::LineEmpty),
    Seen::Contested(Name::Join, Ground::LineEmpty, Ground::LineEmpty),
    Seen::Contested(Name::Join, Ground::LineEmpty, Ground::LineTaken),
    Seen::Contested(Name::Join, Ground::LineTaken, Ground::Undecoded),
    Seen::Contested(Name::Join, Ground::LineTaken, Ground::Parts),
    Seen::Contested(Name::Join, Ground::Undecoded, Ground::Undecoded),
];

const OF_STRAPS: [Seen; 15] = [
    Seen::Done(Name::Strap),
    Seen::Refused(Name::Strap, Ground::NoLine),
    Seen::Refused(Name::Strap, Ground::StrapPin),
    Seen::Refused(Name::Strap, Ground::NodeTable),
    Seen::Refused(Name::Strap, Ground::Work),
    Seen::Refused(Name::Strap, Ground::LineEmpty),
    Seen::Refused(Name::Strap, Ground::LineTaken),
    Seen::Refused(Name::Strap, Ground::Parts),
    Seen::Contested(Name::Strap, Ground::NoLine, Ground::NoLine),
    Seen::Contested(Name::Strap, Ground::NoLine, Ground::StrapPin),
    Seen::Contested(Name::Strap, Ground::StrapPin, Ground::NodeTable),
    Seen::Contested(Name::Strap, Ground::NodeTable, Ground::Work),
    Seen::Contested(Name::Strap, Ground::Work, Ground::LineEmpty),
    Seen::Contested(Name::Strap, Ground::LineEmpty, Ground::LineTaken),
    Seen::Contested(Name::Strap, Ground::LineTaken, Ground::Parts),
];

const OF_ERASURES: [Seen; 8] = [
    Seen::Done(Name::Erase),
    Seen::Refused(Name::Erase, Ground::NoLine),
    Seen::Refused(Name::Erase, Ground::NodeTable),
    Seen::Refused(Name::Erase, Ground::Work),
    Seen::Refused(Name::Erase, Ground::LineEmpty),
    Seen::Contested(Name::Erase, Ground::NoLine, Ground::NodeTable),
    Seen::Contested(Name::Erase, Ground::NodeTable, Ground::Work),
    Seen::Contested(Name::Erase, Ground::Work, Ground::LineEmpty),
];

const OF_QUESTIONS: [Seen; 30] = [
    Seen::Done(Name::Read),
    Seen::Refused(Name::Read, Ground::NoLine),
    Seen::Refused(Name::Read, Ground::ReadAddress),
    Seen::Refused(Name::Read, Ground::NodeTable),
    Seen::Refused(Name::Read, Ground::LineEmpty),
    Seen::Contested(Name::Read, Ground::NoLine, Ground::ReadAddress),
    Seen::Contested(Name::Read, Ground::ReadAddress, Ground::NodeTable),
    Seen::Contested(Name::Read, Ground::NodeTable, Ground::LineEmpty),
    Seen::Done(Name::ReadIssued),
    Seen::Refused(Name::ReadIssued, Ground::NoLine),
    Seen::Refused(Name::ReadIssued, Ground::ReadAddress),
    Seen::Refused(Name::ReadIssued, Ground::NodeTable),
    Seen::Refused(Name::ReadIssued, Ground::LineEmpty),
    Seen::Contested(Name::ReadIssued, Ground::NoLine, Ground::ReadAddress),
    Seen::Contested(Name::ReadIssued, Ground::ReadAddress, Ground::NodeTable),
    Seen::Contested(Name::ReadIssued, Ground::NodeTable, Ground::LineEmpty),
    Seen::Done(Name::Same),
    Seen::Refused(Name::Same, Ground::NoLine),
    Seen::Refused(Name::Same, Ground::LineEmpty),
    Seen::Contested(Name::Same, Ground::NoLine, Ground::NoLine),
    Seen::Contested(Name::Same, Ground::NoLine, Ground::LineEmpty),
    Seen::Contested(Name::Same, Ground::LineEmpty, Ground::LineEmpty),
    Seen::Done(Name::Count),
    Seen::Refused(Name::Count, Ground::NoLine),
    Seen::Refused(Name::Count, Ground::NodeTable),
    Seen::Refused(Name::Count, Ground::Work),
    Seen::Refused(Name::Count, Ground::LineEmpty),
    Seen::Contested(Name::Count, Ground::NoLine, Ground::NodeTable),
    Seen::Contested(Name::Count, Ground::NodeTable, Ground::Work),
    Seen::Contested(Name::Count, Ground::Work, Ground::LineEmpty),
];

const OF_LISTS: [Seen; 7] = [
    Seen::Shared,
    Seen::Done(Name::List),
    Seen::Refused(Name::List, Ground::NodeTable),
    Seen::Refused(Name::List, Ground::Work),
    Seen::Refused(Name::List, Ground::Buffer),
    Seen::Contested(Name::List, Ground::NodeTable, Ground::Work),
    Seen::Contested(Name::List, Ground::Work, Ground::Buffer),
];

pub const OF_MAKINGS: [Seen; 6] = [
    Seen::Done(Name::Make),
    Seen::Refused(Name::Make, Ground::OrderLength),
    Seen::Refused(Name::Make, Ground::OrderPin),
    Seen::Refused(Name::Make, Ground::NodeTable),
    Seen::Contested(Name::Make, Ground::OrderLength, Ground::OrderPin),
    Seen::Contested(Name::Make, Ground::OrderPin, Ground::NodeTable),
];

// All these were seen.
pub fn check_seen(
    rt: &(impl Abort + AllocGlobal),
    tally: &Tally,
    wanted: &[Seen],
) -> Result<(), Fail> {
    for seen in wanted {
        assert!(rt; tally.times(*seen) > 0, "never seen: {seen:?}");
    }
    Ok(())
}

// All that rows of calls can see.
pub fn check_rows_seen(rt: &(impl Abort + AllocGlobal), tally: &Tally) -> Result<(), Fail> {
    check_seen(rt, tally, &OF_DRAWS)?;
    check_seen(rt, tally, &OF_JOINS)?;
    check_seen(rt, tally, &OF_STRAPS)?;
    check_seen(rt, tally, &OF_ERASURES)?;
    check_seen(rt, tally, &OF_QUESTIONS)?;
    check_seen(rt, tally, &OF_LISTS)
}
