// The parts of tables whose pins are in order: chunks of a table, each half as long as those of the place before.
use std::alloc::{AllocError, Global};

// The two halves of a chunk, by name. It is a part if they are unlike.
#[derive(Clone, Copy, PartialEq, Eq, PartialOrd, Ord, Debug)]
pub struct Halves {
    pub low: usize,
    pub high: usize,
}

impl Halves {
    pub fn is_part(self) -> bool {
        self.low != self.high
    }
}

// The chunks of one length of some tables. Their halves are written down, each pair once and in rising order, and where
// they stand there is a chunk's name. So equal chunks have equal names, and only these.
#[derive(Drop)]
pub struct Place {
    pub halves: Vec<Halves>,
    pub names: Vec<usize>,
}

impl Place {
    // From the names of the chunks half as long.
    fn over(heap: Global, below: &[usize]) -> Result<Place, AllocError> {
        let (pairs, _) = below.as_chunks::<2>();
        let all = pairs
            .iter()
            .map(|[low, high]| Halves {
                low: *low,
                high: *high,
            })
            .collect::<Vec<Halves>>(heap)?;
        let mut halves = all.clone()?;
        halves.sort_unstable();
        halves.dedup();
        let names = all
            .iter()
            .map(|pair| halves.binary_search(pair).unwrap_or_else(|place| place))
            .collect(heap)?;
        Ok(Place { halves, names })
    }

    // How many different parts there are.
    pub fn parts(&self) -> usize {
        self.halves.iter().filter(|halves| halves.is_part()).count()
    }
}

// The chunks of every place of some tables that stand one behind the other; at the last place a name of a half is its code.
pub fn places(heap: Global, pins: usize, codes: &[u16]) -> Result<Vec<Place>, AllocError> {
    let mut places = Vec::new(heap);
    let mut below = codes
        .iter()
        .map(|code| usize::from(*code))
        .collect::<Vec<usize>>(heap)?;
    for _ in 0..pins {
        let place = Place::over(heap, &below)?;
        below = place.names.clone()?;
        places.push(place)?;
    }
    places.reverse();
    Ok(places)
}

pub fn part_count(places: &[Place]) -> usize {
    let mut count = 0usize;
    for place in places {
        count = count.saturating_add(place.parts());
    }
    count
}

pub fn count_parts(heap: Global, pins: usize, codes: &[u16]) -> Result<usize, AllocError> {
    Ok(part_count(&places(heap, pins, codes)?))
}
