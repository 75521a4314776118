// What a call has to tell and to leave, by the truth tables alone.
use crate::call::{Call, Told};
use crate::drawing::Drawing;
use crate::held::Held;
use crate::plain::{Change, Plain};
use crate::truth::{Truth, addresses, bit_of};
use faults::fault::{Fault, Ground};
use rows::hand::Hand;
use scripts::request::How;
use std::alloc::{AllocError, Global};

// All grounds on which a call can be refused, the first of them first. Without one it tells this, and leaves this.
#[derive(Drop)]
pub struct Forecast {
    pub faults: Vec<Fault>,
    pub told: Told,
    pub change: Change,
}

impl Forecast {
    fn new(faults: Vec<Fault>, told: Told, change: Change) -> Forecast {
        Forecast {
            faults,
            told,
            change,
        }
    }

    fn refused(faults: Vec<Fault>) -> Forecast {
        Forecast::new(faults, Told::Done, Change::Nothing)
    }

    pub fn answer(&self) -> Result<Told, Fault> {
        match self.faults.first() {
            Some(fault) => Err(*fault),
            None => Ok(self.told),
        }
    }

    // What the call leaves: a refused one leaves all as it was.
    pub fn into_change(self) -> Change {
        if self.faults.is_empty() {
            self.change
        } else {
            Change::Nothing
        }
    }
}

fn note(
    faults: &mut Vec<Fault>,
    holds: bool,
    ground: Ground,
    place: usize,
) -> Result<(), AllocError> {
    if holds {
        faults.push(ground.at(place))?;
    }
    Ok(())
}

fn note_numbers(faults: &mut Vec<Fault>, lines: &[u8]) -> Result<(), AllocError> {
    for line in lines {
        note(faults, *line > 31, Ground::NoLine, usize::from(*line))?;
    }
    Ok(())
}

// Whether parts can still be counted, so that more of them than nodes would be the next ground.
fn is_late(ground: Ground) -> bool {
    matches!(ground, Ground::LineTaken | Ground::TreeTable)
}

impl<'a> Plain<'a> {
    fn note_nodes(&self, faults: &mut Vec<Fault>, lent: Hand) -> Result<(), AllocError> {
        note(
            faults,
            lent.nodes != self.size,
            Ground::NodeTable,
            lent.nodes,
        )
    }

    fn note_tables(&self, faults: &mut Vec<Fault>, lent: Hand) -> Result<(), AllocError> {
        self.note_nodes(faults, lent)?;
        note(faults, lent.work < self.work(), Ground::Work, lent.work)
    }

    fn note_empty(&self, faults: &mut Vec<Fault>, lines: &[u8]) -> Result<(), AllocError> {
        for line in lines {
            let empty = *line < 32 && self.line(*line).is_none();
            note(faults, empty, Ground::LineEmpty, usize::from(*line))?;
        }
        Ok(())
    }

    fn note_taken(&self, faults: &mut Vec<Fault>, line: u8) -> Result<(), AllocError> {
        let taken = self.line(line).is_some();
        note(faults, taken, Ground::LineTaken, usize::from(line))
    }

    // A new line, where nothing but a taken line and a short tree table may be in its way.
    fn grown(
        &self,
        heap: Global,
        mut faults: Vec<Fault>,
        truth: Truth,
        line: u8,
    ) -> Result<Forecast, AllocError> {
        if !faults.iter().all(|fault| is_late(fault.ground)) {
            return Ok(Forecast::refused(faults));
        }
        let held = Held::new(heap, self.order, truth)?;
        let used = self.used_with(heap, &held)?;
        note(&mut faults, used > self.size, Ground::Parts, self.size)?;
        Ok(Forecast::new(faults, Told::Done, Change::Put(line, held)))
    }

    fn draw(
        &self,
        heap: Global,
        drawing: &Drawing,
        line: u8,
        lent: Hand,
    ) -> Result<Forecast, AllocError> {
        let mut faults = Vec::new(heap);
        if let Some(fault) = drawing.layer_fault() {
            faults.push(fault)?;
            return Ok(Forecast::refused(faults));
        }
        let pins = drawing.source_pins() as usize;
        note(&mut faults, pins != self.pins(), Ground::SourcePins, pins)?;
        note_numbers(&mut faults, &[line])?;
        self.note_tables(&mut faults, lent)?;
        self.note_taken(&mut faults, line)?;
        if pins != self.pins() {
            return Ok(Forecast::refused(faults));
        }
        let truth = drawing.truth(heap)?;
        let short = truth.mixed_blocks(pins) > lent.records;
        note(&mut faults, short, Ground::TreeTable, lent.records)?;
        self.grown(heap, faults, truth, line)
    }

    fn join(
        &self,
        heap: Global,
        how: How,
        [left, right]: [u8; 2],
        line: u8,
        lent: Hand,
    ) -> Result<Forecast, AllocError> {
        let mut faults = Vec::new(heap);
        note_numbers(&mut faults, &[left, right, line])?;
        self.note_tables(&mut faults, lent)?;
        self.note_empty(&mut faults, &[left, right])?;
        self.note_taken(&mut faults, line)?;
        for from in [left, right] {
            if let Some(held) = self.line(from) {
                let odd = !held.truth.is_taken_by(how);
                note(&mut faults, odd, Ground::Undecoded, usize::from(from))?;
            }
        }
        match (self.line(left), self.line(right)) {
            (Some(a), Some(b)) => {
                let truth = a.truth.joined(heap, how, &b.truth)?;
                self.grown(heap, faults, truth, line)
            },
            _ => Ok(Forecast::refused(faults)),
        }
    }

    fn strap(
        &self,
        heap: Global,
        from: u8,
        pin: u8,
        high: bool,
        line: u8,
        lent: Hand,
    ) -> Result<Forecast, AllocError> {
        let mut faults = Vec::new(heap);
        note_numbers(&mut faults, &[from, line])?;
        let place = usize::from(pin);
        note(&mut faults, place >= self.pins(), Ground::StrapPin, place)?;
        self.note_tables(&mut faults, lent)?;
        self.note_empty(&mut faults, &[from])?;
        self.note_taken(&mut faults, line)?;
        match self.line(from) {
            Some(held) => {
                let bit = bit_of(self.pins(), pin);
                let truth = held.truth.strapped(heap, bit, high)?;
                self.grown(heap, faults, truth, line)
            },
            None => Ok(Forecast::refused(faults)),
        }
    }

    fn erase(&self, heap: Global, line: u8, lent: Hand) -> Result<Forecast, AllocError> {
        let mut faults = Vec::new(heap);
        note_numbers(&mut faults, &[line])?;
        self.note_tables(&mut faults, lent)?;
        self.note_empty(&mut faults, &[line])?;
        Ok(Forecast::new(faults, Told::Done, Change::Empty(line)))
    }

    pub fn read(
        &self,
        heap: Global,
        line: u8,
        address: u32,
        lent: Hand,
    ) -> Result<Forecast, AllocError> {
        let mut faults = Vec::new(heap);
        let place = address as usize;
        note_numbers(&mut faults, &[line])?;
        let above = place >= addresses(self.pins());
        note(&mut faults, above, Ground::ReadAddress, place)?;
        self.note_nodes(&mut faults, lent)?;
        self.note_empty(&mut faults, &[line])?;
        let code = self.line(line).map_or(0, |held| held.truth.at(place));
        Ok(Forecast::new(faults, Told::Code(code), Change::Nothing))
    }

    fn same(&self, heap: Global, left: u8, right: u8) -> Result<Forecast, AllocError> {
        let mut faults = Vec::new(heap);
        note_numbers(&mut faults, &[left, right])?;
        self.note_empty(&mut faults, &[left, right])?;
        let same = match (self.line(left), self.line(right)) {
            (Some(a), Some(b)) => a.truth.codes.as_slice() == b.truth.codes.as_slice(),
            _ => false,
        };
        Ok(Forecast::new(faults, Told::Same(same), Change::Nothing))
    }

    fn count(&self, heap: Global, line: u8, lent: Hand) -> Result<Forecast, AllocError> {
        let mut faults = Vec::new(heap);
        note_numbers(&mut faults, &[line])?;
        self.note_tables(&mut faults, lent)?;
        self.note_empty(&mut faults, &[line])?;
        let count = self.line(line).map_or(0, |held| held.count);
        let told = Told::Count(u16::try_from(count).unwrap_or(u16::MAX));
        Ok(Forecast::new(faults, told, Change::Nothing))
    }

    // Of a listing of this length.
    pub fn list_faults(
        &self,
        heap: Global,
        lent: Hand,
        length: usize,
        room: usize,
    ) -> Result<Vec<Fault>, AllocError> {
        let mut faults = Vec::new(heap);
        self.note_tables(&mut faults, lent)?;
        note(&mut faults, room < length, Ground::Buffer, length)?;
        Ok(faults)
    }

    pub fn forecast(&self, heap: Global, call: &Call, lent: Hand) -> Result<Forecast, AllocError> {
        match call {
            Call::Draw { drawing, line } => self.draw(heap, drawing, *line, lent),
            Call::Join {
                how,
                left,
                right,
                line,
            } => self.join(heap, *how, [*left, *right], *line, lent),
            Call::Strap {
                from,
                pin,
                high,
                line,
            } => self.strap(heap, *from, *pin, *high, *line, lent),
            Call::Erase { line } => self.erase(heap, *line, lent),
            Call::Read { line, address } => self.read(heap, *line, *address, lent),
            Call::Same { left, right } => self.same(heap, *left, *right),
            Call::Count { line } => self.count(heap, *line, lent),
        }
    }
}
