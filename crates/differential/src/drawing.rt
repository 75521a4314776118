// A map with layers over it: its file, and its truth table.
use crate::truth::{Truth, addresses};
use faults::fault::{Fault, Ground};
use map_tests::building::{bit_map_from, range_map, setting_map};
use std::alloc::{AllocError, Global};

#[derive(Drop, Debug)]
pub enum Map {
    Bits {
        first: u8,
        switches: Vec<u32>,
        inverted: bool,
    },
    Settings {
        first: u8,
        switches: Vec<(u32, u8)>,
    },
    Ranges {
        ranges: Vec<(u32, u32)>,
        inverted: bool,
    },
}

#[derive(Clone, Copy, Debug)]
pub struct Mount {
    pub pins: u32,
    pub base: u32,
    pub fill: u8,
}

// A map of so many pins. First it is inverted, then flipped, then mounted, then flipped once more.
#[derive(Drop, Debug)]
pub struct Drawing {
    pub pins: u8,
    pub map: Map,
    pub flipped: Option<u32>,
    pub mounted: Option<Mount>,
    pub turned: Option<u32>,
}

impl Map {
    pub fn bytes(&self, heap: Global, pins: u8) -> Result<Vec<u8>, AllocError> {
        match self {
            Map::Bits {
                first,
                switches,
                ..
            } => bit_map_from(heap, pins, *first, switches),
            Map::Settings { first, switches } => setting_map(heap, pins, *first, switches),
            Map::Ranges { ranges, .. } => range_map(heap, pins, ranges),
        }
    }

    fn is_inverted(&self) -> bool {
        match self {
            Map::Bits { inverted, .. } | Map::Ranges { inverted, .. } => *inverted,
            Map::Settings { .. } => false,
        }
    }

    // Without the inversion.
    fn truth(&self, heap: Global, pins: u8) -> Result<Truth, AllocError> {
        let length = addresses(usize::from(pins));
        let mut codes = match self {
            Map::Bits { first, .. } | Map::Settings { first, .. } => {
                vec![in heap; u16::from(*first); length]?
            },
            Map::Ranges { .. } => vec![in heap; 0; length]?,
        };
        match self {
            Map::Bits { switches, .. } => {
                for address in switches {
                    for code in codes.iter_mut().skip(*address as usize) {
                        *code ^= 1;
                    }
                }
            },
            Map::Settings { switches, .. } => {
                for (address, end) in switches {
                    for code in codes.iter_mut().skip(*address as usize) {
                        *code = u16::from(*end);
                    }
                }
            },
            Map::Ranges { ranges, .. } => {
                for (first, last) in ranges {
                    let behind = (*last as usize).saturating_add(1);
                    for code in codes.iter_mut().take(behind).skip(*first as usize) {
                        *code = 1;
                    }
                }
            },
        }
        Ok(Truth { codes })
    }
}

fn power(pins: u32) -> u32 {
    2u32.saturating_pow(pins)
}

fn refused(place: u32) -> Option<Fault> {
    Some(Ground::SourceLayer.at(place as usize))
}

// A mask over so many pins.
fn flip_fault(flipped: Option<u32>, pins: u32) -> Option<Fault> {
    match flipped {
        Some(mask) if mask >= power(pins) => refused(mask),
        _ => None,
    }
}

// A mount of a source of so many pins.
fn mount_fault(mounted: Option<Mount>, own: u32) -> Option<Fault> {
    match mounted {
        Some(mount) if own > mount.pins || mount.pins > 20 => refused(mount.pins),
        Some(mount) if mount.base >= power(mount.pins.saturating_sub(own)) => refused(mount.base),
        _ => None,
    }
}

impl Drawing {
    // The pins once it is mounted.
    pub fn source_pins(&self) -> u32 {
        match self.mounted {
            Some(mount) => mount.pins,
            None => u32::from(self.pins),
        }
    }

    // Why the first layer is refused that is.
    pub fn layer_fault(&self) -> Option<Fault> {
        let own = u32::from(self.pins);
        flip_fault(self.flipped, own)
            .or(mount_fault(self.mounted, own))
            .or(flip_fault(self.turned, self.source_pins()))
    }

    // The truth table, where no layer is refused.
    pub fn truth(&self, heap: Global) -> Result<Truth, AllocError> {
        let mut truth = self.map.truth(heap, self.pins)?;
        if self.map.is_inverted() {
            truth = truth.inverted(heap)?;
        }
        if let Some(mask) = self.flipped {
            truth = truth.flipped(heap, mask as usize)?;
        }
        if let Some(mount) = self.mounted {
            truth = truth.mounted(
                heap,
                mount.pins as usize,
                mount.base as usize,
                u16::from(mount.fill),
            )?;
        }
        if let Some(mask) = self.turned {
            truth = truth.flipped(heap, mask as usize)?;
        }
        Ok(truth)
    }
}
