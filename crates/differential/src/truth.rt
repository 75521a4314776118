// The code of each address, and what layers, joins and straps make of it.
use map_tests::truth::{NO_CODE, joined_code};
use scripts::request::How;
use std::alloc::{AllocError, Global};

// How many addresses so many pins have.
pub fn addresses(pins: usize) -> usize {
    2usize.saturating_pow(u32::try_from(pins).unwrap_or(u32::MAX))
}

// The bit of an address that a pin is; pin 0 is the highest.
pub fn bit_of(pins: usize, pin: u8) -> usize {
    addresses(pins)
        .checked_shr(u32::from(pin).saturating_add(1))
        .unwrap_or(0)
}

// The address at which the pins, in their order, have the bits of this number, the first pin the highest.
fn address_of(order: &[u8], values: usize) -> usize {
    let mut address = 0;
    let mut left = values;
    for pin in order.iter().rev() {
        if left % 2 == 1 {
            address |= bit_of(order.len(), *pin);
        }
        left /= 2;
    }
    address
}

fn is_mixed(block: &[u16]) -> bool {
    block.first() != block.last() || block.array_windows::<2>().any(|[a, b]| a != b)
}

#[derive(Drop)]
pub struct Truth {
    pub codes: Vec<u16>,
}

impl Truth {
    pub fn at(&self, address: usize) -> u16 {
        self.codes.get(address).copied().unwrap_or(NO_CODE)
    }

    // The other bit at each address.
    pub fn inverted(&self, heap: Global) -> Result<Truth, AllocError> {
        let codes = self.codes.iter().map(|code| *code ^ 1).collect(heap)?;
        Ok(Truth { codes })
    }

    // Each address has the code that was at the address with the pins of the mask turned over.
    pub fn flipped(&self, heap: Global, mask: usize) -> Result<Truth, AllocError> {
        let codes = (0..self.codes.len())
            .map(|address| self.at(address ^ mask))
            .collect(heap)?;
        Ok(Truth { codes })
    }

    // The table at a base in more pins, and the fill everywhere else.
    pub fn mounted(
        &self,
        heap: Global,
        pins: usize,
        base: usize,
        fill: u16,
    ) -> Result<Truth, AllocError> {
        let mut codes = Vec::new(heap);
        for address in 0..addresses(pins) {
            let own = self.codes.len();
            let inside = address.checked_div(own) == Some(base);
            let below = address.checked_rem(own).unwrap_or(0);
            codes.push(if inside { self.at(below) } else { fill })?;
        }
        Ok(Truth { codes })
    }

    pub fn strapped(&self, heap: Global, bit: usize, high: bool) -> Result<Truth, AllocError> {
        let codes = (0..self.codes.len())
            .map(|address| {
                let set = address | bit;
                self.at(if high { set } else { set ^ bit })
            })
            .collect(heap)?;
        Ok(Truth { codes })
    }

    pub fn joined(&self, heap: Global, how: How, right: &Truth) -> Result<Truth, AllocError> {
        let codes = self
            .codes
            .iter()
            .zip(right.codes.iter())
            .map(|(left, right)| joined_code(how, *left, *right))
            .collect(heap)?;
        Ok(Truth { codes })
    }

    // Whether an overlay of the two is settled by the left side alone somewhere: two chips, and the same waits.
    pub fn ties_with(&self, right: &Truth) -> bool {
        self.codes
            .iter()
            .zip(right.codes.iter())
            .any(|(l, r)| *l > 7 && *r > 7 && l != r && *l % 8 == *r % 8)
    }

    // Whether a joining takes every code.
    pub fn is_taken_by(&self, how: How) -> bool {
        let codes = match how {
            How::Both | How::Either | How::Differ => 2,
            How::Overlay => 128,
        };
        self.codes.iter().all(|code| *code < codes)
    }

    // How many blocks of addresses have unlike codes.
    pub fn mixed_blocks(&self, pins: usize) -> usize {
        let mut count = 0usize;
        for free in 1..=pins {
            let length = addresses(free).max(1);
            let mixed = self.codes.chunks(length).filter(|b| is_mixed(b)).count();
            count = count.saturating_add(mixed);
        }
        count
    }

    // The codes with the pins in another order, the first of them the highest bit.
    pub fn in_order(&self, heap: Global, order: &[u8]) -> Result<Vec<u16>, AllocError> {
        (0..self.codes.len())
            .map(|values| self.at(address_of(order, values)))
            .collect(heap)
    }
}
