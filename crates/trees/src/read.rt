ghost use Rattle.std.specs.Prelude.{◌≡◌, ℕ, ◌%◌, ◌^◌, ◌<◌, ◌≤◌};
ghost use Rattle.trees.specs.Left.{Left};
ghost use Rattle.trees.specs.Records.{Built};
ghost use Rattle.trees.specs.Walk.{Stands, agreed, bit, fixed, side};

use crate::tree::{Half, Record, Tree};
use sources::source::MOST_PINS;

// A bit of a number, counted from the lowest.
fn bit(number: u32, place: u32) -> bool
    requires { place < 32 }
    ensures { result ≡ bit number place }
{
    (number >> place) % 2 == 1
}

// Bits of an address that are fixed: those in `mask`, as they are in `value`.
#[derive(Clone, Copy)]
pub struct FixedBits {
    pub mask: u32,
    pub value: u32,
}

impl FixedBits {
    // The bit at a place, if it is fixed.
    fn at(self, place: u32) -> Option<bool>
        requires { place < 32 }
        ensures { result ≡ fixed self.mask self.value place }
    {
        bit(self.mask, place).then_some(bit(self.value, place))
    }
}

impl Record {
    // The half that holds the addresses where the next pin is high, or low.
    fn side(&self, high: bool) -> &Half
        ensures { result.now ≡ side self.now high }
    {
        if high { &self.high } else { &self.low }
    }
}

// The code that both halves leave.
fn agreed(low: u16, high: u16) -> Option<u16>
    ensures { result ≡ agreed low high }
{
    (low == high).then_some(low)
}

// The code at an address of the block that `half` stands for. The block leaves open the last `left` pins.
// Plain recursion over the finished tree, a form that the project asks for; `code_left` with every bit fixed tells as much.
fn code_below(table: &[Record], half: Half, left: u32, address: u32) -> u16
    requires { left ≤ 20 }
    ensures { (n : ℕ) (c : ℕ → ℕ) (j p : ℕ) (f : ℕ → ℕ) → Stands n c table.now j p left half f → result ≡ f (address % 2 ^ left) }
{
    match half {
        Half::Code(code) => code,
        // 0 where an altered table leads nowhere, of which nothing is promised. By `let .. else`: of an option each promise on
        // the way would speak of `Some`.
        Half::Split(i) => {
            let Some(record) = table.get(i) else {
                return 0;
            };
            let Some(below) = left.checked_sub(1) else {
                return 0;
            };
            code_below(table, *record.side(bit(address, below)), below, address)
        }
    }
}

// The one code that is left in the block that `half` stands for, of which the last `left` pins are open.
fn code_left_below(table: &[Record], half: &Half, left: u32, bits: FixedBits) -> Option<u16>
    requires { left ≤ 20 }
    ensures { (n : ℕ) (c : ℕ → ℕ) (j p : ℕ) (f : ℕ → ℕ) → Stands n c table.now j p left half.now f → Left left f bits.mask bits.value result }
{
    match half {
        Half::Code(code) => Some(*code),
        Half::Split(i) => {
            let record = table.get(*i)?;
            let below = left.checked_sub(1)?;
            // The block is mixed: with none of its pins fixed there is no need to walk it.
            if bits.mask % (1 << left) == 0 {
                return None;
            }
            if let Some(high) = bits.at(below) {
                return code_left_below(table, record.side(high), below, bits);
            }
            let low = code_left_below(table, &record.low, below, bits)?;
            let high = code_left_below(table, &record.high, below, bits)?;
            agreed(low, high)
        }
    }
}

// A table that was altered since the build is read without harm, and what is read is then free.
impl Tree {
    // The code at an address; bits above the pins are not read.
    pub fn code_at(self, table: &[Record], address: u32) -> u16
        ensures { (c : ℕ → ℕ) → Built self.pins c table.now self → result ≡ c (address % 2 ^ self.pins) }
    {
        if self.pins > MOST_PINS {
            return 0;
        }
        code_below(table, self.root, self.pins, address)
    }

    // The one code that is left where bits are fixed, or nothing if two are left.
    pub fn code_left(self, table: &[Record], bits: FixedBits) -> Option<u16>
        ensures { (c : ℕ → ℕ) → Built self.pins c table.now self → Left self.pins c bits.mask bits.value result }
    {
        if self.pins > MOST_PINS {
            return None;
        }
        code_left_below(table, &self.root, self.pins, bits)
    }
}
