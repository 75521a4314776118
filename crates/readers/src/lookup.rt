// Codes of addresses and blocks, looked up in accepted bytes of any kind.
ghost use Rattle.std.specs.Prelude.{◌≡◌, ◌+◌, ◌-◌, ◌*◌, ◌^◌, ◌≤◌, ◌&&◌, nat_le, nat_lt};
ghost use Rattle.sources.specs.Blocks.{Says, Inside};
ghost use Rattle.files.specs.Formats.{pins_of, code_of};
ghost use Rattle.files.specs.Meaning.{last_at, meaning};
ghost use Rattle.readers.specs.Changes.{change_at, change_count};

use crate::kind::Kind;
use crate::map_file::MapFile;
use files::fields::Fields;
use files::format::Format;
use sources::block::Block;
use sources::source::Answer;

impl<'a, K: Kind> MapFile<'a, K> {
    pub(crate) fn fields(&self) -> Fields<'a>
        ensures bytes { result.bytes.now ≡ self.now.bytes.now }
        ensures format { result.format ≡ K.format }
    {
        Fields {
            bytes: self.bytes,
            format: K::format(),
        }
    }

    pub(crate) fn pin_count(&self) -> u32
        ensures { result ≡ pins_of K.format self.now.bytes.now }
    {
        u32::from(self.fields().pin_count())
    }

    fn code_after(&self, changes: u16) -> u8
        ensures { result ≡ code_of K.format self.now.bytes.now changes }
    {
        self.fields().code_after(changes)
    }

    fn changes(&self) -> u16
        ensures { result ≡ change_count K.format self.now.bytes.now }
    {
        let entries = self.fields().entry_count();
        match K::format() {
            Format::Bits | Format::Settings => entries,
            Format::Ranges => 2 * entries,
        }
    }

    // The address of a change: of a switch, of a range's begin, or past a range's end.
    fn change(&self, i: u16) -> u32
        requires { i ≤ change_count K.format self.now.bytes.now }
        ensures { result ≡ change_at K.format self.now.bytes.now i }
    {
        let fields = self.fields();
        match K::format() {
            Format::Bits | Format::Settings => fields.first_address(i),
            Format::Ranges if i == 0 => 0,
            Format::Ranges if i % 2 == 1 => fields.first_address((i + 1) / 2),
            Format::Ranges => fields.last_address(i / 2) + 1,
        }
    }

    // The last change at or below an address, by halving: the changes stand in the bytes and are no slice to search.
    fn last_change(&self, address: u32) -> u16
        ensures { result ≡ last_at (change_at K.format self.now.bytes.now) address (change_count K.format self.now.bytes.now) }
    {
        let mut low = 0u16;
        let mut high = self.changes() + 1;
        while low + 1 < high {
            let middle = low + (high - low) / 2;
            if self.change(middle) <= address {
                low = middle;
            } else {
                high = middle;
            }
        }
        low
    }

    pub(crate) fn code_at(&self, address: u32) -> u8
        ensures { result ≡ meaning K.format self.now.bytes.now address }
    {
        self.code_after(self.last_change(address))
    }

    // Whether the next change after `i` stands at or below an address.
    fn changes_by(&self, i: u16, address: u32) -> bool
        ensures { result ≡ (nat_lt i (change_count K.format self.now.bytes.now) && nat_le (change_at K.format self.now.bytes.now (i + 1)) address) }
    {
        i < self.changes() && self.change(i + 1) <= address
    }

    // The first and the last address of a block.
    fn span(&self, block: Block) -> (u32, u32)
        requires { Inside (pins_of K.format self.now.bytes.now) block.level block.number }
        ensures { (result.0 ≡ block.number * 2 ^ (pins_of K.format self.now.bytes.now - block.level)) × (result.1 ≡ block.number * 2 ^ (pins_of K.format self.now.bytes.now - block.level) + (2 ^ (pins_of K.format self.now.bytes.now - block.level) - 1)) }
    {
        let size = 1 << (self.pin_count() - block.level);
        let first = block.number * size;
        (first, first + (size - 1))
    }

    // What is true of a block, in codes.
    pub(crate) fn ask_codes(&self, block: Block) -> Answer<u8>
        ensures { Says (pins_of K.format self.now.bytes.now) (meaning K.format self.now.bytes.now) block.level block.number result }
    {
        if !block.is_in(self.pin_count()) {
            return Answer::Outside;
        }
        let (first, last) = self.span(block);
        let i = self.last_change(first);
        if self.changes_by(i, last) {
            Answer::Mixed
        } else {
            Answer::All(self.code_after(i))
        }
    }
}
