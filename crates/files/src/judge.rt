// The first fault of a map file.
ghost use Rattle.std.specs.Prelude.{◌≡◌, ◌≤◌, Some, None, MatchResult};
ghost use Rattle.files.specs.Verdict.{marked, of_kind, header_fault, first_fault, switch_fault, range_fault, entry_fault, fault};
ghost use Rattle.files.specs.declared.format.Format.TheVariants.{Ranges};

use crate::fields::Fields;
use crate::format::Format;
use crate::layout::{FIRST_CODE_AT, KIND_AT, VERSION_AT};
use faults::fault::{Fault, Ground};

impl<'a> Fields<'a> {
    fn has_mark(&self) -> bool
        ensures { result ≡ marked self.now.format self.now.bytes.now }
    {
        self.bytes.starts_with(&self.format.layout().mark)
    }

    fn has_kind(&self) -> bool
        ensures { result ≡ of_kind self.now.format self.now.bytes.now }
    {
        match self.format {
            Format::Bits => self.byte_at(KIND_AT) == 0,
            Format::Settings => self.byte_at(KIND_AT) == 1,
            Format::Ranges => true,
        }
    }

    // The fields before the entries, and the length.
    fn check_header(&self) -> Result<(), Fault>
        ensures { MatchResult result (λ _. header_fault self.now.format self.now.bytes.now ≡ None) (λ f. header_fault self.now.format self.now.bytes.now ≡ Some f) }
    {
        let layout = self.format.layout();
        let len = self.bytes.len();
        if len < layout.header_len {
            return Err(Ground::TooShort.at(len));
        }
        if !self.has_mark() {
            return Err(Ground::Mark.at(0));
        }
        if self.be16(VERSION_AT) != 1 {
            return Err(Ground::Version.at(VERSION_AT as usize));
        }
        if !self.has_kind() {
            return Err(Ground::Kind.at(KIND_AT));
        }
        let pins = self.pin_count();
        if !(1..=20).contains(&pins) {
            return Err(Ground::Pins.at(layout.pins_at));
        }
        let count = self.entry_count();
        if count > 1024 {
            return Err(Ground::Count.at(layout.count_at));
        }
        let full = layout.header_len + usize::from(count) * layout.entry_len;
        if len < full {
            return Err(Ground::TooShort.at(len));
        }
        if len > full {
            return Err(Ground::Trailing.at(full));
        }
        Ok(())
    }

    // Entry 0, the first end.
    fn check_first(&self) -> Result<(), Fault>
        ensures { MatchResult result (λ _. first_fault self.now.format self.now.bytes.now ≡ None) (λ f. first_fault self.now.format self.now.bytes.now ≡ Some f) }
    {
        match self.format {
            Format::Bits | Format::Settings
                if self.byte_at(FIRST_CODE_AT) >= self.format.layout().codes => {
                Err(Ground::NoCode.at(0))
            }
            _ => Ok(()),
        }
    }

    fn check_switch(&self, i: u16) -> Result<(), Fault>
        requires { 1 ≤ i }
        ensures { MatchResult result (λ _. switch_fault self.now.format self.now.bytes.now i ≡ None) (λ f. switch_fault self.now.format self.now.bytes.now i ≡ Some f) }
    {
        let address = self.first_address(i);
        if !self.has_address(address) {
            return Err(Ground::AddressAbove.at(usize::from(i)));
        }
        if address <= self.first_address(i - 1) {
            return Err(Ground::AddressOrder.at(usize::from(i)));
        }
        let code = self.code_after(i);
        if code >= self.format.layout().codes {
            return Err(Ground::NoCode.at(usize::from(i)));
        }
        if code == self.code_after(i - 1) {
            return Err(Ground::SameEnd.at(usize::from(i)));
        }
        Ok(())
    }

    fn check_range(&self, i: u16) -> Result<(), Fault>
        requires { self.now.format ≡ Ranges }
        ensures { MatchResult result (λ _. range_fault self.now.bytes.now i ≡ None) (λ f. range_fault self.now.bytes.now i ≡ Some f) }
    {
        let first = self.first_address(i);
        let last = self.last_address(i);
        if !self.has_address(first) || !self.has_address(last) {
            return Err(Ground::AddressAbove.at(usize::from(i)));
        }
        if last < first {
            return Err(Ground::AddressOrder.at(usize::from(i)));
        }
        if i > 1 && first < self.last_address(i - 1) + 2 {
            return Err(Ground::AddressOrder.at(usize::from(i)));
        }
        Ok(())
    }

    fn check_entry(&self, i: u16) -> Result<(), Fault>
        ensures { MatchResult result (λ _. entry_fault self.now.format self.now.bytes.now i ≡ None) (λ f. entry_fault self.now.format self.now.bytes.now i ≡ Some f) }
    {
        match self.format {
            _ if i == 0 => self.check_first(),
            Format::Bits | Format::Settings => self.check_switch(i),
            Format::Ranges => self.check_range(i),
        }
    }

    // Whether the bytes are a map file of the format, and if not, the first fault.
    pub(crate) fn check(&self) -> Result<(), Fault>
        ensures { MatchResult result (λ _. fault self.now.format self.now.bytes.now ≡ None) (λ f. fault self.now.format self.now.bytes.now ≡ Some f) }
    {
        self.check_header()?;
        for i in 0..self.entry_count() + 1 {
            self.check_entry(i)?;
        }
        Ok(())
    }
}
