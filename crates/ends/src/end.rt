ghost use Rattle.std.specs.Prelude.{◌≡◌, ℕ, ◌≤◌, Some, Option as Maybe};
ghost use Rattle.std.proofs.Common.{rules};
ghost use Rattle.ends.specs.Codes.{bit_code, bit_of, setting_code, setting_of};
ghost use Rattle.ends.specs.Same.{setting_back};

use crate::setting::Setting;

// An end kind gives each of its ends a code, and decodes just these codes.
pub trait End: Copy {
    ghost code: { Self → ℕ };

    ghost decoded: { ℕ → Maybe Self };

    fn encode(self) -> u16
        ensures { result ≡ code self };

    fn decode(n: u16) -> Option<Self>
        ensures { result ≡ decoded n };

    ghost small: { (e : Self) → code e ≤ 65535 };

    ghost back: { (e : Self) → decoded (code e) ≡ Some e };

    ghost only: { (n : ℕ) (e : Self) → decoded n ≡ Some e → code e ≡ n };
}

impl End for bool {
    ghost code = { bit_code };

    ghost decoded = { bit_of };

    ghost small = { Prim.search rules };

    ghost back = { Prim.search rules };

    ghost only = { Prim.search rules };

    fn encode(self) -> u16 {
        u16::from(self)
    }

    fn decode(n: u16) -> Option<bool> {
        match n {
            0 => Some(false),
            1 => Some(true),
            _ => None,
        }
    }
}

impl End for Setting {
    ghost code = { setting_code };

    ghost decoded = { setting_of };

    ghost small = { Prim.search rules };

    ghost back = { setting_back };

    ghost only = { Prim.search rules };

    fn encode(self) -> u16 {
        u16::from(self.chip) * 8 + u16::from(self.waits)
    }

    fn decode(n: u16) -> Option<Setting> {
        if n < 128 {
            Some(Setting {
                chip: (n / 8) as u8,
                waits: (n % 8) as u8,
            })
        } else {
            None
        }
    }
}
