ghost use Rattle.std.specs.Prelude.{◌≡◌, refl};
ghost use Rattle.ends.specs.Codes.{setting_at};
ghost use Rattle.readers.specs.Selections.{chip_at};
ghost use Rattle.readers.specs.Apart.{setting_coded, settings_apart};
ghost use Rattle.files.specs.declared.format.Format.TheVariants as formats;

use crate::kind::{Kind, Switched};
use crate::map_file::MapFile;
use ends::setting::Setting;
use files::format::Format;

#[derive(Clone, Copy)]
pub struct Settings;

impl Kind for Settings {
    type Of = Setting;

    ghost format = { formats.Settings };

    ghost end = { setting_at };

    ghost selection = { chip_at };

    fn format() -> Format {
        Format::Settings
    }

    // Not `Setting::decode`: that refuses codes from 128 up, and `end` gives each code an end.
    fn end(code: u8) -> Setting {
        Setting {
            chip: code / 8 % 16,
            waits: code % 8,
        }
    }

    ghost means = { λ bs a. refl };

    ghost coded = { setting_coded };

    ghost apart = { settings_apart };
}

impl Switched for Settings {}

// A switch file of chip settings that was accepted.
pub type SettingFile<'a> = MapFile<'a, Settings>;
