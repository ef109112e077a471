//! The words of the program: `WIDTH [plain|rich|bare] [overflow]`.

ghost use Rattle.std.specs.Prelude.{◌≡◌, map, ok_or, string_bytes};
ghost use Rattle.html_render_tree.specs.Words.{preset_of, settings_of, settings_with, width_named};

use super::faults::Fault;

/// A configuration that the program's words can name.
#[derive(Clone, Copy)]
pub enum Preset {
    /// `plain`: with decorations and footnotes.
    Plain,
    /// `rich`: with annotations, which a text doesn't show, and without decorations and footnotes.
    Rich,
    /// `bare`: without annotations, decorations and footnotes.
    Bare,
}

impl Preset {
    /// Returns the preset of a word.
    fn read(word: &str) -> Result<Preset, Fault>
        ensures { result ≡ ok_or (preset_of word.now) Fault.Arguments }
    {
        match word {
            "plain" => Ok(Preset::Plain),
            "rich" => Ok(Preset::Rich),
            "bare" => Ok(Preset::Bare),
            _ => Err(Fault::Arguments),
        }
    }
}

/// Returns the width that a word states, in columns.
fn read_width(word: &str) -> Result<usize, Fault>
    ensures { result ≡ ok_or (width_named word.now) Fault.Arguments }
{
    match word.parse::<usize>() {
        Ok(width) => Ok(width),
        Err(_) => Err(Fault::Arguments),
    }
}

/// Settings that the program's words ask for.
#[derive(Clone, Copy)]
pub struct Settings {
    /// Width in columns.
    pub width: usize,
    /// Configuration.
    pub preset: Preset,
    /// Whether overflow is allowed.
    pub overflow: bool,
}

impl Settings {
    /// Returns the settings of a word for the width and one for the preset.
    fn with(width: &str, preset: &str, overflow: bool) -> Result<Settings, Fault>
        ensures { result ≡ ok_or (settings_with width.now preset.now overflow) Fault.Arguments }
    {
        let preset = Preset::read(preset)?;
        let width = read_width(width)?;
        Ok(Settings {
            width,
            preset,
            overflow,
        })
    }

    /// Returns the settings of the program's words. Without a preset it is `plain`.
    pub fn read(words: &[String]) -> Result<Settings, Fault>
        ensures { result ≡ ok_or (settings_of (map string_bytes words.now)) Fault.Arguments }
    {
        match words {
            [width] => Settings::with(width.as_str(), "plain", false),
            [width, last] if last.as_str() == "overflow" => {
                Settings::with(width.as_str(), "plain", true)
            }
            [width, preset] => Settings::with(width.as_str(), preset.as_str(), false),
            [width, preset, last] if last.as_str() == "overflow" => {
                Settings::with(width.as_str(), preset.as_str(), true)
            }
            _ => Err(Fault::Arguments),
        }
    }
}
