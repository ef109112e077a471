//! Colours: `Colour { r: 1, g: 171, b: 255 }` is displayed as `#01abff`.

ghost use Rattle.std.specs.Prelude.{Some};
ghost use Rattle.html_render_dom_values.specs.Colours.{written_colour};

use std::fmt;

/// Colour with a red, a green and a blue part, each from 0 to 255.
#[derive(Clone, Copy, Debug, PartialEq, Eq)]
pub struct Colour {
    /// Red part.
    pub r: u8,
    /// Green part.
    pub g: u8,
    /// Blue part.
    pub b: u8,
}

/// Displays `#` and two lower-case hexadecimal digits for each part: red, green, blue.
impl fmt::Display for Colour {
    ghost output = { λ c. Some (written_colour c) };

    fn fmt<W: fmt::Write>(&self, f: &mut fmt::Formatter<W>) -> fmt::Result {
        let Colour { r, g, b } = *self;
        write!(f, "#{r:02x}{g:02x}{b:02x}")
    }
}
