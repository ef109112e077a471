//! Characters of table borders: one value, for code and definitions.
//!
//! A row of the cells `a` and `b` above a row of one cell `cd`, three columns wide, is drawn as the lines `─┬─`, `a│b`,
//! `─┴─`, `cd ` and `───`.

/// Characters that draw the borders of tables and separate their cells. In `BORDERS`, each takes one column.
#[derive(Clone, Copy)]
pub struct Borders {
    /// Border character with a separator above and below it.
    pub cross: char,
    /// Border character with a separator above it only.
    pub above: char,
    /// Border character with a separator below it only.
    pub below: char,
    /// Border character with no separator above or below it. The borders of a stacked table consist of it.
    pub line: char,
    /// Separator between cells side by side.
    pub separator: char,
    /// Character of the line between two stacked cells of a row.
    pub slash: char,
}

/// Border characters of all tables.
pub const BORDERS: Borders = Borders {
    cross: '┼',
    above: '┴',
    below: '┬',
    line: '─',
    separator: '│',
    slash: '/',
};

/// Maximum number of equal characters that are written at once.
pub const CHUNK: usize = 128;

/// `CHUNK` horizontal border characters.
pub const LINES: &str =
    "────────────────────────────────────────────────────────────────────────────────────────────────────────────────────────────────";

/// `CHUNK - 1` horizontal border characters and one with a separator above and below it.
pub const LINES_CROSS: &str =
    "───────────────────────────────────────────────────────────────────────────────────────────────────────────────────────────────┼";

/// `CHUNK - 1` horizontal border characters and one with a separator above it only.
pub const LINES_ABOVE: &str =
    "───────────────────────────────────────────────────────────────────────────────────────────────────────────────────────────────┴";

/// `CHUNK - 1` horizontal border characters and one with a separator below it only.
pub const LINES_BELOW: &str =
    "───────────────────────────────────────────────────────────────────────────────────────────────────────────────────────────────┬";

/// `CHUNK` slashes.
pub const SLASHES: &str =
    "////////////////////////////////////////////////////////////////////////////////////////////////////////////////////////////////";
