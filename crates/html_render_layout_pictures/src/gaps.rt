//! Repeated characters: the spaces that pad lines, and the borders of tables. Up to `CHUNK` are written at once.

ghost use Rattle.std.specs.Prelude.{◌≡◌, ◌≤◌, ◌<◌, ◌++◌, ◌∷◌, [], cond, OnOk, replicate};
ghost use Rattle.std.specs.Str.{chars, encode_utf8_all};
ghost use Rattle.html_render_layout_lines.specs.TaggedText.{counted};
ghost use Rattle.html_render_layout_buffer.specs.Padding.{repeated};
ghost use Rattle.html_render_layout_pictures.specs.Fillers.{character_of};
ghost use Rattle.html_render_layout_pictures.specs.Picture as definition;

pub use crate::borders::CHUNK;
use crate::borders::{BORDERS, LINES, LINES_ABOVE, LINES_BELOW, LINES_CROSS, SLASHES};
use html_render_layout_buffer::buffer::LineBuffer;
use html_render_layout_buffer::finished::FinishedLines;
use html_render_layout_lines::tag::Tag;
use std::alloc::AllocError;

/// A repeated character of one column.
#[derive(Clone, Copy)]
pub enum Filler {
    /// A space.
    Space,
    /// A slash, for the line between two stacked cells of a row.
    Slash,
    /// The horizontal border character.
    Dash,
}

/// `CHUNK` spaces.
const SPACES: &str =
    "                                                                                                                                ";

/// Returns the first `count` characters of a text that consists of `CHUNK` times `character`.
fn first_of(text: &'static str, character: char, count: usize) -> &'static str
    requires text { text.now ≡ encode_utf8_all (replicate CHUNK character) }
    requires few { count ≤ CHUNK }
    ensures { chars result.now ≡ replicate count character }
{
    &text[..count * character.len_utf8()]
}

/// Returns `count` spaces, without an allocation.
pub fn few_spaces(count: usize) -> &'static str
    requires { count ≤ CHUNK }
    ensures { chars result.now ≡ replicate count 0x20 }
{
    first_of(SPACES, ' ', count)
}

/// `CHUNK - 1` spaces and a separator.
const GAP: &str =
    "                                                                                                                               │";

/// Returns the last `few + 1` characters of a text that consists of `CHUNK - 1` times `character` and `last`.
#[inline(always)]
fn last_of(text: &'static str, character: char, last: char, few: usize) -> &'static str
    requires text { text.now ≡ encode_utf8_all (replicate 127 character ++ last ∷ []) }
    requires few { few < CHUNK }
    ensures { chars result.now ≡ replicate few character ++ last ∷ [] }
{
    &text[(CHUNK - 1 - few) * character.len_utf8()..]
}

/// Returns the separator between two cells. Without borders it is a space.
#[inline]
fn separator(borders: bool) -> char
    ensures { result ≡ cond borders BORDERS.separator 0x20 }
{
    if borders { BORDERS.separator } else { ' ' }
}

/// Returns `CHUNK - 1` spaces and the separator between two cells, without an allocation.
#[inline]
pub(crate) fn long_gap(borders: bool) -> &'static str
    ensures { result.now ≡ encode_utf8_all (replicate 127 0x20 ++ cond borders BORDERS.separator 0x20 ∷ []) }
{
    if borders { GAP } else { SPACES }
}

/// Returns the last `few` spaces of a long gap and the separator.
#[inline(always)]
pub(crate) fn end_of_gap(gap: &'static str, borders: bool, few: usize) -> &'static str
    requires gap { gap.now ≡ encode_utf8_all (replicate 127 0x20 ++ cond borders BORDERS.separator 0x20 ∷ []) }
    requires few { few < CHUNK }
    ensures { chars result.now ≡ replicate few 0x20 ++ cond borders BORDERS.separator 0x20 ∷ [] }
{
    last_of(gap, ' ', separator(borders), few)
}

/// Returns `few` spaces and the separator between two cells, without an allocation. Without borders it is another space.
#[tactic(auto, using(crate::proofs::LawSets::gaps))]
pub(crate) fn gap(borders: bool, few: usize) -> &'static str
    requires { few < CHUNK }
    ensures { chars result.now ≡ replicate few 0x20 ++ cond borders BORDERS.separator 0x20 ∷ [] }
{
    if borders {
        last_of(GAP, ' ', BORDERS.separator, few)
    } else {
        few_spaces(few + 1)
    }
}

/// Returns `few` horizontal border characters and the one of the next column, without an allocation. `above` and `below` say
/// whether the adjacent rows have a separator there.
#[tactic(auto, using(crate::proofs::LawSets::gaps))]
pub(crate) fn joint(above: bool, below: bool, few: usize) -> &'static str
    requires { few < CHUNK }
    ensures { chars result.now ≡ replicate few BORDERS.line ++ definition.joint above below ∷ [] }
{
    match (above, below) {
        (true, true) => last_of(LINES_CROSS, BORDERS.line, BORDERS.cross, few),
        (true, false) => last_of(LINES_ABOVE, BORDERS.line, BORDERS.above, few),
        (false, true) => last_of(LINES_BELOW, BORDERS.line, BORDERS.below, few),
        (false, false) => first_of(LINES, BORDERS.line, few + 1),
    }
}

/// Returns `count` times the character of `filler`, without an allocation.
fn few(filler: Filler, count: usize) -> &'static str
    requires { count ≤ CHUNK }
    ensures { chars result.now ≡ replicate count (character_of filler) }
{
    match filler {
        Filler::Space => few_spaces(count),
        Filler::Slash => first_of(SLASHES, BORDERS.slash, count),
        Filler::Dash => first_of(LINES, BORDERS.line, count),
    }
}

/// Appends the character of `filler` `count` times to the open line of a buffer, under a tag. Most calls have none to append.
///
/// # Errors
///
/// `AllocError` if an allocation is refused. The buffer then has no lines.
#[inline(always)]
#[tactic(auto, using(crate::specs::laws::Fillers::fillers_width, crate::specs::laws::Fillers::fillers_parted))]
pub fn push_fillers<T: Tag, M: Copy>(
    to: &mut LineBuffer<T, M>,
    filler: Filler,
    count: usize,
    tag: T,
) -> Result<(), AllocError>
    ensures { OnOk result (to.new ≡ record { lines = to.old.lines; line = to.old.line ++ repeated tag (character_of filler) count }) }
{
    if count == 0 {
        return Ok(());
    }
    push_some_fillers(to, filler, count, tag)
}

/// Appends the character of `filler` `count` times to the open line of a buffer, under a tag.
///
/// # Errors
///
/// `AllocError` if an allocation is refused. The buffer then has no lines.
#[inline(never)]
#[tactic(auto, using(crate::specs::laws::Fillers::fillers_width, crate::specs::laws::Fillers::fillers_parted))]
fn push_some_fillers<T: Tag, M: Copy>(
    to: &mut LineBuffer<T, M>,
    filler: Filler,
    count: usize,
    tag: T,
) -> Result<(), AllocError>
    ensures { OnOk result (to.new ≡ record { lines = to.old.lines; line = to.old.line ++ repeated tag (character_of filler) count }) }
{
    let mut left = count;
    while left > 0 {
        let next = left.min(CHUNK);
        to.push_str(few(filler, next), next, tag)?;
        left -= next;
    }
    Ok(())
}

/// Returns a number of columns that is known.
fn known(columns: usize) -> Option<usize>
    ensures { result ≡ counted columns }
{
    Some(columns)
}

/// Appends a line of `count` times the character of `filler`, under a tag.
///
/// # Errors
///
/// `AllocError` if an allocation is refused. Lines may be lost.
#[tactic(auto, using(crate::specs::laws::Fillers::fillers_width, crate::specs::laws::Fillers::fillers_under))]
pub fn push_filler_line<T: Tag, M: Copy>(
    to: &mut FinishedLines<T, M>,
    filler: Filler,
    count: usize,
    tag: T,
) -> Result<(), AllocError>
    requires { count ≤ CHUNK }
    ensures { OnOk result (to.new ≡ to.old ++ repeated tag (character_of filler) count ∷ []) }
{
    to.push_text_line(few(filler, count), known(count), tag)
}
