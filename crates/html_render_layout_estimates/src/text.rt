//! Columns of texts, counted no further than needed.
//!
//! `size_within(" Hello  wide\n", 80)` is 11: the white space at the start counts 1, and so does that between the words.

ghost use Rattle.std.specs.Prelude.{◌≡◌, ◌+◌, Bool, if◌then◌else◌, [], ◌∷◌, ◌<◌, ◌≤◌, drop, length, min, true, false, IfOk, IfErr, IfNone, IfSome, MatchOption, IsTrue};
ghost use Rattle.std.specs.Bool.{OnTrue};
ghost use Rattle.std.specs.List.{AllWithin};
ghost use Rattle.std.specs.Str.{chars, IsUtf8};
ghost use Rattle.html_render_layout_lines.specs.Character.{is_collapsible, width_of};
ghost use Rattle.html_render_layout_lines.specs.TaggedText.{text_columns};
ghost use Rattle.html_render_layout_estimates.specs.TextSize.{size_of, inner_columns, collapsed_columns, saturated, IsPlainBetween};
ghost use Rattle.html_render_layout_estimates.specs.Words.{word_break, joined_shapes};
ghost use Rattle.html_render_layout_estimates.specs.WordSteps.{shape_after};
ghost use Rattle.html_render_layout_estimates.specs.declared.words.WordShape.{WordShape};
ghost use Rattle.html_render_layout_estimates.specs.declared.words.WordShape.TheVariants.{Part};

use html_render_layout_lines::character::{is_collapsible, width_of};
use std::simd::prelude::*;

/// Returns the columns of a text with all its white space, at most `usize::MAX`.
pub fn columns(text: &str) -> usize
    ensures { result ≡ saturated (text_columns (chars text.now)) }
{
    let mut columns: usize = 0;
    for c in text.chars() {
        columns = columns.saturating_add(width_of(c));
    }
    columns
}

/// Returns the lesser of a text's preferred width and `limit`. For a limit of a few columns, reads no further than the word that
/// reaches it.
///
/// White space at the text's end doesn't count. Each run of white space in it counts 1, and so does white space at its start
/// if the rest has any column.
pub fn size_within(text: &str, limit: usize) -> usize
    ensures { result ≡ min (size_of (chars text.now)) limit }
{
    match size_by_bytes(text.as_bytes(), limit) {
        Ok(size) => size,
        Err(counted) => match counted.rest_of(text) {
            Some(rest) => columns_within(rest, counted.columns, counted.spaced, limit),
            None => any_size_within(text, limit),
        },
    }
}

/// Returns a text's preferred width, at most `usize::MAX`.
pub fn size(text: &str) -> usize
    ensures { result ≡ saturated (size_of (chars text.now)) }
{
    size_within(text, usize::MAX)
}

/// Number of bytes that are tested at once.
const LANES: usize = 8;

/// Reports whether each of `LANES` bytes from `at` on is printable ASCII, and no space after another space.
#[inline(always)]
fn is_plain_block(text: &[u8], at: usize) -> bool
    requires { (0 < at) × (at + LANES ≤ length text.now) }
    ensures { IsTrue result → IsPlainBetween text.now at (at + LANES) }
{
    let space = u8x8::splat(b' ');
    let block = u8x8::from_slice(&text[at..]);
    let before = u8x8::from_slice(&text[at - 1..]);
    let others = block.simd_lt(space) | block.simd_gt(u8x8::splat(b'~'));
    let doubled = block.simd_eq(space) & before.simd_eq(space);
    (others | doubled).to_bitmask() == 0
}

/// First byte of the letters from U+00C0 to U+00FF.
const LATIN: u8 = 0xC3;

/// Counts of a text before its first byte that isn't of printable ASCII, a newline or a letter from U+00C0 to U+00FF.
#[derive(Clone, Copy)]
struct Counted {
    /// Index of that byte.
    at: usize,
    /// Columns before it.
    columns: usize,
    /// Whether white space follows these columns.
    spaced: bool,
}

impl Counted {
    /// Returns the text from `at` on; `None` if no column was counted before it.
    #[inline]
    fn rest_of<'a>(&self, text: &'a str) -> Option<&'a str>
        ensures some { IfSome result (λ rest. 1 ≤ self.now.columns) }
        ensures rest { IfSome result (λ rest. rest.now ≡ drop self.now.at text.now) }
        ensures text { IfSome result (λ rest. IsUtf8 rest.now) }
    {
        if self.columns == 0 {
            return None;
        }
        let (_, rest) = text.split_at_checked(self.at)?;
        Some(rest)
    }
}

/// Returns the lesser of a text's preferred width and `limit` if all characters that it reads are printable ASCII, newlines
/// and letters from U+00C0 to U+00FF. Otherwise `Err` has the counts before the first other byte.
#[inline]
fn size_by_bytes(text: &[u8], limit: usize) -> Result<usize, Counted>
    ensures ok { IfOk result (λ size. size ≡ min (size_of (chars text.now)) limit) }
    ensures counted { IfErr result (λ c. 1 ≤ c.columns →
        c.columns + collapsed_columns c.spaced (chars (drop c.at text.now)) ≡ size_of (chars text.now)) }
{
    let mut at = 0;
    let mut columns = 0;
    let mut spaced = false;
    while columns < limit && at < text.len() {
        let byte = text[at];
        if is_letter(byte) {
            let end = plain_end(text, at + 1, limit);
            columns += if spaced { 2 } else { 1 };
            columns += end - (at + 1);
            spaced = text[end - 1] == b' ';
            if spaced {
                columns -= 1;
            }
            at = end;
        } else if is_space(byte) {
            spaced = true;
            at += 1;
        } else if byte == LATIN && at + 1 < text.len() && text[at + 1] < 192 {
            columns += if spaced { 2 } else { 1 };
            spaced = false;
            at += 2;
        } else {
            return Err(Counted {
                at,
                columns,
                spaced,
            });
        }
    }
    Ok(columns.min(limit))
}

/// Returns the index after some bytes from `start` on that are printable ASCII, and no space after another space. They end with
/// the letters of a word; for a limit of a few columns they are the letters from `start` on.
#[inline(always)]
fn plain_end(text: &[u8], start: usize, limit: usize) -> usize
    requires { (0 < start) × (start ≤ length text.now) }
    ensures within { (start ≤ result) × (result ≤ length text.now) }
    ensures plain { IsPlainBetween text.now start result }
{
    let mut at = start;
    if limit > LANES {
        while text.len() - at >= LANES && is_plain_block(text, at) {
            at += LANES;
        }
    }
    letters_end(text, at)
}

/// Returns the index after the letters from `start` on. A letter is a printable ASCII character other than the space.
#[inline]
pub(crate) fn letters_end(text: &[u8], start: usize) -> usize
    requires { start ≤ length text.now }
    ensures within { (start ≤ result) × (result ≤ length text.now) }
    ensures letters { AllWithin (λ b. (33 ≤ b) × (b ≤ 126)) text.now start result }
{
    let mut end = start;
    while end < text.len() && is_letter(text[end]) {
        end += 1;
    }
    end
}

/// Reports whether a byte is a printable ASCII character other than the space.
#[inline]
pub(crate) fn is_letter(byte: u8) -> bool
    ensures low { OnTrue result (33 ≤ byte) }
    ensures high { OnTrue result (byte ≤ 126) }
{
    matches!(byte, b'!'..=b'~')
}

/// Reports whether a byte is a space or a newline.
#[inline]
pub(crate) fn is_space(byte: u8) -> bool
    ensures collapsible { OnTrue result (is_collapsible byte ≡ true) }
    ensures ascii { OnTrue result (byte < 128) }
{
    matches!(byte, b' ' | b'\n')
}

/// Returns the lesser of any text's preferred width and `limit`.
fn any_size_within(text: &str, limit: usize) -> usize
    ensures { result ≡ min (size_of (chars text.now)) limit }
{
    match first_character(text) {
        Some((c, behind)) if is_collapsible(c) => {
            let columns = columns_within(without_leading_space(behind), 0, false, limit);
            columns.saturating_add(columns.min(1)).min(limit)
        }
        _ => columns_within(text, 0, false, limit),
    }
}

/// Returns a text from its first character on that isn't collapsible white space.
fn without_leading_space(text: &str) -> &str
    ensures columns { collapsed_columns false (chars result.now) ≡ inner_columns (chars text.now) }
    ensures text { IsUtf8 result.now }
{
    let mut rest = text;
    while let Some((c, behind)) = first_character(rest) {
        if !is_collapsible(c) {
            break;
        }
        rest = behind;
    }
    rest
}

/// Returns the lesser of `limit` and `before` plus the columns of a text that follows them.
///
/// Each run of collapsible white space counts 1 if another character follows it. `space_before` says whether white space
/// precedes the text.
fn columns_within(text: &str, before: usize, space_before: bool, limit: usize) -> usize
    ensures { result ≡ min (before + collapsed_columns space_before (chars text.now)) limit }
{
    let mut rest = text;
    let mut columns = before;
    let mut spaced = space_before;
    while columns < limit {
        if let Some((letters, behind)) = split_letters(rest) {
            columns = columns.saturating_add(spaced_width(spaced, letters));
            spaced = false;
            rest = behind;
            continue;
        }
        if let Some(behind) = split_space(rest) {
            spaced = true;
            rest = behind;
            continue;
        }
        let Some((c, behind)) = first_character(rest) else {
            break;
        };
        match shown_width(c) {
            Some(width) => {
                columns = columns.saturating_add(spaced_width(spaced, width));
                spaced = false;
            }
            None => spaced = true,
        }
        rest = behind;
    }
    columns.min(limit)
}

/// Splits the letters off the start of a text. Returns their number and the rest; `None` if it doesn't start with a letter.
#[inline]
fn split_letters(text: &str) -> Option<(usize, &str)>
    ensures columns { IfSome result (λ r. (spaced : Bool) →
        collapsed_columns spaced (chars text.now) ≡ (if spaced then 1 else 0) + r.0 + collapsed_columns false (chars r.1.now)) }
    ensures shape { IfSome result (λ r. (s : WordShape) →
        shape_after s (chars text.now) ≡ shape_after (joined_shapes s (Part r.0)) (chars r.1.now)) }
    ensures shorter { IfSome result (λ r. length r.1.now < length text.now) }
    ensures text { IfSome result (λ r. IsUtf8 r.1.now) }
{
    let letters = letters_end(text.as_bytes(), 0);
    if letters == 0 {
        return None;
    }
    let (_, behind) = text.split_at_checked(letters)?;
    Some((letters, behind))
}

/// Splits a space or newline off the start of a text. Returns the rest; `None` if it doesn't start with one.
#[inline]
fn split_space(text: &str) -> Option<&str>
    ensures columns { IfSome result (λ rest. (spaced : Bool) → collapsed_columns spaced (chars text.now) ≡ collapsed_columns true (chars rest.now)) }
    ensures shape { IfSome result (λ rest. (s : WordShape) →
        shape_after s (chars text.now) ≡ shape_after (joined_shapes s word_break) (chars rest.now)) }
    ensures shorter { IfSome result (λ rest. length rest.now < length text.now) }
    ensures text { IfSome result (λ rest. IsUtf8 rest.now) }
{
    let bytes = text.as_bytes();
    if bytes.is_empty() || !is_space(bytes[0]) {
        return None;
    }
    let (_, behind) = text.split_at_checked(1)?;
    Some(behind)
}

/// Returns the columns of a character; `None` if it is collapsible white space.
#[inline]
fn shown_width(c: char) -> Option<usize>
    ensures shown { IfSome result (λ width. (is_collapsible c ≡ false) × (width ≡ width_of c)) }
    ensures space { IfNone result (is_collapsible c ≡ true) }
{
    match c {
        '!'..='~' => Some(1),
        _ if is_collapsible(c) => None,
        _ => Some(width_of(c)),
    }
}

/// Returns `width`, plus 1 if white space precedes the character of that width; at most `usize::MAX`.
fn spaced_width(spaced: bool, width: usize) -> usize
    ensures { result ≡ saturated ((if spaced then 1 else 0) + width) }
{
    if spaced {
        width.saturating_add(1)
    } else {
        width
    }
}

/// Splits a text into its first character and the rest; `None` if it is empty.
pub(crate) fn first_character(text: &str) -> Option<(char, &str)>
    ensures characters { MatchOption result (chars text.now ≡ []) (λ first. chars text.now ≡ first.0 ∷ chars first.1.now) }
    ensures shorter { IfSome result (λ first. length first.1.now < length text.now) }
    ensures text { IfSome result (λ first. IsUtf8 first.1.now) }
{
    let mut chars = text.chars();
    let c = chars.next()?;
    Some((c, chars.as_str()))
}
