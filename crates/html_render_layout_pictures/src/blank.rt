//! Blank text of a row: a line of the row on which no cell has a line of its own.
//!
//! It is made once for a row. The text between two cells with a line of their own is a slice of it.

ghost use Rattle.std.specs.Prelude.{◌≡◌, ◌-◌, ◌≤◌, ◌++◌, ◌∷◌, [], cond, drop, OnOk, IfOk, replicate};
ghost use Rattle.std.specs.Char.{len_utf8};
ghost use Rattle.std.specs.Str.{chars};
ghost use Rattle.std.specs.String.{string_bytes};
ghost use Rattle.html_render_layout_pictures.specs.declared.borders.TheConstants.{BORDERS};
ghost use Rattle.html_render_layout_pictures.specs.Blank.{blank_cell, with_due};

use crate::borders::BORDERS;
use crate::gaps::{CHUNK, few_spaces, gap};
use html_render_layout_buffer::buffer::LineBuffer;
use html_render_layout_lines::tag::Tag;
use std::alloc::{AllocError, Global};
use std::marker::Model;

/// Returns the number of bytes between two cells: of the separator, or of a space without borders.
#[inline]
fn separator_bytes(borders: bool) -> usize
    ensures { result ≡ len_utf8 (cond borders BORDERS.separator 0x20) }
{
    if borders {
        BORDERS.separator.len_utf8()
    } else {
        ' '.len_utf8()
    }
}

/// Appends `count` spaces to a text.
#[tactic(auto, using(crate::proofs::Blanks::spaces_added))]
fn add_spaces(text: &mut String, count: usize) -> Result<(), AllocError>
    ensures { OnOk result (chars (string_bytes text.new) ≡ chars (string_bytes text.old) ++ replicate count 0x20) }
{
    let mut left = count;
    while left > 0 {
        let next = left.min(CHUNK);
        text.push_str(few_spaces(next))?;
        left -= next;
    }
    Ok(())
}

/// Appends a separator and a blank cell to the blank text of the cells before it.
#[tactic(auto, using(crate::proofs::Blanks::texts))]
pub(crate) fn add_blank_cell(
    text: &mut String,
    borders: bool,
    width: usize,
) -> Result<(), AllocError>
    ensures { OnOk result (chars (string_bytes text.new) ≡ chars (string_bytes text.old) ++ blank_cell borders width) }
{
    text.push_str(gap(borders, 0))?;
    add_spaces(text, width)
}

/// Returns the blank text of a row's first cell.
#[tactic(auto, using(crate::proofs::Blanks::texts))]
pub(crate) fn first_blank_cell(alloc: Global, width: usize) -> Result<String, AllocError>
    ensures { IfOk result (λ t. chars (string_bytes t) ≡ replicate width 0x20) }
{
    let mut text = String::new(alloc);
    add_spaces(&mut text, width)?;
    Ok(text)
}

/// Position in the blank text of a row while a line is written. Text is due if it was passed and isn't yet appended.
#[derive(Drop)]
pub(crate) struct Blank<'a> {
    /// Text that is due, and the text after it.
    text: &'a str,
    /// Number of bytes that are due.
    due: usize,
    /// Number of columns that are due.
    columns: usize,
}

impl<'a> Model for Blank<'a> {
    ghost use Rattle.html_render_layout_pictures.specs.Blank.{BlankText, blank_at, IsPlace};

    ghost Value = { BlankText };

    ghost view = { λ b. blank_at b.text.now b.due };

    ghost invariant = { λ b. IsPlace b.text.now b.due b.columns };
}

impl<'a> Blank<'a> {
    /// Returns the start of a blank text, with nothing due.
    pub(crate) fn new(text: &'a str) -> Blank<'a>
        ensures { result ≡ record { due = []; after = chars text.now } }
    {
        Blank {
            text,
            due: 0,
            columns: 0,
        }
    }

    /// Passes a separator, which becomes due.
    #[inline]
    pub(crate) fn pass_separator(&mut self, borders: bool)
        requires { self.old.after ≡ cond borders BORDERS.separator 0x20 ∷ drop 1 self.old.after }
        ensures { self.new ≡ record { due = self.old.due ++ cond borders BORDERS.separator 0x20 ∷ []; after = drop 1 self.old.after } }
    {
        self.due += separator_bytes(borders);
        self.columns += 1;
    }

    /// Passes `count` spaces, which become due.
    #[inline]
    pub(crate) fn pass_spaces(&mut self, count: usize)
        requires { self.old.after ≡ replicate count 0x20 ++ drop count self.old.after }
        ensures { self.new ≡ record { due = self.old.due ++ replicate count 0x20; after = drop count self.old.after } }
    {
        self.due += count;
        self.columns += count;
    }

    /// Drops the text that is due.
    #[inline]
    fn let_go(&mut self)
        ensures { self.new ≡ record { due = []; after = self.old.after } }
    {
        self.text = &self.text[self.due..];
        self.due = 0;
        self.columns = 0;
    }

    /// Drops the text that is due and passes `count` spaces, of which the last `due` become due.
    #[inline]
    pub(crate) fn pass_all_but(&mut self, count: usize, due: usize)
        requires spaces { self.old.after ≡ replicate count 0x20 ++ drop count self.old.after }
        requires within { due ≤ count }
        ensures { self.new ≡ record { due = replicate due 0x20; after = drop count self.old.after } }
    {
        self.pass_spaces(count - due);
        self.let_go();
        self.pass_spaces(due);
    }

    /// Appends the text that is due to the open line of a buffer.
    #[inline]
    pub(crate) fn put<T: Tag, M: Copy>(
        &mut self,
        to: &mut LineBuffer<T, M>,
        tag: T,
    ) -> Result<(), AllocError>
        ensures line { OnOk result (to.new ≡ with_due to.old tag self.old.due) }
        ensures left { OnOk result (self.new ≡ record { due = []; after = self.old.after }) }
    {
        to.push_str(&self.text[..self.due], self.columns, tag)?;
        self.let_go();
        Ok(())
    }
}
