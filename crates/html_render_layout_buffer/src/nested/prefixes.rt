//! Prefixes of the lines of open blocks, and the levels of these blocks.

ghost use Rattle.std.specs.Prelude.{◌≡◌, ℕ, List, ◌==◌, [], ◌∷◌, ◌++◌, OnOk, OnErr, IfOk, if◌then◌else◌};
ghost use Rattle.std.specs.Str.{chars};
ghost use Rattle.html_render_layout_lines.specs.Line.{is_empty, marks_line};
ghost use Rattle.html_render_layout_lines.specs.TaggedText.{counted, text_columns, under};
ghost use Rattle.html_render_layout_buffer.specs.Lines.{no_lines};
ghost use Rattle.html_render_layout_buffer.specs.Levels.{line_prefixes, lines_after, later_characters, has_prefix};

use super::widths::Widths;
use crate::buffer::LineBuffer;
use crate::prefix::{Prefix, known};
use crate::runs::longer;
use html_render_dom_values::small_text::SmallText;
use html_render_layout_lines::tag::Tag;
use std::alloc::{AllocError, Global};
use std::marker::Model;

/// Text of a prefix. Up to 30 bytes need no allocation.
type PrefixText = SmallText<30>;

/// Prefix of a block's lines from its second line on.
#[derive(Clone, Copy)]
pub enum Later {
    /// The prefix of the first line.
    Same,
    /// A number of spaces.
    Spaces(usize),
}

impl Later {
    /// Reports whether the prefix is empty, by the text of the first line's prefix.
    #[tactic(auto, using(crate::proofs::OpenBlocks::few_spaces))]
    fn is_empty(self, first: &str) -> bool
        ensures { result ≡ is_empty (later_characters self (chars first.now)) }
    {
        match self {
            Later::Same => is_empty(first),
            Later::Spaces(count) => count == 0,
        }
    }

    /// Returns the columns of the prefix, by those of the first line's prefix. `None` if they pass a machine word.
    #[tactic(auto, using(crate::proofs::Growing::few_put))]
    pub(super) fn columns(self, first: Option<usize>) -> Option<usize>
        ensures { (cs : List ℕ) → first ≡ counted (text_columns cs) → result ≡ counted (text_columns (later_characters self cs)) }
    {
        match self {
            Later::Same => first,
            Later::Spaces(count) => known(count),
        }
    }
}

/// An open block in another one.
#[derive(Clone, Copy)]
pub struct Level<T> {
    /// Number of lines of the block around it.
    pub lines: usize,
    /// Tag of its prefixes.
    pub tag: T,
    /// Whether it has a [`LinePrefix`]. Without one, its prefixes are empty and no marks wait around it.
    pub has_prefix: bool,
    /// Columns of its first prefix; `None` if they pass a machine word.
    pub first: Option<usize>,
    /// Columns of its later prefix; `None` if they pass a machine word.
    pub later: Option<usize>,
    /// Widths of the lines of the block around it, unless that is the outermost.
    pub widths: Widths,
}

/// Prefixes of an open block's lines.
#[derive(Drop)]
pub(super) struct LinePrefix<T, M> {
    // marks that precede the prefix of the first line
    marks: Vec<M>,
    // prefix of the first line, and its columns; `None` if they pass a machine word
    first: PrefixText,
    columns: Option<usize>,
    later: Later,
    tag: T,
    // number of the first line among the lines of all blocks
    start: usize,
}

impl<T, M> Model for LinePrefix<T, M> {
    ghost use Rattle.std.specs.Prelude.{◌≡◌};
    ghost use Rattle.std.specs.Str.{chars};
    ghost use Rattle.html_render_layout_lines.specs.TaggedText.{counted, text_columns};
    ghost use Rattle.html_render_layout_buffer.specs.Levels.{BlockPrefix, later_characters};

    ghost Value = { BlockPrefix T M };

    ghost view = { λ p. record {
      tag = p.tag;
      marks = p.marks.items;
      first = chars p.first;
      later = later_characters p.later (chars p.first);
      start = p.start;
    } };

    ghost invariant = { λ p. p.columns ≡ counted (text_columns (chars p.first)) };
}

impl<T: Tag, M: Copy> LinePrefix<T, M> {
    /// Returns the prefixes of the lines of a block that begins at line `start`, where `waiting` marks wait around it.
    ///
    /// # Errors
    ///
    /// `AllocError`.
    pub(super) fn new(
        alloc: Global,
        waiting: &[M],
        prefix: &Prefix<'_, T>,
        later: Later,
        start: usize,
    ) -> Result<LinePrefix<T, M>, AllocError>
        ensures { IfOk result (λ p. p ≡ record {
          tag = prefix.now.tag;
          marks = waiting.now;
          first = chars prefix.now.text.now;
          later = later_characters later (chars prefix.now.text.now);
          start = start;
        }) }
    {
        let mut marks = Vec::new(alloc);
        marks.extend_from_slice(waiting)?;
        Ok(LinePrefix {
            marks,
            first: PrefixText::from_str(alloc, prefix.text)?,
            columns: prefix.columns,
            later,
            tag: prefix.tag,
            start,
        })
    }

    /// Returns the marks that precede the first prefix.
    pub(super) fn into_marks(self) -> Vec<M>
        ensures { result.items ≡ self.marks }
    {
        self.marks
    }

    /// Appends the block's prefix of line `number` to the open line. The marks precede it on the block's first line.
    #[tactic(auto, using(crate::proofs::Growing::few_put))]
    fn write(&self, lines: &mut LineBuffer<T, M>, number: usize) -> Result<(), AllocError>
        ensures ok { OnOk result (lines.new ≡ record {
          lines = lines.old.lines;
          line = lines.old.line ++ (if self.now.start == number then marks_line self.now.marks ++ under self.now.tag self.now.first
              else under self.now.tag self.now.later);
        }) }
        ensures err { OnErr result (lines.new ≡ no_lines) }
    {
        if self.start == number {
            lines.push_marks(self.marks.as_slice())?;
            return lines.push_counted(self.first.as_str(), self.columns, self.tag);
        }
        match self.later {
            Later::Same => lines.push_counted(self.first.as_str(), self.columns, self.tag),
            Later::Spaces(count) => lines.push_spaces(count, self.tag),
        }
    }
}

/// Appends the prefixes of line `number` to the open line, outermost first.
pub(super) fn put_prefixes<T: Tag, M: Copy>(
    lines: &mut LineBuffer<T, M>,
    number: usize,
    prefixes: &[LinePrefix<T, M>],
) -> Result<(), AllocError>
    ensures ok { OnOk result (lines.new ≡ record { lines = lines.old.lines; line = lines.old.line ++ line_prefixes number prefixes.now }) }
    ensures err { OnErr result (lines.new ≡ no_lines) }
{
    for prefix in prefixes {
        prefix.write(lines, number)?;
    }
    Ok(())
}

/// Appends copies of another buffer's ended lines, each after its prefixes. The first one is line `number`.
pub(super) fn put_lines<T: Tag, M: Copy>(
    lines: &mut LineBuffer<T, M>,
    more: &LineBuffer<T, M>,
    number: usize,
    prefixes: &[LinePrefix<T, M>],
) -> Result<(), AllocError>
    requires { lines.old.line ≡ [] }
    ensures ok { OnOk result (lines.new ≡ record { lines = lines.old.lines ++ lines_after number prefixes.now more.now.lines; line = [] }) }
    ensures open { lines.new.line ≡ [] }
{
    for n in 0..more.line_count() {
        put_prefixes(lines, longer(number, n)?, prefixes)?;
        lines.append_ended(more, n)?;
    }
    Ok(())
}

/// Reports whether a text is empty.
fn is_empty(text: &str) -> bool
    ensures { result ≡ is_empty (chars text.now) }
{
    text.is_empty()
}

/// Reports whether a block with these prefixes has a [`LinePrefix`], where marks may wait around it.
pub(super) fn has_prefix<M>(waiting: &[M], first: &str, later: Later) -> bool
    ensures { result ≡ has_prefix waiting.now (chars first.now) (later_characters later (chars first.now)) }
{
    !(waiting.is_empty() && is_empty(first) && later.is_empty(first))
}
