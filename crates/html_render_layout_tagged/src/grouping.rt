//! Grouping of a line's characters into tagged strings.
//!
//! The characters `a` and `b` under equal annotations, followed by a mark or by other annotations, become one string `ab`
//! with the annotations of `a`.

ghost use Rattle.std.specs.Prelude.{◌≡◌, List, [], ◌∷◌, ◌++◌, None, Some, OnOk, IfOk, map, string_bytes};
ghost use Rattle.std.proofs.Common.{get_or};
ghost use Rattle.std.specs.Cmp.Lexicographic.{pointwise};
ghost use Rattle.std.specs.Str.{chars};
ghost use Rattle.html_render_dom_values.specs.Outcome.{OnlyOutOfMemory};
ghost use Rattle.html_render_layout_lines.specs.Line.{columns};
ghost use Rattle.html_render_layout_lines.specs.Tags.{line_with, lines_with};
ghost use Rattle.html_render_layout_lines.specs.TaggedText.{under};
ghost use Rattle.html_render_layout_buffer.specs.Parts.{part_elements};
ghost use Rattle.html_render_layout_tagged.specs.Stacks.{stack_at};
ghost use Rattle.html_render_layout_tagged.specs.LaidOut.{laid_out};
ghost use Rattle.html_render_layout_tagged.specs.Grouping.{in_front, grouped, pieces_of, lines_of, ClonesAreSame};
ghost use Rattle.html_render_layout_tagged.specs.TaggedLine.{line_columns};
ghost use Rattle.html_render_layout_tagged.specs.Progress.{closed, pieces_with, Takes};

use crate::laid_out::LaidOut;
use crate::line::{TaggedLine, TaggedLineElement, TaggedString};
use crate::stacks::Stacks;
use html_render_dom_values::Error;
use html_render_dom_values::text::Text;
use html_render_layout_buffer::buffer::LineBuffer;
use html_render_layout_buffer::buffer::parts::{LinePart, LineParts};
use html_render_layout_lines::line::Element;
use std::alloc::{AllocError, Global};

/// Last string of a line under construction, to which text under equal annotations is appended.
#[derive(Drop)]
struct OpenString {
    text: String,
    tag: usize,
}

/// Tagged line under construction, from its start.
#[derive(Drop)]
struct Progress<A> {
    /// Finished elements.
    done: Vec<TaggedLineElement<Vec<A>>>,
    /// Unfinished string after these; `None` if the line is empty or ends with a mark.
    last: Option<OpenString>,
}

/// Appends a text.
fn append(text: &mut String, more: &str) -> Result<(), AllocError>
    ensures { OnOk result (chars (string_bytes text.new) ≡ chars (string_bytes text.old) ++ chars more.now) }
{
    // the proof reads here that the old text is UTF-8
    let _text = text.as_str();
    text.push_str(more)?;
    Ok(())
}

/// Returns clones of a tag's annotations, the outermost first.
fn annotations<A: Clone + Drop>(
    alloc: Global,
    stacks: &Stacks<A>,
    tag: usize,
) -> Result<Vec<A>, AllocError>
    requires { ClonesAreSame A.is_clone }
    ensures { IfOk result (λ annotations. annotations.items ≡ stack_at stacks.now tag) }
{
    let mut annotations = Vec::with_capacity(alloc, stacks.depth(tag))?;
    let mut tag = tag;
    while let Some(top) = stacks.top(tag) {
        annotations.push(top.annotation.clone()?)?;
        tag = top.below;
    }
    annotations.reverse();
    Ok(annotations)
}

impl<A: Eq + Clone + Drop> Progress<A> {
    /// Returns an empty line.
    fn new(alloc: Global) -> Progress<A>
        ensures done { result.done.items ≡ [] }
        ensures last { result.last ≡ None }
    {
        Progress {
            done: Vec::new(alloc),
            last: None,
        }
    }

    /// Finishes the last string, if it is unfinished.
    fn close(&mut self, alloc: Global, stacks: &Stacks<A>) -> Result<(), AllocError>
        requires { ClonesAreSame A.is_clone }
        ensures done { OnOk result (pieces_of self.new.done.items ≡ pieces_of self.old.done.items ++ closed stacks.now self.old.last) }
        ensures last { OnOk result (self.new.last ≡ None) }
    {
        if let Some(last) = self.last.take() {
            let tag = annotations(alloc, stacks, last.tag)?;
            self.done
                .push(TaggedLineElement::Str(TaggedString { s: last.text, tag }))?;
        }
        Ok(())
    }

    /// Appends a text: to the last string if that is unfinished and has equal annotations, and otherwise as a new string.
    fn push_str(
        &mut self,
        alloc: Global,
        stacks: &Stacks<A>,
        text: &str,
        tag: usize,
    ) -> Result<(), AllocError>
        requires { ClonesAreSame A.is_clone }
        ensures { OnOk result ((ps : List _) → pieces_with A.eq stacks.now self.new ps
            ≡ pieces_with A.eq stacks.now self.old (in_front (pointwise A.eq) (chars text.now) (stack_at stacks.now tag) ps)) }
    {
        if let Some(last) = &mut self.last {
            if stacks.are_equal(last.tag, tag) {
                append(&mut last.text, text)?;
                return Ok(());
            }
        }
        self.close(alloc, stacks)?;
        let text = String::from_str(alloc, text)?;
        self.last = Some(OpenString { text, tag });
        Ok(())
    }

    /// Appends the characters of a text; nothing if it is empty.
    fn push_text(
        &mut self,
        alloc: Global,
        stacks: &Stacks<A>,
        text: &str,
        tag: usize,
    ) -> Result<(), AllocError>
        requires { ClonesAreSame A.is_clone }
        ensures { OnOk result ((names : List _) → Takes A.eq stacks.now names self.old (under tag (chars text.now)) self.new) }
    {
        if text.is_empty() {
            return Ok(());
        }
        self.push_str(alloc, stacks, text, tag)
    }

    /// Appends a mark, as the start of the fragment with its name. The name is empty if `names` has none for the mark.
    fn push_mark(
        &mut self,
        alloc: Global,
        stacks: &Stacks<A>,
        names: &[Text],
        mark: usize,
    ) -> Result<(), AllocError>
        requires { ClonesAreSame A.is_clone }
        ensures { OnOk result (Takes A.eq stacks.now names.now self.old (Element.Mark mark ∷ []) self.new) }
    {
        self.close(alloc, stacks)?;
        let name = name_of(alloc, names, mark)?;
        self.done.push(TaggedLineElement::FragmentStart(name))?;
        Ok(())
    }

    /// Appends a part of a line.
    fn push_part(
        &mut self,
        alloc: Global,
        stacks: &Stacks<A>,
        names: &[Text],
        part: LinePart<'_, usize, usize>,
    ) -> Result<(), AllocError>
        requires { ClonesAreSame A.is_clone }
        ensures { OnOk result (Takes A.eq stacks.now names.now self.old (part_elements part.entry) self.new) }
    {
        match part {
            LinePart::Text(text, tag) => self.push_text(alloc, stacks, text, tag),
            LinePart::Mark(mark) => self.push_mark(alloc, stacks, names, mark),
        }
    }

    /// Returns the finished line.
    fn finish(mut self, alloc: Global, stacks: &Stacks<A>) -> Result<TaggedLine<Vec<A>>, AllocError>
        requires { ClonesAreSame A.is_clone }
        ensures { IfOk result (λ line. pieces_of line ≡ pieces_with A.eq stacks.now self []) }
    {
        self.close(alloc, stacks)?;
        Ok(TaggedLine::new(self.done))
    }
}

/// Returns a copy of the name with the number `mark`; an empty text if there is none.
fn name_of(alloc: Global, names: &[Text], mark: usize) -> Result<String, AllocError>
    ensures { IfOk result (λ name. string_bytes name ≡ get_or names.now mark []) }
{
    match names.get(mark) {
        Some(name) => String::from_str(alloc, name.as_str()),
        None => Ok(String::new(alloc)),
    }
}

/// Returns a line as tagged strings and fragment starts.
fn tagged_line<A: Eq + Clone + Drop>(
    alloc: Global,
    stacks: &Stacks<A>,
    names: &[Text],
    line: LineParts<'_, usize, usize>,
) -> Result<TaggedLine<Vec<A>>, AllocError>
    requires { ClonesAreSame A.is_clone }
    ensures { IfOk result (λ l. pieces_of l ≡ grouped (pointwise A.eq) names.now (line_with (stack_at stacks.now) line.entry)) }
{
    let mut left = line;
    let mut progress = Progress::new(alloc);
    while let Some(part) = left.next() {
        progress.push_part(alloc, stacks, names, part)?;
    }
    progress.finish(alloc, stacks)
}

/// Returns the lines of a layout as tagged strings and fragment starts.
///
/// - The strings of a line are the longest runs of characters with equal annotations and without a mark between them.
///   Annotations are compared one by one, by `Eq`.
/// - The tag of a string is the annotations of its first character, the outermost first. They are cloned once for each
///   string.
/// - A mark becomes the start of the fragment with its name.
///
/// # Errors
///
/// `OutOfMemory`, also if an annotation can't be cloned.
pub fn tagged_lines<A: Eq + Clone + Drop>(
    alloc: Global,
    layout: LaidOut<A>,
) -> Result<Vec<TaggedLine<Vec<A>>>, Error>
    requires { ClonesAreSame A.is_clone }
    ensures ok { IfOk result (λ lines. lines_of lines.items ≡ map (grouped (pointwise A.eq) layout.names) (laid_out layout)) }
    // each tagged line has the columns of its laid-out line
    ensures columns { IfOk result (λ lines. map line_columns lines.items ≡ map columns (laid_out layout)) }
    ensures err { OnlyOutOfMemory result }
{
    let lines = layout.lines.into_buffer()?;
    all_tagged(alloc, &layout.stacks, layout.names.as_slice(), &lines)
}

/// Returns the ended lines of a buffer as tagged strings and fragment starts.
fn all_tagged<A: Eq + Clone + Drop>(
    alloc: Global,
    stacks: &Stacks<A>,
    names: &[Text],
    lines: &LineBuffer<usize, usize>,
) -> Result<Vec<TaggedLine<Vec<A>>>, Error>
    requires { ClonesAreSame A.is_clone }
    ensures ok { IfOk result (λ made. lines_of made.items
        ≡ map (grouped (pointwise A.eq) names.now) (lines_with (stack_at stacks.now) lines.now.lines)) }
    ensures err { OnlyOutOfMemory result }
{
    let mut made = Vec::with_capacity(alloc, lines.line_count())?;
    for n in 0..lines.line_count() {
        made.push(tagged_line(alloc, stacks, names, lines.line_parts(n))?)?;
    }
    Ok(made)
}
