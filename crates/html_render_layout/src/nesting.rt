//! Sub-blocks: beginning one, and appending its lines to the outer block.
#![tactic(auto, using(html_render_dom_values::specs::laws::Outcome::refusals))]

ghost use Rattle.std.specs.Prelude.{◌≡◌, ℕ, List, Some, OnOk, IfOk, IfErr, string_bytes};
ghost use Rattle.std.specs.Str.{chars};
ghost use Rattle.html_render_dom_values.specs.Outcome.{Gives, Refuses};
ghost use Rattle.html_render_layout_blocks.specs.Machine as machine;
ghost use Rattle.html_render_layout.specs.Layout.{Prefixed, Indented, nested, spaces};
ghost use Rattle.html_render_layout.specs.Opening.{interrupted, indent_closed, quote_closed, block_entered};
ghost use Rattle.html_render_layout.specs.Working.{by_tags};

use crate::spaces::many_spaces;
use crate::state::{Outer, Suspended};
use crate::tagging::Tagging;
use crate::working::{Interrupted, OuterBlock, State};
use html_render_dom_values::Error;
use html_render_layout_blocks::held::{BoxedBlock, CurrentBlock, PrefixText, Prefixing};
use html_render_layout_buffer::prefix::Prefix;
use html_render_layout_estimates::text::columns;
use html_render_layout_lines::tag::Tag;
use html_render_layout_pictures::gaps::{CHUNK, few_spaces};
use html_render_parts::decorate::TextDecorator;
use std::alloc::Global;
use std::mem;

/// Begins an empty sub-block of the current block, and returns the latter, suspended. The sub-block has the columns that a
/// prefix of `columns` columns leaves, or `min_width` if that is greater, and the decorator's sub-block decorator.
///
/// # Errors
///
/// `TooNarrow` if overflow is off and the prefix leaves fewer than `min_width` columns. `OutOfMemory`.
fn nest<D: TextDecorator, G: Tagging<D::Annotation>>(
    alloc: Global,
    prefix: PrefixText,
    columns: usize,
    min_width: usize,
    state: &mut State<D, G>,
) -> Result<OuterBlock<D, G>, Error>
    ensures ok { (first later : List ℕ) → OnOk result (nested (by_tags D.decoration G.annotated) state.old.text.tag first later columns min_width state.old
        ≡ Some state.new) }
    ensures outer { IfOk result (λ outer. outer ≡ interrupted (by_tags D.decoration G.annotated) state.old prefix columns) }
    ensures err { (first later : List ℕ) → IfErr result (λ e. Refuses e (nested (by_tags D.decoration G.annotated) state.old.text.tag first later columns
        min_width state.old)) }
{
    let block = state.block.sub_block(columns, min_width)?;
    let decorator = state.decorator.make_subblock_decorator(alloc)?;
    Ok(Outer {
        decorator: mem::replace(&mut state.decorator, decorator),
        block: state.block.suspend(block, prefix, columns, state.text.tag),
    })
}

/// Begins a block with a sub-block, each of whose lines follows the prefix. Returns the block that it suspends.
///
/// # Errors
///
/// `TooNarrow` if overflow is off and a character of the open paragraph is wider than a line, or the prefix leaves fewer than
/// `min_width` columns. `OutOfMemory`.
pub fn begin_prefixed<D: TextDecorator, G: Tagging<D::Annotation>>(
    alloc: Global,
    prefix: String,
    min_width: usize,
    state: &mut State<D, G>,
) -> Result<Interrupted<D, G>, Error>
    ensures ok { IfOk result (λ i. block_entered (by_tags D.decoration G.annotated) (Prefixed (string_bytes prefix) min_width) state.old
        ≡ Some (state.new, i)) }
    ensures err { IfErr result (λ e. Refuses e (block_entered (by_tags D.decoration G.annotated) (Prefixed (string_bytes prefix) min_width) state.old)) }
{
    let prefix = PrefixText::from(prefix);
    let columns = columns(prefix.as_str());
    state.block.as_mut().start_block()?;
    let outer = nest(alloc, prefix, columns, min_width, state)?;
    Ok(Suspended::Quoted(outer))
}

/// Begins a new line with a sub-block, whose first line follows the prefix, and other lines `columns` spaces. Returns the block that it
/// suspends.
///
/// # Errors
///
/// `TooNarrow` if overflow is off and a character of the open paragraph is wider than a line, or `columns` columns leave fewer
/// than `min_width`. `OutOfMemory`.
pub fn begin_indented<D: TextDecorator, G: Tagging<D::Annotation>>(
    alloc: Global,
    prefix: PrefixText,
    columns: usize,
    min_width: usize,
    state: &mut State<D, G>,
) -> Result<Interrupted<D, G>, Error>
    ensures ok { IfOk result (λ i. block_entered (by_tags D.decoration G.annotated) (Indented prefix columns min_width) state.old ≡ Some (state.new, i)) }
    ensures err { IfErr result (λ e. Refuses e (block_entered (by_tags D.decoration G.annotated) (Indented prefix columns min_width) state.old)) }
{
    state.block.as_mut().new_line()?;
    let outer = nest(alloc, prefix, columns, min_width, state)?;
    Ok(Suspended::Indented(outer))
}

/// Begins the sub-block of a description, whose first line follows two spaces. Returns the block that it suspends.
///
/// # Errors
///
/// Those of [`begin_indented`].
pub fn begin_description<D: TextDecorator, G: Tagging<D::Annotation>>(
    alloc: Global,
    min_width: usize,
    state: &mut State<D, G>,
) -> Result<Interrupted<D, G>, Error>
    ensures ok { IfOk result (λ i. block_entered (by_tags D.decoration G.annotated) (Indented (spaces 2) 2 min_width) state.old ≡ Some (state.new, i)) }
    ensures err { IfErr result (λ e. Refuses e (block_entered (by_tags D.decoration G.annotated) (Indented (spaces 2) 2 min_width) state.old)) }
{
    let prefix = PrefixText::from_str(alloc, "  ")?;
    begin_indented(alloc, prefix, 2, min_width, state)
}

/// Appends the lines of a sub-block, the first after its prefix and later ones after spaces of the prefix's columns.
fn append_behind<T: Tag>(
    alloc: Global,
    block: &mut CurrentBlock<T, usize>,
    sub: Prefixing<BoxedBlock<T, usize>, T>,
) -> Result<(), Error>
    ensures { Gives result (machine.operations.append block.old sub.block sub.tag (chars sub.prefix) (spaces sub.columns)) block.new }
{
    if sub.columns <= CHUNK {
        let later = Prefix::of_spaces(few_spaces(sub.columns), sub.columns, sub.tag);
        return block.append(sub.block, sub.prefix.as_str(), &later);
    }
    let text = many_spaces(alloc, sub.columns)?;
    let later = Prefix::of_spaces(text.as_str(), sub.columns, sub.tag);
    block.append(sub.block, sub.prefix.as_str(), &later)
}

/// Closes an indented sub-block: resumes the outer block, and appends the lines to it.
///
/// # Errors
///
/// `TooNarrow` if overflow is off and a character of either block's open paragraph is wider than a line, or a line with its
/// prefix is wider than the outer block. `OutOfMemory`.
pub fn close_indent<D: TextDecorator, G: Tagging<D::Annotation>>(
    alloc: Global,
    outer: OuterBlock<D, G>,
    state: &mut State<D, G>,
) -> Result<(), Error>
    ensures { Gives result (indent_closed (by_tags D.decoration G.annotated) outer state.old) state.new }
{
    let sub = state.block.resume(outer.block);
    append_behind(alloc, &mut state.block, sub)?;
    state.decorator = outer.decorator;
    Ok(())
}

/// Closes the sub-block of a heading or a quote: resumes the outer block, and appends the lines to it as a block.
///
/// # Errors
///
/// `TooNarrow` if overflow is off and a character of either block's open paragraph is wider than a line, or a line with its
/// prefix is wider than the outer block. `OutOfMemory`.
pub fn close_quote<D: TextDecorator, G: Tagging<D::Annotation>>(
    outer: OuterBlock<D, G>,
    state: &mut State<D, G>,
) -> Result<(), Error>
    ensures { Gives result (quote_closed (by_tags D.decoration G.annotated) outer state.old) state.new }
{
    let sub = state.block.resume(outer.block);
    let prefix = sub.prefix;
    let later = Prefix::new(prefix.as_str(), sub.tag);
    state.block.append(sub.block, prefix.as_str(), &later)?;
    state.block.as_mut().end_block();
    state.decorator = outer.decorator;
    Ok(())
}
