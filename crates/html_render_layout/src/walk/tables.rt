//! Tables: beginning and ending one, with its fences, and the blocks of its cells.
#![tactic(auto, using(html_render_dom_values::specs::laws::Outcome::refusals))]

ghost use Rattle.std.specs.Prelude.{◌≡◌, [], ◌∷◌, OnOk, IfOk, codes};
ghost use Rattle.std.specs.Str.{chars};
ghost use Rattle.html_render_dom_values.specs.Outcome.{Gives, OnlyOutOfMemory};
ghost use Rattle.html_render_layout_blocks.specs.Machine as machine;
ghost use Rattle.html_render_layout.specs.Layout.{StartBlock, Fence, BeginTable, fence, perform, perform_all, within};
ghost use Rattle.html_render_layout.specs.Opening.{cell_closed, table_closed};
ghost use Rattle.html_render_layout.specs.Working.{by_tags};

use crate::state::Outer;
use crate::tagging::Tagging;
use crate::working::State;
use html_render_dom_values::Error;
use html_render_dom_values::white_space::WhiteSpace;
use html_render_layout_blocks::held::BoxedBlock;
use html_render_layout_lines::character::TextStyle;
use html_render_layout_nodes::tree::Grid;
use html_render_parts::decorate::TextDecorator;
use std::alloc::Global;
use std::mem;

/// Returns the text of a fence.
#[tactic(auto, using(crate::proofs::Fences::chars_fence))]
fn fence_text() -> &'static str
    ensures { chars result.now ≡ codes "```" }
{
    "```"
}

/// Returns the style of a fence: white space `Normal`, under this tag.
fn fence_style<T: Copy>(tag: T) -> TextStyle<T>
    ensures { result ≡ record { mode = WhiteSpace.Normal; tag = tag; continuation_tag = tag } }
{
    TextStyle {
        mode: WhiteSpace::Normal,
        tag,
        continuation_tag: tag,
    }
}

/// Adds a fence, and begins a new line.
fn write_fence<D: TextDecorator, G: Tagging<D::Annotation>>(
    state: &mut State<D, G>,
) -> Result<(), Error>
    ensures { Gives result (fence (by_tags D.decoration G.annotated) state.old) state.new }
{
    let style = fence_style(state.blank);
    state.block.as_mut().add_inline_text(fence_text(), style)?;
    state.block.as_mut().new_line()?;
    Ok(())
}

/// Adds a fence, if tables are fenced and no table is open.
fn add_fence<D: TextDecorator, G: Tagging<D::Annotation>>(
    state: &mut State<D, G>,
) -> Result<(), Error>
    ensures { Gives result (perform (by_tags D.decoration G.annotated) state.old Fence state.old) state.new }
{
    if !state.settings.fence_tables {
        return Ok(());
    }
    if state.in_table {
        return Ok(());
    }
    write_fence(state)
}

/// Begins a table: starts a block, adds a fence if tables are fenced and no table is open, and begins the table on its grid.
///
/// # Errors
///
/// `TooNarrow` if overflow is off and a character of a paragraph that is flushed is wider than a line. `OutOfMemory`.
pub fn begin_table<D: TextDecorator, G: Tagging<D::Annotation>>(
    grid: &Grid,
    state: &mut State<D, G>,
) -> Result<(), Error>
    ensures { Gives result (perform_all (by_tags D.decoration G.annotated) state.old
        (StartBlock ∷ (Fence ∷ (BeginTable grid.now.cells grid.now.needs ∷ []))) state.old) state.new }
{
    state.block.as_mut().start_block()?;
    add_fence(state)?;
    let blank = state.blank;
    let borders = state.settings.table_borders;
    let stacked = state.settings.raw_mode;
    state
        .block
        .as_mut()
        .begin_table(blank, borders, stacked, grid.cells(), grid.needs())?;
    state.in_table = true;
    Ok(())
}

/// Ends a table, and adds a fence if tables are fenced and this one isn't nested. `in_table` is whether it is nested.
///
/// # Errors
///
/// `TooNarrow` if overflow is off and a character of a paragraph that is flushed is wider than a line. `OutOfMemory`.
pub fn end_table<D: TextDecorator, G: Tagging<D::Annotation>>(
    in_table: bool,
    state: &mut State<D, G>,
) -> Result<(), Error>
    ensures { Gives result (table_closed (by_tags D.decoration G.annotated) in_table state.old) state.new }
{
    state.block.as_mut().end_table()?;
    state.in_table = in_table;
    add_fence(state)
}

/// Returns the block for the next cell of a row; `None` if the cell is skipped.
///
/// # Errors
///
/// `OutOfMemory`.
#[inline(always)]
pub fn next_cell<D: TextDecorator, G: Tagging<D::Annotation>>(
    state: &mut State<D, G>,
) -> Result<Option<BoxedBlock<G::Tag, usize>>, Error>
    ensures same { OnOk result (state.new ≡ state.old) }
    ensures ok { IfOk result (λ cell. cell ≡ machine.operations.cell_block state.old.block) }
    ensures err { OnlyOutOfMemory result }
{
    state.block.cell_block()
}

/// Begins a cell of a row in this block, and returns the block of the table, suspended.
///
/// # Errors
///
/// `OutOfMemory`.
#[inline(always)]
pub fn begin_cell<D: TextDecorator, G: Tagging<D::Annotation>>(
    alloc: Global,
    cell: BoxedBlock<G::Tag, usize>,
    state: &mut State<D, G>,
) -> Result<Outer<D, BoxedBlock<G::Tag, usize>>, Error>
    ensures ok { OnOk result (state.new ≡ within (by_tags D.decoration G.annotated) cell state.old) }
    ensures outer { IfOk result (λ outer. outer ≡ record { decorator = state.old.decorator; block = state.old.block }) }
    ensures err { OnlyOutOfMemory result }
{
    let decorator = state.decorator.make_subblock_decorator(alloc)?;
    Ok(Outer {
        decorator: mem::replace(&mut state.decorator, decorator),
        block: state.block.replace(cell),
    })
}

/// Ends a cell: resumes the block of the table, and adds the cell to the open row.
///
/// # Errors
///
/// `TooNarrow` if overflow is off and a character of a paragraph that is flushed is wider than a line. `OutOfMemory`.
#[inline(always)]
pub fn end_cell<D: TextDecorator, G: Tagging<D::Annotation>>(
    outer: Outer<D, BoxedBlock<G::Tag, usize>>,
    state: &mut State<D, G>,
) -> Result<(), Error>
    ensures { Gives result (cell_closed (by_tags D.decoration G.annotated) outer state.old) state.new }
{
    let cell = state.block.replace(outer.block);
    state.block.add_cell(cell)?;
    state.decorator = outer.decorator;
    Ok(())
}
