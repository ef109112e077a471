//! Items of lists: the sub-block of each, and white space between them.
#![tactic(auto, using(html_render_dom_values::specs::laws::Outcome::refusals))]

ghost use Rattle.std.specs.Prelude.{◌≡◌, ℕ, Some, OnOk, IfOk, IfErr, IfSome, string_bytes};
ghost use Rattle.std.specs.Bool.{OnTrue};
ghost use Rattle.html_render_dom_values.specs.Outcome.{Refuses};
ghost use Rattle.html_render_layout_estimates.specs.Estimates.{prefix_columns};
ghost use Rattle.html_render_layout.specs.Blank.{IsBlank, IsIndented, IsPlain};
ghost use Rattle.html_render_layout.specs.Layout.{Indented, padded};
ghost use Rattle.html_render_layout.specs.Opening.{number_from, child_block, block_entered};
ghost use Rattle.html_render_layout.specs.Working.{by_tags};

use crate::bullet::Bullet;
use crate::nesting::begin_indented;
use crate::spaces::padded;
use crate::state::{CloseAction, Suspended, TextContext};
use crate::tagging::Tagging;
use crate::working::{Interrupted, KindKept, State};
use html_render_dom_values::Error;
use html_render_dom_values::white_space::WhiteSpace;
use html_render_layout_blocks::block::is_collapsible_alone;
use html_render_layout_blocks::held::PrefixText;
use html_render_layout_nodes::tree::{NodeKind, NodeStyle, RenderNode};
use html_render_parts::decorate::TextDecorator;
use std::alloc::Global;

/// Returns the number of an item: that of the list's first item plus `number`, the item's index from 0. It saturates.
fn number_from(first: i64, number: usize) -> i64
    ensures { result ≡ number_from first number }
{
    first.saturating_add_unsigned(number as u64)
}

/// Begins the sub-block of an item after a bullet. Returns the block that it suspends.
fn begin_bulleted<D: TextDecorator, G: Tagging<D::Annotation>>(
    alloc: Global,
    bullet: &Bullet,
    min_width: usize,
    state: &mut State<D, G>,
) -> Result<Interrupted<D, G>, Error>
    ensures ok { IfOk result (λ i. block_entered (by_tags D.decoration G.annotated)
        (Indented bullet.now (prefix_columns bullet.now) min_width) state.old ≡ Some (state.new, i)) }
    ensures err { IfErr result (λ e. Refuses e (block_entered (by_tags D.decoration G.annotated)
        (Indented bullet.now (prefix_columns bullet.now) min_width) state.old)) }
{
    let prefix = PrefixText::from_str(alloc, bullet.as_str())?;
    begin_indented(alloc, prefix, bullet.columns(), min_width, state)
}

/// Begins the sub-block of an item after a prefix, which is padded with spaces to `columns` columns. Returns the block that
/// it suspends.
fn begin_padded<D: TextDecorator, G: Tagging<D::Annotation>>(
    alloc: Global,
    prefix: String,
    columns: usize,
    min_width: usize,
    state: &mut State<D, G>,
) -> Result<Interrupted<D, G>, Error>
    ensures ok { IfOk result (λ i. block_entered (by_tags D.decoration G.annotated)
        (Indented (padded columns (string_bytes prefix)) columns min_width) state.old ≡ Some (state.new, i)) }
    ensures err { IfErr result (λ e. Refuses e (block_entered (by_tags D.decoration G.annotated)
        (Indented (padded columns (string_bytes prefix)) columns min_width) state.old)) }
{
    let prefix = padded(prefix, columns)?;
    begin_indented(alloc, PrefixText::from(prefix), columns, min_width, state)
}

/// Begins the sub-block of a child of a list with this closing action. Returns the block that it suspends. `number` is the
/// child's index, from 0.
///
/// # Errors
///
/// Those of [`begin_indented`].
#[inline]
pub fn begin_item<D: TextDecorator, G: Tagging<D::Annotation>>(
    alloc: Global,
    list: &KindKept<D, G>,
    number: usize,
    state: &mut State<D, G>,
) -> Result<Interrupted<D, G>, Error>
    ensures ok { IfOk result (λ i. block_entered (by_tags D.decoration G.annotated)
        (child_block (by_tags D.decoration G.annotated) state.old.decorator list.now number) state.old ≡ Some (state.new, i)) }
    ensures err { IfErr result (λ e. Refuses e (block_entered (by_tags D.decoration G.annotated)
        (child_block (by_tags D.decoration G.annotated) state.old.decorator list.now number) state.old)) }
{
    match list {
        CloseAction::Bullets { bullet, min_width } => {
            begin_bulleted(alloc, bullet, *min_width, state)
        }
        CloseAction::Numbers {
            first,
            columns,
            min_width,
        } => {
            let item = number_from(*first, number);
            let prefix = state.decorator.ordered_item_prefix(alloc, item)?;
            begin_padded(alloc, prefix, *columns, *min_width, state)
        }
        _ => Ok(Suspended::NoBlock),
    }
}

/// The columns of a list's items.
#[derive(Clone, Copy)]
pub struct Indent {
    /// Columns of the prefix.
    pub columns: usize,
    /// Minimum width of an item without its prefix, in columns.
    pub min_width: usize,
}

/// Returns the columns of the items of a list with this closing action. `None` if it isn't that of a list.
#[inline(always)]
pub fn indent_of<D: TextDecorator, G: Tagging<D::Annotation>>(
    list: &KindKept<D, G>,
) -> Option<Indent>
    ensures { (x : _) (number : ℕ) → IfSome result (λ indent.
        IsIndented (child_block (by_tags D.decoration G.annotated) x list.now number) indent.columns indent.min_width) }
{
    match list {
        CloseAction::Bullets { bullet, min_width } => Some(Indent {
            columns: bullet.columns(),
            min_width: *min_width,
        }),
        CloseAction::Numbers {
            columns,
            min_width,
            ..
        } => Some(Indent {
            columns: *columns,
            min_width: *min_width,
        }),
        _ => None,
    }
}

/// Reports whether a node is a text of collapsible white space alone, which has no style, and which shows nothing in a block of
/// its own.
#[inline(always)]
pub fn is_blank<T: Copy>(node: &RenderNode, text: &TextContext<T>) -> bool
    ensures { OnTrue result (IsBlank node.now text.now) }
{
    let NodeKind::Text(content) = &node.kind else {
        return false;
    };
    text.mode == WhiteSpace::Normal
        && !text.preformatted
        && is_plain(&node.style)
        && is_collapsible_alone(content.as_str())
}

/// Reports whether a style changes nothing of texts.
#[inline(always)]
pub fn is_plain(style: &NodeStyle) -> bool
    ensures { OnTrue result (IsPlain style.now) }
{
    style.colour.is_none()
        && style.background.is_none()
        && style.white_space == WhiteSpace::Normal
        && !style.preformatted
}
