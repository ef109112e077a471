//! Superscripts of digits, as Unicode's superscript characters.

ghost use Rattle.std.specs.Prelude.{◌≡◌, Some, None, MatchOption, IfOk, map, option_map, string_bytes};
ghost use Rattle.std.specs.Char.{is_ascii_digit};
ghost use Rattle.std.specs.List.{list_all};
ghost use Rattle.std.specs.Str.{chars};
ghost use Rattle.html_render_dom_values.specs.Outcome.{Gives};
ghost use Rattle.html_render_layout_nodes.specs.Preorder.{flatten, forest_of};
ghost use Rattle.html_render_layout.specs.Layout.{write, digits_of, raised};
ghost use Rattle.html_render_layout.specs.Opening.{digits_of_kind};
ghost use Rattle.html_render_layout.specs.Working.{by_tags};

use super::texts::add_text;
use crate::tagging::Tagging;
use crate::working::State;
use html_render_dom_values::Error;
use html_render_layout_nodes::tree::{Entry, NodeKind, RenderNode};
use html_render_parts::decorate::TextDecorator;
use std::alloc::{AllocError, Global};

/// Superscript characters of the digits 0 to 9.
const SUPERSCRIPTS: [char; 10] = ['⁰', '¹', '²', '³', '⁴', '⁵', '⁶', '⁷', '⁸', '⁹'];

/// Returns the node of these trees, if they are a single node.
fn only_node(nodes: &[Entry<RenderNode>]) -> Option<&RenderNode>
    requires { flatten (forest_of nodes.now) ≡ nodes.now }
    ensures { MatchOption result (digits_of (forest_of nodes.now) ≡ None) (λ node. digits_of (forest_of nodes.now) ≡ digits_of_kind node.now.kind) }
{
    if nodes.len() == 1 {
        Some(&nodes[0].node)
    } else {
        None
    }
}

/// Whether a text has ASCII digits alone. An empty text does.
fn is_digits(text: &str) -> bool
    ensures { result ≡ list_all is_ascii_digit text.now }
{
    text.as_bytes().iter().all(|byte| byte.is_ascii_digit())
}

/// Returns the digits of a text of ASCII digits alone; `None` for any other node.
fn digits_of_kind(kind: &NodeKind) -> Option<&str>
    ensures { option_map (λ digits. digits.now) result ≡ digits_of_kind kind.now }
{
    match kind {
        NodeKind::Text(text) if is_digits(text.as_str()) => Some(text.as_str()),
        _ => None,
    }
}

/// Returns the digits of a superscript with these children; `None` unless they are a single text of ASCII digits alone.
pub fn digits_of(children: &[Entry<RenderNode>]) -> Option<&str>
    requires { flatten (forest_of children.now) ≡ children.now }
    ensures { option_map (λ digits. digits.now) result ≡ digits_of (forest_of children.now) }
{
    let child = only_node(children)?;
    digits_of_kind(&child.kind)
}

/// Returns the superscript character of an ASCII digit.
fn raised(digit: u8) -> char
    ensures { result ≡ raised digit }
{
    let value = usize::from(digit.saturating_sub(b'0'));
    match SUPERSCRIPTS.get(value) {
        Some(superscript) => *superscript,
        None => '\0',
    }
}

/// Returns digits as superscript characters.
fn raised_text(alloc: Global, digits: &str) -> Result<String, AllocError>
    ensures { IfOk result (λ text. chars (string_bytes text) ≡ map raised digits.now) }
{
    let mut text = String::new(alloc);
    for digit in digits.as_bytes() {
        text.push(raised(*digit))?;
    }
    Ok(text)
}

/// Adds digits as superscript characters, under the tag of the texts that follow.
///
/// # Errors
///
/// `TooNarrow` and `OutOfMemory`, as for [`add_text`].
#[tactic(auto, using(html_render_dom_values::specs::laws::Outcome::refusals))]
pub fn write_superscript<D: TextDecorator, G: Tagging<D::Annotation>>(
    alloc: Global,
    digits: &str,
    state: &mut State<D, G>,
) -> Result<(), Error>
    ensures { Gives result (write (by_tags D.decoration G.annotated) (map raised digits.now) state.old) state.new }
{
    let text = raised_text(alloc, digits)?;
    add_text(alloc, text.as_str(), state)
}
