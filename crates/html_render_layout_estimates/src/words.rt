//! Words of texts and nodes: the columns between places where a line may break.
//!
//! `text_shape("Hello wide")` has 5 columns before the first break, 4 after the last, and no word between.

ghost use Rattle.std.specs.Prelude.{◌≡◌, ◌≤◌, drop, length};
ghost use Rattle.std.specs.Str.{chars, IsUtf8};
ghost use Rattle.html_render_layout_nodes.specs.Preorder.{flatten, forest_of};
ghost use Rattle.html_render_layout_estimates.specs.Words.{word_break, joined_shapes, longest_word, between, text_shape};
ghost use Rattle.html_render_layout_estimates.specs.WordSteps.{character_shape, shape_after, node_shape, enclosed, table_word};
ghost use Rattle.html_render_layout_estimates.specs.Words.{title_shape, siblings_shape, kind_shape};
ghost use Rattle.html_render_layout_estimates.specs.declared.words.WordShape.{WordShape};

use crate::settings::LayoutSettings;
use crate::text::{first_character, is_letter, is_space, letters_end};
use crate::trees::first_tree;
use html_render_dom_values::white_space::WhiteSpace;
use html_render_layout_lines::character::{is_collapsible, width_of};
use html_render_layout_nodes::tree::{Entry, NodeKind, RenderNode};
use html_render_parts_widths::ColumnNeed;

/// Words of a run of characters, in columns.
#[derive(Clone, Copy)]
pub enum WordShape {
    /// Columns of a run in which no line may break.
    Part(usize),
    /// A run in which a line may break.
    Broken {
        /// Columns before the first break.
        first: usize,
        /// Columns of the longest word between two breaks.
        longest: usize,
        /// Columns after the last break.
        last: usize,
    },
}

impl WordShape {
    /// Returns the shape of a place where a line may break.
    #[inline]
    fn word_break() -> WordShape
        ensures { result ≡ word_break }
    {
        WordShape::Broken {
            first: 0,
            longest: 0,
            last: 0,
        }
    }

    /// Returns the shape of this run and `next`, which follows it.
    #[inline]
    pub fn followed_by(self, next: WordShape) -> WordShape
        ensures { result ≡ joined_shapes self next }
    {
        match (self, next) {
            (WordShape::Part(before), WordShape::Part(behind)) => {
                WordShape::Part(before.saturating_add(behind))
            }
            (
                WordShape::Part(before),
                WordShape::Broken {
                    first,
                    longest,
                    last,
                },
            ) => WordShape::Broken {
                first: before.saturating_add(first),
                longest,
                last,
            },
            (
                WordShape::Broken {
                    first,
                    longest,
                    last,
                },
                WordShape::Part(behind),
            ) => WordShape::Broken {
                first,
                longest,
                last: last.saturating_add(behind),
            },
            (
                WordShape::Broken {
                    first,
                    longest,
                    last,
                },
                WordShape::Broken {
                    first: next,
                    longest: further,
                    last: end,
                },
            ) => WordShape::Broken {
                first,
                longest: longest.max(further.max(last.saturating_add(next))),
                last: end,
            },
        }
    }

    /// Returns the columns of the longest word if lines break before and after this run.
    pub fn longest_word(self) -> usize
        ensures { result ≡ longest_word self }
    {
        match self {
            WordShape::Part(columns) => columns,
            WordShape::Broken {
                first,
                longest,
                last,
            } => longest.max(first.max(last)),
        }
    }

    /// Returns the shape of this run between parts of words of these columns.
    fn between(self, before: usize, behind: usize) -> WordShape
        ensures { result ≡ between before behind self }
    {
        WordShape::Part(before)
            .followed_by(self)
            .followed_by(WordShape::Part(behind))
    }

    /// Returns the shape of a block of this run, whose lines have a prefix of `prefix` columns.
    fn enclosed(self, prefix: usize) -> WordShape
        ensures { result ≡ enclosed prefix self }
    {
        WordShape::Broken {
            first: 0,
            longest: self.longest_word().saturating_add(prefix),
            last: 0,
        }
    }
}

/// Returns the shape of a character: a break for collapsible white space and U+200B.
#[inline]
fn character_shape(c: char) -> WordShape
    ensures { result ≡ character_shape c }
{
    if is_collapsible(c) || c == '\u{200B}' {
        WordShape::word_break()
    } else {
        WordShape::Part(width_of(c))
    }
}

/// Start of a text that is read by bytes.
#[derive(Clone, Copy)]
struct ShapedStart {
    /// Its shape.
    shape: WordShape,
    /// Number of its bytes.
    len: usize,
}

/// Returns the shape of a text up to its first byte that isn't printable ASCII, a space or a newline.
#[inline]
fn ascii_start(text: &[u8]) -> ShapedStart
    ensures { 1 ≤ result.len → (before : WordShape) →
        shape_after before (chars text.now) ≡ shape_after (joined_shapes before result.shape) (chars (drop result.len text.now)) }
{
    let first = letters_end(text, 0);
    if first >= text.len() || !is_space(text[first]) {
        return ShapedStart {
            shape: WordShape::Part(first),
            len: first,
        };
    }
    let mut at = first + 1;
    let mut longest: usize = 0;
    let mut last = 0;
    while at < text.len() {
        let byte = text[at];
        if is_letter(byte) {
            last += 1;
            at += 1;
        } else if is_space(byte) {
            longest = longest.max(last);
            last = 0;
            at += 1;
        } else {
            break;
        }
    }
    let shape = WordShape::Broken {
        first,
        longest,
        last,
    };
    ShapedStart { shape, len: at }
}

/// Joins the start of a text to `before`, as far as it can be read by bytes. Returns the shape and the rest.
#[inline]
fn split_shape(before: WordShape, text: &str) -> (WordShape, &str)
    ensures shape { shape_after before (chars text.now) ≡ shape_after result.0 (chars result.1.now) }
    ensures shorter { length result.1.now ≤ length text.now }
    ensures text { IsUtf8 result.1.now }
{
    let start = ascii_start(text.as_bytes());
    if start.len == 0 {
        return (before, text);
    }
    match text.split_at_checked(start.len) {
        Some((_, rest)) => (before.followed_by(start.shape), rest),
        None => (before, text),
    }
}

/// Returns the shape of a text.
pub fn text_shape(text: &str) -> WordShape
    ensures { result ≡ text_shape (chars text.now) }
{
    let (mut shape, mut rest) = split_shape(WordShape::Part(0), text);
    while let Some((c, behind)) = first_character(rest) {
        let (next, other) = split_shape(shape.followed_by(character_shape(c)), behind);
        shape = next;
        rest = other;
    }
    shape
}

/// Returns the shape of an image or a drawing by its title, with one column on each side. Without a title it shows nothing.
fn title_shape(title: &str) -> WordShape
    ensures { result ≡ title_shape title.now }
{
    if title.is_empty() {
        WordShape::Part(0)
    } else {
        text_shape(title).between(1, 1)
    }
}

/// Returns the shape of the trees beside each other in a slice of shapes.
fn siblings_shape(trees: &[Entry<WordShape>]) -> WordShape
    requires { flatten (forest_of trees.now) ≡ trees.now }
    ensures { result ≡ siblings_shape (forest_of trees.now) }
{
    let mut shape = WordShape::Part(0);
    let mut rest = trees;
    while let Some(first) = first_tree(rest) {
        shape = shape.followed_by(*first.node);
        rest = first.beside;
    }
    shape
}

/// Returns the columns at which a table cuts no word: those at which its columns cut none, and the separators.
fn table_word(needs: &[ColumnNeed]) -> usize
    ensures { result ≡ table_word needs.now }
{
    let mut columns = needs.len().saturating_sub(1);
    for need in needs {
        columns = columns.saturating_add(need.min_width.max(need.longest_word));
    }
    columns
}

/// Returns the shape of a kind of node over the shapes of its children. `prefix` is the columns of its prefix.
fn kind_shape(
    settings: &LayoutSettings,
    kind: &NodeKind,
    prefix: usize,
    below: &[Entry<WordShape>],
) -> WordShape
    requires { flatten (forest_of below.now) ≡ below.now }
    ensures { result ≡ kind_shape settings.now kind.now prefix (forest_of below.now) }
{
    match kind {
        NodeKind::Text(text) => text_shape(text.as_str()),
        NodeKind::Image(image) => title_shape(image.title().as_str()),
        NodeKind::Svg(title) => title_shape(title.as_str()),
        NodeKind::FragmentStart(_) => WordShape::Part(0),
        NodeKind::Break => WordShape::word_break(),
        NodeKind::Container | NodeKind::Emphasis(_) | NodeKind::Strikeout => siblings_shape(below),
        NodeKind::Superscript => siblings_shape(below).between(2, 1),
        NodeKind::Link(_) => {
            let behind = if settings.link_footnotes { 4 } else { 1 };
            siblings_shape(below).between(1, behind)
        }
        NodeKind::Table(grid) => WordShape::Broken {
            first: 0,
            longest: table_word(grid.needs()),
            last: 0,
        },
        _ => siblings_shape(below).enclosed(prefix),
    }
}

/// Returns the shape of a measured node over the shapes of its children. A table has the longest words of its columns.
///
/// A node in which white space is preserved is a break, since its lines may break at each character.
pub fn node_shape(
    settings: &LayoutSettings,
    node: &RenderNode,
    below: &[Entry<WordShape>],
) -> WordShape
    requires { flatten (forest_of below.now) ≡ below.now }
    ensures { result ≡ node_shape settings.now node.now (forest_of below.now) }
{
    match node.style.white_space {
        WhiteSpace::Pre => WordShape::word_break(),
        _ => kind_shape(settings, &node.kind, node.estimate.prefix, below),
    }
}
