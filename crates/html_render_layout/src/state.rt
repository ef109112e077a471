//! State of a layout, and the pending work of open nodes.

use crate::bullet::Bullet;
use html_render_dom_values::white_space::WhiteSpace;
use html_render_layout_estimates::settings::LayoutSettings;
use html_render_layout_nodes::tree::Emphasis;
use html_render_layout_tagged::laid_out::TextList;

/// Treatment of the texts that follow. After each node it is as it was before the node.
#[derive(Clone, Copy)]
pub struct TextContext<T> {
    /// Tag of the texts.
    pub tag: T,
    /// Treatment of white space.
    pub mode: WhiteSpace,
    /// Whether the texts are in a `pre`, so that the decorator annotates them as preformatted.
    pub preformatted: bool,
    /// Whether U+0336 follows each character that isn't collapsible white space. It is false in struck-out text too if
    /// `unicode_strikeout` is off.
    pub struck_out: bool,
}

/// State of a layout, with decorators `D`, a store of annotations `K`, tags `T` and blocks `B`.
#[derive(Drop)]
pub struct LayoutState<D, K, T, B> {
    /// Settings of the layout. They don't change.
    pub settings: LayoutSettings,
    /// Decorator of the current block.
    pub decorator: D,
    /// Annotation stacks that the tags refer to.
    pub stacks: K,
    /// Treatment of the texts that follow.
    pub text: TextContext<T>,
    /// Current block, which receives what is laid out.
    pub block: B,
    /// Tag without annotations, for fences, table borders and the padding of cells. It doesn't change.
    pub blank: T,
    /// Whether a table is open, so that the nodes that follow are in it.
    pub in_table: bool,
    /// Targets of the links so far, in the order in which they started.
    pub targets: TextList,
    /// Names of the fragment marks so far. A mark in a line is an index in this list.
    pub names: TextList,
}

/// A suspended block, with its decorator.
#[derive(Drop)]
pub struct Outer<D, B> {
    /// Decorator of the suspended block.
    pub decorator: D,
    /// The suspended block.
    pub block: B,
}

/// The block that an open node suspends: `P` if lines of a sub-block are appended to it after a prefix, and `B` if it has the
/// open table of a cell.
#[derive(Drop)]
pub enum Suspended<D, P, B> {
    /// None: the node is laid out into the block of its siblings.
    NoBlock,
    /// The block around a heading or a quote. Each line of the node is appended to it after the prefix.
    Quoted(Outer<D, P>),
    /// The block around a child of a list, or around a description. The node's first line is appended to it after the
    /// prefix, and later lines after spaces.
    Indented(Outer<D, P>),
    /// The block with the open table that the node is a cell of.
    Cell(Outer<D, B>),
}

/// Pending work of an open node, done after its children.
#[derive(Drop)]
pub struct OpenNode<D, T, P, B> {
    /// Block that the node suspends as a child of a list or as a cell of a table.
    pub item: Suspended<D, P, B>,
    /// Treatment of texts before the node, which is restored.
    pub text: TextContext<T>,
    /// Closing action of the node's kind.
    pub kind: CloseAction<D, T, P, B>,
}

/// Closing action of a kind of node, done after the node's children.
#[derive(Drop)]
pub enum CloseAction<D, T, P, B> {
    /// Resumes the outer block, if the node has a block of its own.
    Nothing(Suspended<D, P, B>),
    /// Marks the block as at its end.
    EndBlock,
    /// Begins a new line.
    NewLine,
    /// Writes the decorator's text after the emphasis.
    EndEmphasis(Emphasis),
    /// Does nothing: an unordered list. Each child is an item with a bullet.
    Bullets {
        /// Bullet of each item.
        bullet: Bullet,
        /// Minimum width of an item without its bullet, in columns.
        min_width: usize,
    },
    /// Does nothing: an ordered list. Each child is an item with its number.
    Numbers {
        /// Number of the first item.
        first: i64,
        /// Columns that each prefix is padded to.
        columns: usize,
        /// Minimum width of an item without its prefix, in columns.
        min_width: usize,
    },
    /// Writes the decorator's text after a struck-out part, and restores `struck_out` to this value first.
    EndStrikeout(bool),
    /// Writes the decorator's text after a superscript.
    EndSuperscript,
    /// Ends a link: writes the decorator's text after it, restores this treatment of texts, and writes this number if links
    /// have footnotes.
    EndLink(TextContext<T>, usize),
    /// Ends a table, and resumes the outer block if the table has a block of its own. The flag is whether the table is in
    /// another one, so that it has no fences.
    EndTable(Suspended<D, P, B>, bool),
    /// Ends a row of a table. Each child is a cell.
    EndRow,
}
