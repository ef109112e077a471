//! Render trees: forests as one vector of nodes in pre-order.

ghost use Rattle.std.specs.Prelude.{◌≡◌, IfOk};
ghost use Rattle.html_render_layout_nodes.specs.Preorder.{flatten, forest_of};
ghost use Rattle.html_render_layout_nodes.specs.Tables.{unmeasured_table};

use crate::text::NodeText;
use html_render_dom_values::colours::Colour;
use html_render_dom_values::white_space::WhiteSpace;
use html_render_parts::table::cells::TableCells;
use html_render_parts_widths::ColumnNeed;
use std::alloc::{AllocError, Global};
use std::marker::Model;

/// A node with the size of its subtree, in a vector in pre-order.
#[derive(Drop)]
pub struct Entry<N> {
    /// The node.
    pub node: N,
    /// Number of nodes in its subtree, itself included.
    pub subtree_len: usize,
}

/// A forest: trees beside each other, as one vector of nodes in pre-order. Dropping it doesn't recurse.
#[derive(Drop)]
pub struct PreorderForest<N> {
    /// Nodes in pre-order.
    entries: Vec<Entry<N>>,
}

impl<N> Model for PreorderForest<N> {
    ghost use Rattle.std.specs.Prelude.{◌≡◌, List};
    ghost use Rattle.std.specs.Coded.{codes, code_by, coded_list};
    ghost use Rattle.html_render_dom_values.specs.Forest.{Forest};
    ghost use Rattle.html_render_layout_nodes.specs.declared.tree.Entry.{Entry};
    ghost use Rattle.html_render_layout_nodes.specs.Preorder.{forest_of, flatten};
    ghost use Rattle.html_render_layout_nodes.specs.laws.Preorder.{forest_of-flatten};

    ghost Value = { Forest N };

    ghost coded = { code_by (List (Entry N)) (coded_list (Prim.hlevel (codes, N.code))) flatten forest_of forest_of-flatten };

    ghost view = { λ f. forest_of f.entries.items };

    ghost invariant = { λ f. flatten (forest_of f.entries.items) ≡ f.entries.items };
}

impl<N> PreorderForest<N> {
    /// Returns the nodes in pre-order, each with the size of its subtree.
    pub fn entries(&self) -> &[Entry<N>]
        ensures { result.now ≡ flatten self.now }
    {
        self.entries.as_slice()
    }

    /// Converts the forest into its nodes in pre-order.
    pub fn into_entries(self) -> Vec<Entry<N>>
        ensures { result.items ≡ flatten self }
    {
        self.entries
    }

    /// Creates the forest of these nodes in pre-order. The caller ensures that the sizes of subtrees are those of a forest.
    pub fn from_entries(entries: Vec<Entry<N>>) -> PreorderForest<N>
        requires { flatten (forest_of entries.items) ≡ entries.items }
        ensures { result ≡ forest_of entries.items }
    {
        PreorderForest { entries }
    }
}

/// Kind of emphasis of a part of a line.
#[derive(Clone, Copy)]
pub enum Emphasis {
    /// Emphasis: HTML's `em`, `i` and `ins`.
    Em,
    /// Strong importance: HTML's `strong` and `b`.
    Strong,
    /// Code: HTML's `code`.
    Code,
}

/// Kind of a render node, with its own data.
#[derive(Drop)]
pub enum NodeKind {
    /// A text.
    Text(NodeText),
    /// A container: its children, without a block of its own.
    Container,
    /// A line break.
    Break,
    /// A block, with an empty line between it and preceding lines.
    Block,
    /// A division: it begins a line and ends with one.
    Div,
    /// A part of a line between the decorator's texts for this emphasis.
    Emphasis(Emphasis),
    /// A heading of this level.
    Header(usize),
    /// A quote.
    BlockQuote,
    /// A list without numbers. Each child is laid out as an item.
    Ul,
    /// A numbered list. Each child is laid out as an item; the number is the first item's.
    Ol(i64),
    /// Contents of an item of a list.
    ListItem,
    /// A list of descriptions.
    Dl,
    /// A term of a list of descriptions.
    Dt,
    /// A description of a list of descriptions.
    Dd,
    /// Struck-out text between the decorator's texts for it.
    Strikeout,
    /// A superscript.
    Superscript,
    /// A link to this target.
    Link(NodeText),
    /// An image.
    Image(Image),
    /// A drawing with this title.
    Svg(NodeText),
    /// A fragment mark of this name. It shows nothing.
    FragmentStart(NodeText),
    /// A table, whose children are its rows, with the places of its cells on its grid.
    Table(Grid),
    /// A row of a table, whose children are its cells.
    TableRow,
    /// A cell of a row.
    TableCell,
}

/// Cells of a table on the columns of its grid, and the widths that these columns need.
#[derive(Drop)]
pub struct GridParts {
    /// Cells, row by row.
    pub cells: TableCells,
    /// Widths that each column needs for its cells; empty until the node is measured.
    pub needs: Vec<ColumnNeed>,
}

/// Data of a table's node, boxed so that moving a node is cheap.
#[derive(Drop)]
pub struct Grid {
    parts: Box<GridParts>,
}

impl Model for Grid {
    ghost use Rattle.html_render_layout_nodes.specs.Tables.{TableParts};

    ghost Value = { TableParts };

    ghost view = { λ g. record { cells = g.parts.value.cells; needs = g.parts.value.needs.items } };
}

impl Grid {
    /// Creates an unmeasured table of these cells.
    pub fn new(alloc: Global, cells: TableCells) -> Result<Grid, AllocError>
        ensures { IfOk result (λ g. g ≡ unmeasured_table cells) }
    {
        let needs = Vec::new(alloc);
        let parts = Box::new(alloc, GridParts { cells, needs })?;
        Ok(Grid { parts })
    }

    /// Returns the cells, row by row.
    pub fn cells(&self) -> &TableCells
        ensures { result.now ≡ self.now.cells }
    {
        &self.parts.cells
    }

    /// Returns the widths that each column needs for its cells; empty until the node is measured.
    pub fn needs(&self) -> &[ColumnNeed]
        ensures { result.now ≡ self.now.needs }
    {
        self.parts.needs.as_slice()
    }

    /// Sets the widths that the columns need.
    pub fn set_needs(&mut self, needs: Vec<ColumnNeed>)
        ensures { self.new ≡ record self.old { needs = needs.items } }
    {
        self.parts.needs = needs;
    }
}

/// Source and title of an image.
#[derive(Drop)]
pub struct ImageParts {
    /// Address of the image.
    pub source: NodeText,
    /// Title, which may be empty.
    pub title: NodeText,
}

/// An image, boxed so that moving a node is cheap.
#[derive(Drop)]
pub struct Image {
    parts: Box<ImageParts>,
}

impl Model for Image {
    ghost use Rattle.html_render_layout_nodes.specs.declared.tree.ImageParts.{ImageParts};

    ghost Value = { ImageParts };

    ghost view = { λ i. i.parts.value };
}

impl Image {
    /// Creates an image of this source and title.
    pub fn new(alloc: Global, source: NodeText, title: NodeText) -> Result<Image, AllocError>
        ensures { IfOk result (λ i. i ≡ record { source = source; title = title }) }
    {
        let parts = Box::new(alloc, ImageParts { source, title })?;
        Ok(Image { parts })
    }

    /// Returns the address of the image.
    pub fn source(&self) -> &NodeText
        ensures { result.now ≡ self.now.source }
    {
        &self.parts.source
    }

    /// Returns the title, which may be empty.
    pub fn title(&self) -> &NodeText
        ensures { result.now ≡ self.now.title }
    {
        &self.parts.title
    }
}

/// Style of a render node, from the style of its element.
///
/// [`NodeStyle::default`] sets nothing. It is the style of texts of the document, fragment marks, inserted content and the
/// containers that are created for it.
#[derive(Clone, Copy, Default, PartialEq, Eq)]
pub struct NodeStyle {
    /// Colour of the text; `None` if unset.
    pub colour: Option<Colour>,
    /// Colour of the background; `None` if unset.
    pub background: Option<Colour>,
    /// Treatment of white space. [`WhiteSpace::Normal`] keeps that of the surrounding node.
    pub white_space: WhiteSpace,
    /// Whether texts are preformatted, as in HTML's `pre`. `false` keeps that of the surrounding node.
    pub preformatted: bool,
}

/// Measured widths of a node. [`Estimate::default`], with 0 throughout, is that of an unmeasured node.
#[derive(Clone, Copy, Default)]
pub struct Estimate {
    /// Minimum width, in columns.
    pub min_width: usize,
    /// Preferred width, in columns. It is left 0 in a tree without a table, which doesn't need it.
    pub preferred_width: usize,
    /// Columns of the prefix of its lines.
    pub prefix: usize,
    /// Number of its children.
    pub children: usize,
}

/// A node of a render tree.
#[derive(Drop)]
pub struct RenderNode {
    /// Kind of the node, with its own data.
    pub kind: NodeKind,
    /// Style from its element.
    pub style: NodeStyle,
    /// Measured widths.
    pub estimate: Estimate,
}

impl From<NodeKind> for RenderNode {
    ghost use Rattle.html_render_layout_nodes.specs.RenderNodes.{without_style};

    ghost from_gives = { λ k n. n ≡ without_style k };

    /// Creates an unmeasured node without a style.
    fn from(kind: NodeKind) -> RenderNode {
        RenderNode {
            kind,
            style: NodeStyle::default(),
            estimate: Estimate::default(),
        }
    }
}

/// Render tree of a document, ready for layout.
#[derive(Drop)]
pub struct RenderTree {
    /// Nodes in pre-order.
    nodes: PreorderForest<RenderNode>,
}

impl Model for RenderTree {
    ghost use Rattle.std.specs.Prelude.{◌≡◌, List};
    ghost use Rattle.std.specs.Coded.{codes, code_by, coded_list};
    ghost use Rattle.html_render_dom_values.specs.Forest.{Forest};
    ghost use Rattle.html_render_layout_nodes.specs.declared.tree.Entry.{Entry};
    ghost use Rattle.html_render_layout_nodes.specs.declared.tree.RenderNode.{RenderNode};
    ghost use Rattle.html_render_layout_nodes.specs.Preorder.{forest_of, flatten};
    ghost use Rattle.html_render_layout_nodes.specs.laws.Preorder.{forest_of-flatten};

    ghost Value = { Forest RenderNode };

    ghost coded = { code_by (List (Entry RenderNode)) (coded_list (Prim.hlevel codes)) flatten forest_of forest_of-flatten };

    ghost view = { λ t. t.nodes };
}

impl RenderTree {
    /// Creates a render tree from its nodes.
    pub fn new(nodes: PreorderForest<RenderNode>) -> RenderTree
        ensures { result ≡ nodes }
    {
        RenderTree { nodes }
    }

    /// Returns the nodes.
    pub fn nodes(&self) -> &PreorderForest<RenderNode>
        ensures { result.now ≡ self.now }
    {
        &self.nodes
    }

    /// Converts the tree into its nodes.
    pub fn into_nodes(self) -> PreorderForest<RenderNode>
        ensures { result ≡ self }
    {
        self.nodes
    }
}

mod copies;
mod depths;
mod dump;
mod kinds;
