//! Properties of each kind of node: its name in a dump, whether it accepts insertions, and its copy.

ghost use Rattle.std.specs.Prelude.{◌≡◌, IfOk};
ghost use Rattle.html_render_layout_nodes.specs.Kinds.{holds_insertions, kind_name};

use super::{Emphasis, Grid, Image, NodeKind};
use std::alloc::{AllocError, Global};

impl Image {
    /// Returns a copy of the image.
    fn try_clone(&self, alloc: Global) -> Result<Image, AllocError>
        ensures { IfOk result (λ image. image ≡ self.now) }
    {
        let source = self.source().clone()?;
        let title = self.title().clone()?;
        Image::new(alloc, source, title)
    }
}

impl Grid {
    /// Returns a copy of the grid.
    fn try_clone(&self, alloc: Global) -> Result<Grid, AllocError>
        ensures { IfOk result (λ grid. grid ≡ self.now) }
    {
        let cells = self.cells().try_clone()?;
        let needs = Vec::from_slice(alloc, self.needs())?;
        let mut grid = Grid::new(alloc, cells)?;
        grid.set_needs(needs);
        Ok(grid)
    }
}

impl NodeKind {
    /// Returns the name of the kind in a dump.
    pub(super) fn name(&self) -> &'static str
        ensures { result.now ≡ kind_name self.now }
    {
        match self {
            NodeKind::Text(_) => "Text",
            NodeKind::Container => "Container",
            NodeKind::Break => "Break",
            NodeKind::Block => "Block",
            NodeKind::Div => "Div",
            NodeKind::Emphasis(Emphasis::Em) => "Em",
            NodeKind::Emphasis(Emphasis::Strong) => "Strong",
            NodeKind::Emphasis(Emphasis::Code) => "Code",
            NodeKind::Header(_) => "Header",
            NodeKind::BlockQuote => "BlockQuote",
            NodeKind::Ul => "Ul",
            NodeKind::Ol(_) => "Ol",
            NodeKind::ListItem => "ListItem",
            NodeKind::Dl => "Dl",
            NodeKind::Dt => "Dt",
            NodeKind::Dd => "Dd",
            NodeKind::Strikeout => "Strikeout",
            NodeKind::Superscript => "Sup",
            NodeKind::Link(_) => "Link",
            NodeKind::Image(_) => "Img",
            NodeKind::Svg(_) => "Svg",
            NodeKind::FragmentStart(_) => "FragStart",
            NodeKind::Table(_) => "Table",
            NodeKind::TableRow => "TableRow",
            NodeKind::TableCell => "TableCell",
        }
    }

    /// Reports whether content that is inserted at a node of this kind goes among its children.
    ///
    /// Otherwise the content is put beside the node, in a new container around both.
    pub fn holds_insertions(&self) -> bool
        ensures { result ≡ holds_insertions self.now }
    {
        matches!(
            self,
            NodeKind::Container
                | NodeKind::Block
                | NodeKind::Div
                | NodeKind::BlockQuote
                | NodeKind::ListItem
                | NodeKind::Dl
                | NodeKind::Dt
                | NodeKind::Dd
        )
    }

    /// Returns a copy of the kind.
    pub fn try_clone(&self, alloc: Global) -> Result<NodeKind, AllocError>
        ensures { IfOk result (λ kind. kind ≡ self.now) }
    {
        Ok(match self {
            NodeKind::Text(text) => NodeKind::Text(text.clone()?),
            NodeKind::Container => NodeKind::Container,
            NodeKind::Break => NodeKind::Break,
            NodeKind::Block => NodeKind::Block,
            NodeKind::Div => NodeKind::Div,
            NodeKind::Emphasis(emphasis) => NodeKind::Emphasis(*emphasis),
            NodeKind::Header(level) => NodeKind::Header(*level),
            NodeKind::BlockQuote => NodeKind::BlockQuote,
            NodeKind::Ul => NodeKind::Ul,
            NodeKind::Ol(first) => NodeKind::Ol(*first),
            NodeKind::ListItem => NodeKind::ListItem,
            NodeKind::Dl => NodeKind::Dl,
            NodeKind::Dt => NodeKind::Dt,
            NodeKind::Dd => NodeKind::Dd,
            NodeKind::Strikeout => NodeKind::Strikeout,
            NodeKind::Superscript => NodeKind::Superscript,
            NodeKind::Link(target) => NodeKind::Link(target.clone()?),
            NodeKind::Image(image) => NodeKind::Image(image.try_clone(alloc)?),
            NodeKind::Svg(title) => NodeKind::Svg(title.clone()?),
            NodeKind::FragmentStart(name) => NodeKind::FragmentStart(name.clone()?),
            NodeKind::Table(grid) => NodeKind::Table(grid.try_clone(alloc)?),
            NodeKind::TableRow => NodeKind::TableRow,
            NodeKind::TableCell => NodeKind::TableCell,
        })
    }
}
