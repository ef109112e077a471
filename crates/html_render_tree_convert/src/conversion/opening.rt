//! Elements that open: their nodes, what they insert in front of their children, and what is due in them.

ghost use Rattle.std.specs.Prelude.{◌≡◌, ◌++◌, IfOk, None, OnOk, option_copied, true};
ghost use Rattle.html_render_tree_convert.specs.ElementTexts.{has_any, no_texts};
ghost use Rattle.html_render_tree_convert.specs.Held.{held_back, insertion_in, nothing_held, text_nodes};
ghost use Rattle.html_render_tree_convert.specs.Plans.{element_of};
ghost use Rattle.html_render_tree_convert.specs.Steps.{all_parted, begun_over, emptied, left, node_in, opened};
ghost use Rattle.html_render_tree_convert.specs.Steps.{taken, taken_own, without_captions, without_own};

use super::Conversion;
use crate::builder::{Tree, put_text, take_inside};
use crate::due::{Due, DueParts, InsertedNodes, put_all, put_texts};
use crate::elements::{Open, OpenKind};
use crate::kinds::Keeping;
use crate::mapping::{ElementKind, IfEmpty, node_style};
use crate::plans::{Element, ElementTexts, copy_of};
use crate::tables::{CellSpan, Part};
use html_render_dom::style::ComputedStyle;
use html_render_layout_nodes::text::NodeText;
use html_render_layout_nodes::tree::{Estimate, NodeKind, NodeStyle, RenderNode};
use html_render_parts::table::spans::{PartRows, RowCells, TableSpans};
use std::alloc::{AllocError, Global};

/// Returns an unmeasured node of a style.
fn node_in(style: NodeStyle, kind: NodeKind) -> RenderNode
    ensures { result ≡ node_in style kind }
{
    RenderNode {
        kind,
        style,
        estimate: Estimate::default(),
    }
}

/// Begins the rows of a table without a caption. What is written in it is due in its first cell.
fn make_parts(alloc: Global, table: &mut Open, tree: &mut Tree) -> Result<(), AllocError>
    ensures { OnOk result (record { element = table.new; tree = tree.new.items }
        ≡ without_captions (record { element = table.old; tree = tree.old.items })) }
{
    let front = take_inside(alloc, tree, table.start)?;
    table.kind = OpenKind::Parts(TableSpans::new(alloc));
    let InsertedNodes {
        front: _written,
        back,
    } = table.due.take_own(alloc)?;
    table.due.set_own(alloc, InsertedNodes { front, back })
}

impl Conversion {
    /// Opens an element over a node that writes these texts in front of its children, and the rest after them.
    fn hold(
        &mut self,
        alloc: Global,
        mut element: Open,
        node: RenderNode,
        texts: ElementTexts,
    ) -> Result<(), AllocError>
        ensures { OnOk result (self.new ≡ begun_over (record element { due = held_back texts.mark (text_nodes NodeKind.Text texts.after) })
            node (text_nodes NodeKind.FragmentStart texts.mark ++ text_nodes NodeKind.Text texts.before) self.old) }
    {
        let ElementTexts {
            mark,
            before,
            after,
        } = texts;
        let written = copy_of(mark.as_ref())?;
        element.due = Due::held_back(alloc, mark, after, &mut self.spare)?;
        self.begin(element, node)?;
        put_texts(written, before, &mut self.tree)
    }

    /// Opens an element over a node that writes the content before its children and the one after them, copied.
    #[inline(always)]
    fn hold_contents(
        &mut self,
        alloc: Global,
        mut element: Open,
        node: RenderNode,
        before: Option<&NodeText>,
        after: Option<&NodeText>,
    ) -> Result<(), AllocError>
        ensures { OnOk result (self.new ≡ begun_over (record element { due = held_back None (text_nodes NodeKind.Text (option_copied after.entry)) })
            node (text_nodes NodeKind.Text (option_copied before.entry)) self.old) }
    {
        let after = copy_of(after)?;
        element.due = Due::held_back(alloc, None, after, &mut self.spare)?;
        self.begin(element, node)?;
        if let Some(text) = before {
            put_text(text, &mut self.tree)?;
        }
        Ok(())
    }

    /// Opens an element that becomes a node and inserts nothing.
    #[tactic(auto, unfolding(crate::specs::Steps::opened))]
    #[inline(always)]
    fn open_node(
        &mut self,
        kind: NodeKind,
        style: NodeStyle,
        if_empty: IfEmpty,
    ) -> Result<(), AllocError>
        ensures { OnOk result (self.new ≡ opened (record { kind = ElementKind.Node kind; style = style; if_empty = if_empty; texts = no_texts }) self.old) }
    {
        let keeping = Keeping::of(&kind);
        let open = Open::new(OpenKind::Node(keeping), Due::none(), if_empty, false);
        self.begin_kind(open, style, kind)
    }

    /// Opens a cell of a row that inserts nothing, in an element that has nothing to write.
    #[tactic(auto, unfolding(crate::specs::Steps::opened))]
    #[inline(always)]
    fn open_plain_cell(&mut self, span: CellSpan, style: NodeStyle) -> Result<(), AllocError>
        requires { self.old.element.due ≡ nothing_held }
        ensures { (if_empty : IfEmpty) → OnOk result (self.new
            ≡ opened (record { kind = ElementKind.Part (Part.Cell span); style = style; if_empty = if_empty; texts = no_texts }) self.old) }
    {
        let open = Open::new(OpenKind::Cell(span), Due::none(), IfEmpty::Stands, false);
        self.begin_kind(open, style, NodeKind::TableCell)
    }

    /// Opens a row of a table that inserts nothing, in an element that has nothing to write.
    #[tactic(auto, unfolding(crate::specs::Steps::opened))]
    #[inline(always)]
    fn open_plain_row(&mut self, alloc: Global, style: NodeStyle) -> Result<(), AllocError>
        requires { self.old.element.due ≡ nothing_held }
        ensures { (if_empty : IfEmpty) → OnOk result (self.new
            ≡ opened (record { kind = ElementKind.Part Part.Row; style = style; if_empty = if_empty; texts = no_texts }) self.old) }
    {
        let row = OpenKind::Row(RowCells::new(alloc));
        let open = Open::new(row, Due::none(), IfEmpty::Stands, false);
        self.begin_kind(open, style, NodeKind::TableRow)
    }

    /// Opens a part of a table that inserts nothing, in an element that has nothing to write.
    #[tactic(auto, unfolding(crate::specs::Steps::opened))]
    #[inline(always)]
    fn open_plain_rows(&mut self, alloc: Global, if_empty: IfEmpty) -> Result<(), AllocError>
        requires { self.old.element.due ≡ nothing_held }
        ensures { (style : NodeStyle) → OnOk result (self.new
            ≡ opened (record { kind = ElementKind.Part Part.Body; style = style; if_empty = if_empty; texts = no_texts }) self.old) }
    {
        let rows = OpenKind::Rows(PartRows::new(alloc));
        self.begin_part(Open::new(rows, Due::none(), if_empty, false))
    }

    /// Opens a table that inserts nothing, and whose captions come next.
    #[tactic(auto, unfolding(crate::specs::Steps::opened))]
    #[inline(always)]
    fn open_plain_table(&mut self, style: NodeStyle, if_empty: IfEmpty) -> Result<(), AllocError>
        ensures { OnOk result (self.new
            ≡ opened (record { kind = ElementKind.Part Part.Table; style = style; if_empty = if_empty; texts = no_texts }) self.old) }
    {
        let open = Open::new(OpenKind::Captions, Due::none(), if_empty, true);
        self.begin_kind(open, style, NodeKind::Container)
    }

    /// Opens an element that inserts nothing.
    #[inline(always)]
    pub fn open_plain(
        &mut self,
        alloc: Global,
        kind: ElementKind,
        style: NodeStyle,
        if_empty: IfEmpty,
    ) -> Result<(), AllocError>
        ensures { OnOk result (self.new ≡ opened (record { kind = kind; style = style; if_empty = if_empty; texts = no_texts }) self.old) }
    {
        match kind {
            ElementKind::Node(kind) => self.open_node(kind, style, if_empty),
            ElementKind::Part(Part::Cell(span)) if self.innermost.due.is_none() => {
                self.open_plain_cell(span, style)
            }
            ElementKind::Part(part) => self.open_plain_part(alloc, part, style, if_empty),
        }
    }

    /// Opens a part of a table, or a table, that inserts nothing.
    #[inline(never)]
    fn open_plain_part(
        &mut self,
        alloc: Global,
        part: Part,
        style: NodeStyle,
        if_empty: IfEmpty,
    ) -> Result<(), AllocError>
        ensures { OnOk result (self.new
            ≡ opened (record { kind = ElementKind.Part part; style = style; if_empty = if_empty; texts = no_texts }) self.old) }
    {
        let is_due = !self.innermost.due.is_none();
        match part {
            Part::Row if !is_due => self.open_plain_row(alloc, style),
            Part::Body if !is_due => self.open_plain_rows(alloc, if_empty),
            Part::Table => self.open_plain_table(style, if_empty),
            _ => self.open_part(alloc, part, style, if_empty, ElementTexts::none()),
        }
    }

    /// Opens an element that becomes a node and inserts these texts: in the node, or round it in a container that closes with it.
    #[tactic(auto, unfolding(crate::specs::Steps::opened))]
    #[inline(never)]
    fn open_inserting(
        &mut self,
        alloc: Global,
        kind: NodeKind,
        style: NodeStyle,
        if_empty: IfEmpty,
        texts: ElementTexts,
    ) -> Result<(), AllocError>
        requires { has_any texts ≡ true }
        ensures { OnOk result (self.new ≡ opened (record { kind = ElementKind.Node kind; style = style; if_empty = if_empty; texts = texts }) self.old) }
    {
        let keeping = Keeping::of(&kind);
        if kind.holds_insertions() {
            let open = Open::new(OpenKind::Node(keeping), Due::none(), if_empty, true);
            return self.hold(alloc, open, node_in(style, kind), texts);
        }
        let container = OpenKind::Node(Keeping::Any);
        let container = Open::new(container, Due::none(), if_empty, true);
        self.hold(
            alloc,
            container,
            RenderNode::from(NodeKind::Container),
            texts,
        )?;
        let mut open = Open::new(OpenKind::Node(keeping), Due::none(), if_empty, false);
        open.is_wrapped = true;
        self.begin_kind(open, style, kind)
    }

    /// Takes the own insertion of the innermost open element, if this is of the right kind.
    fn take_own(&mut self, alloc: Global, is_taken: bool) -> Result<InsertedNodes, AllocError>
        ensures own { IfOk result (λ i. insertion_in i ≡ taken_own is_taken self.old.element) }
        ensures left { OnOk result (self.new ≡ left is_taken without_own self.old) }
    {
        if !is_taken {
            return Ok(InsertedNodes::new(alloc));
        }
        self.innermost.due.take_own(alloc)
    }

    /// Takes what is due in the innermost open element, if this is of the right kind.
    fn take_due(&mut self, alloc: Global, is_taken: bool) -> Result<InsertedNodes, AllocError>
        ensures due { IfOk result (λ i. insertion_in i ≡ taken is_taken self.old.element) }
        ensures left { OnOk result (self.new ≡ left is_taken emptied self.old) }
    {
        if !is_taken {
            return Ok(InsertedNodes::new(alloc));
        }
        self.innermost.due.take(alloc)
    }

    /// Opens a part of a table.
    #[tactic(auto, unfolding(crate::specs::Steps::opened))]
    #[inline(never)]
    fn open_rows(
        &mut self,
        alloc: Global,
        if_empty: IfEmpty,
        texts: ElementTexts,
    ) -> Result<(), AllocError>
        ensures { (style : NodeStyle) → OnOk result (self.new
            ≡ opened (record { kind = ElementKind.Part Part.Body; style = style; if_empty = if_empty; texts = texts }) self.old) }
    {
        let in_table = matches!(self.innermost.kind, OpenKind::Parts(_));
        let given = self.take_own(alloc, in_table)?;
        let due = Due::carried(alloc, texts, InsertedNodes::new(alloc), given)?;
        let rows = OpenKind::Rows(PartRows::new(alloc));
        self.begin_part(Open::new(rows, due, if_empty, false))
    }

    /// Opens a row of a table.
    #[tactic(auto, unfolding(crate::specs::Steps::opened))]
    fn open_row(
        &mut self,
        alloc: Global,
        style: NodeStyle,
        texts: ElementTexts,
    ) -> Result<(), AllocError>
        ensures { (if_empty : IfEmpty) → OnOk result (self.new
            ≡ opened (record { kind = ElementKind.Part Part.Row; style = style; if_empty = if_empty; texts = texts }) self.old) }
    {
        let in_rows = matches!(self.innermost.kind, OpenKind::Rows(_));
        let outer = self.take_due(alloc, in_rows)?;
        let due = Due::carried(alloc, texts, outer, InsertedNodes::new(alloc))?;
        let row = OpenKind::Row(RowCells::new(alloc));
        let open = Open::new(row, due, IfEmpty::Stands, false);
        self.begin_kind(open, style, NodeKind::TableRow)
    }

    /// Opens a cell of a row.
    #[tactic(auto, using(crate::proofs::Entries::leaves_append), unfolding(crate::specs::Steps::opened))]
    fn open_cell(
        &mut self,
        alloc: Global,
        span: CellSpan,
        style: NodeStyle,
        texts: ElementTexts,
    ) -> Result<(), AllocError>
        ensures { (if_empty : IfEmpty) → OnOk result (self.new
            ≡ opened (record { kind = ElementKind.Part (Part.Cell span); style = style; if_empty = if_empty; texts = texts }) self.old) }
    {
        let inserts = texts.has_any();
        let ElementTexts {
            mark,
            before,
            after,
        } = texts;
        let in_row = matches!(self.innermost.kind, OpenKind::Row(_));
        let InsertedNodes { front, back } = self.take_due(alloc, in_row)?;
        let written = copy_of(mark.as_ref())?;
        let own = InsertedNodes {
            front: Vec::new(alloc),
            back,
        };
        let parts = DueParts {
            mark,
            after,
            own,
            given: InsertedNodes::new(alloc),
        };
        let due = Due::new(alloc, parts)?;
        let cell = Open::new(OpenKind::Cell(span), due, IfEmpty::Stands, inserts);
        self.begin_kind(cell, style, NodeKind::TableCell)?;
        put_all(front, &mut self.tree)?;
        put_texts(written, before, &mut self.tree)
    }

    /// Opens a table, whose captions come next.
    #[tactic(auto, unfolding(crate::specs::Steps::opened))]
    fn open_table(
        &mut self,
        alloc: Global,
        style: NodeStyle,
        if_empty: IfEmpty,
        texts: ElementTexts,
    ) -> Result<(), AllocError>
        ensures { OnOk result (self.new
            ≡ opened (record { kind = ElementKind.Part Part.Table; style = style; if_empty = if_empty; texts = texts }) self.old) }
    {
        let open = Open::new(OpenKind::Captions, Due::none(), if_empty, true);
        self.hold(alloc, open, node_in(style, NodeKind::Container), texts)
    }

    /// Opens a caption: a block in a table whose captions come, and a container anywhere else.
    #[tactic(auto, unfolding(crate::specs::Steps::opened))]
    fn open_caption(
        &mut self,
        alloc: Global,
        style: NodeStyle,
        if_empty: IfEmpty,
        texts: ElementTexts,
    ) -> Result<(), AllocError>
        ensures { OnOk result (self.new
            ≡ opened (record { kind = ElementKind.Part Part.Caption; style = style; if_empty = if_empty; texts = texts }) self.old) }
    {
        let kind = match self.innermost.kind {
            OpenKind::Captions => NodeKind::Block,
            _ => NodeKind::Container,
        };
        let open = Open::new(OpenKind::Caption, Due::none(), if_empty, texts.has_any());
        self.hold(alloc, open, node_in(style, kind), texts)
    }

    /// Opens a part of a table, or a table.
    fn open_part(
        &mut self,
        alloc: Global,
        part: Part,
        style: NodeStyle,
        if_empty: IfEmpty,
        texts: ElementTexts,
    ) -> Result<(), AllocError>
        ensures { OnOk result (self.new
            ≡ opened (record { kind = ElementKind.Part part; style = style; if_empty = if_empty; texts = texts }) self.old) }
    {
        match part {
            Part::Table => self.open_table(alloc, style, if_empty, texts),
            Part::Body => self.open_rows(alloc, if_empty, texts),
            Part::Row => self.open_row(alloc, style, texts),
            Part::Cell(span) => self.open_cell(alloc, span, style, texts),
            Part::Caption => self.open_caption(alloc, style, if_empty, texts),
        }
    }

    /// Opens an element.
    pub fn open(&mut self, alloc: Global, element: Element) -> Result<(), AllocError>
        ensures { OnOk result (self.new ≡ opened element self.old) }
    {
        let Element {
            kind,
            style,
            if_empty,
            texts,
        } = element;
        if !texts.has_any() {
            return self.open_plain(alloc, kind, style, if_empty);
        }
        match kind {
            ElementKind::Node(kind) => self.open_inserting(alloc, kind, style, if_empty, texts),
            ElementKind::Part(part) => self.open_part(alloc, part, style, if_empty, texts),
        }
    }

    /// Opens an element without a mark that becomes a node, under its style.
    #[tactic(auto, unfolding(crate::specs::Steps::opened))]
    #[inline(always)]
    fn open_styled_node(
        &mut self,
        alloc: Global,
        kind: NodeKind,
        if_empty: IfEmpty,
        style: &ComputedStyle,
    ) -> Result<(), AllocError>
        ensures { OnOk result (self.new ≡ opened (element_of (ElementKind.Node kind) if_empty None style.now) self.old) }
    {
        let before = style.content_before.val();
        let after = style.content_after.val();
        if before.is_none() && after.is_none() {
            return self.open_node(kind, node_style(style), if_empty);
        }
        let keeping = OpenKind::Node(Keeping::of(&kind));
        if kind.holds_insertions() {
            let open = Open::new(keeping, Due::none(), if_empty, true);
            return self.hold_contents(alloc, open, node_in(node_style(style), kind), before, after);
        }
        let container = Open::new(OpenKind::Node(Keeping::Any), Due::none(), if_empty, true);
        let node = RenderNode::from(NodeKind::Container);
        self.hold_contents(alloc, container, node, before, after)?;
        let mut open = Open::new(keeping, Due::none(), if_empty, false);
        open.is_wrapped = true;
        self.begin(open, node_in(node_style(style), kind))
    }

    /// Opens an element without a mark, under its style.
    #[inline(never)]
    pub fn open_styled(
        &mut self,
        kind: ElementKind,
        if_empty: IfEmpty,
        style: &ComputedStyle,
    ) -> Result<(), AllocError>
        ensures { OnOk result (self.new ≡ opened (element_of kind if_empty None style.now) self.old) }
    {
        let alloc = self.allocator();
        match kind {
            ElementKind::Node(kind) => self.open_styled_node(alloc, kind, if_empty, style),
            ElementKind::Part(part) => {
                let texts = ElementTexts::of(None, style)?;
                self.open_part(alloc, part, node_style(style), if_empty, texts)
            }
        }
    }

    /// Begins the rows of the innermost open table, whose captions have all come.
    pub fn part(&mut self, alloc: Global) -> Result<(), AllocError>
        ensures { OnOk result (self.new ≡ all_parted self.old) }
    {
        if !matches!(self.innermost.kind, OpenKind::Captions) {
            return Ok(());
        }
        if !self.innermost.has_results {
            return make_parts(alloc, &mut self.innermost, &mut self.tree);
        }
        self.innermost.kind = OpenKind::Node(Keeping::Any);
        let parts = OpenKind::Parts(TableSpans::new(alloc));
        let mut open = Open::new(parts, Due::none(), IfEmpty::Vanishes, false);
        open.is_wrapped = true;
        self.begin(open, RenderNode::from(NodeKind::Container))
    }
}
