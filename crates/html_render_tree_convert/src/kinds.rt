//! What a node keeps and counts of what its children become.

ghost use Rattle.std.specs.Prelude.{◌≡◌};
ghost use Rattle.html_render_tree_convert.specs.Conversion.{is_blank};
ghost use Rattle.html_render_tree_convert.specs.Results.{shows_nothing};
ghost use Rattle.html_render_tree_convert.specs.Keeping.{keeping_of, keeps_by};

use html_render_layout_nodes::tree::NodeKind;

/// What a node keeps and counts of what its children become.
#[derive(Clone, Copy)]
pub enum Keeping {
    /// It keeps and counts all.
    Any,
    /// It keeps items: a numbered list.
    Items,
    /// It keeps terms and descriptions: a list of descriptions.
    Descriptions,
    /// It keeps all, and counts what shows something: a link.
    Shown,
}

impl Keeping {
    /// Returns what a node of this kind keeps and counts.
    #[inline(always)]
    pub fn of(kind: &NodeKind) -> Keeping
        ensures { result ≡ keeping_of kind.now }
    {
        match kind {
            NodeKind::Ol(_) => Keeping::Items,
            NodeKind::Dl => Keeping::Descriptions,
            NodeKind::Link(_) => Keeping::Shown,
            _ => Keeping::Any,
        }
    }

    /// Reports whether a child of this kind is kept.
    pub fn keeps(self, child: &NodeKind) -> bool
        ensures { result ≡ keeps_by self child.now }
    {
        match self {
            Keeping::Items => matches!(child, NodeKind::ListItem),
            Keeping::Descriptions => matches!(child, NodeKind::Dt | NodeKind::Dd),
            Keeping::Any | Keeping::Shown => true,
        }
    }
}

/// Reports whether a text has nothing but white space.
fn is_blank(text: &str) -> bool
    ensures { result ≡ is_blank text.now }
{
    text.trim().is_empty()
}

/// Reports whether a node shows nothing, as far as is seen without going into its children: its text is blank, or it has no
/// children. A table always has some.
#[inline(never)]
pub fn shows_nothing(kind: &NodeKind, has_children: bool) -> bool
    ensures { result ≡ shows_nothing kind.now has_children }
{
    match kind {
        NodeKind::Text(text) => is_blank(text.as_str()),
        NodeKind::Image(image) => is_blank(image.title().as_str()),
        NodeKind::Svg(title) => is_blank(title.as_str()),
        _ => !has_children,
    }
}
