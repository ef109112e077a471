//! Types of the code's layout under a tagging `G`: its state, and the pending work of open nodes.

use crate::state::{CloseAction, LayoutState, OpenNode, Outer, Suspended};
use crate::tagging::Tagging;
use html_render_layout_blocks::held::{BoxedBlock, CurrentBlock, SuspendedBlock};
use html_render_parts::decorate::TextDecorator;

/// Tag of a character under the tagging `G`.
type TagOf<D, G> = <G as Tagging<<D as TextDecorator>::Annotation>>::Tag;

/// A suspended block with a prefix, under these tags. Its marks are indices of names.
type PrefixedBlock<D, G> = SuspendedBlock<TagOf<D, G>, usize>;

/// A suspended block with an open table, under these tags.
type TableBlock<D, G> = BoxedBlock<TagOf<D, G>, usize>;

/// A suspended block with a prefix, and its decorator.
pub type OuterBlock<D, G> = Outer<D, PrefixedBlock<D, G>>;

/// The block that an open node suspends.
pub type Interrupted<D, G> = Suspended<D, PrefixedBlock<D, G>, TableBlock<D, G>>;

/// State of a layout under the tagging `G`.
pub type State<D, G> = LayoutState<D, G, TagOf<D, G>, CurrentBlock<TagOf<D, G>, usize>>;

/// Pending work of an open node, done after its children.
pub type Kept<D, G> = OpenNode<D, TagOf<D, G>, PrefixedBlock<D, G>, TableBlock<D, G>>;

/// Closing action of an open node's kind.
pub type KindKept<D, G> = CloseAction<D, TagOf<D, G>, PrefixedBlock<D, G>, TableBlock<D, G>>;
