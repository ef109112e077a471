//! The nodes that a layout visits, each law the contract of an empty function.

ghost use Rattle.std.specs.Prelude.{◌≡◌, true, IfSome};
ghost use Rattle.html_render_dom_values.specs.Forest.{Forest, count, depth};
ghost use Rattle.html_render_layout_blocks.specs.declared.block.BlockSetting.{BlockSetting};
ghost use Rattle.html_render_layout_estimates.specs.Estimates.{measured};
ghost use Rattle.html_render_layout_estimates.specs.Words.{with_words};
ghost use Rattle.html_render_layout.specs.Layout.{by_stacks, empty_state, estimated, layout_lines, layout_of};
ghost use Rattle.html_render_tree.specs.GoodTrees.{Anywhere, are_good};
ghost use Rattle.html_render_tree.specs.Visited.{VisitsAllBut};

use html_render_layout_estimates::settings::LayoutSettings;
use html_render_layout_nodes::tree::RenderNode;
use html_render_parts::decorate::TextDecorator;

/// Where the render tree of a document has lines, its layout visits each of its nodes once, except those below a skipped
/// cell and those below a superscript that is written in digits.
#[tactic(auto, using(crate::specs::laws::Visited::lines_visit_all))]
fn layouts_visit_all_nodes<D: TextDecorator>()
    ensures { (settings : LayoutSettings) (tree : Forest RenderNode) (decorator : D) (block : BlockSetting) → are_good Anywhere tree ≡ true →
        IfSome (layout_lines D.decoration settings tree decorator block) (λ lines.
        VisitsAllBut (layout_of (by_stacks D.decoration)) (estimated D.decoration settings decorator tree)
        (empty_state D.decoration settings decorator block)) }
{}

/// A measured tree, with words or without them, has the number of nodes and the depth of the tree.
#[tactic(auto, using(crate::specs::laws::Visited::measured_count, crate::specs::laws::Visited::measured_depth, crate::specs::laws::Visited::words_count, crate::specs::laws::Visited::words_depth))]
fn measuring_keeps_count_and_depth<D: TextDecorator>()
    ensures count { (decorator : D) (settings : LayoutSettings) (trees : Forest RenderNode) →
        count (with_words settings (measured D.decoration decorator settings trees)) ≡ count trees }
    ensures depth { (decorator : D) (settings : LayoutSettings) (trees : Forest RenderNode) →
        depth (with_words settings (measured D.decoration decorator settings trees)) ≡ depth trees }
{}
