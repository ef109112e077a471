//! Laws of the definition of estimates. Each is the contract of an empty function.

ghost use Rattle.std.specs.Prelude.{◌≡◌, ◌≤◌, ℕ, All, map, sum_by, false};
ghost use Rattle.html_render_dom_values.specs.Forest.{Forest};
ghost use Rattle.html_render_parts_widths.specs.Needs.{AreWithinSizes};
ghost use Rattle.html_render_parts_widths.specs.Shares.{share_by_size, shares};
ghost use Rattle.html_render_layout_nodes.specs.declared.tree.RenderNode.{RenderNode};
ghost use Rattle.html_render_layout_nodes.specs.Preorder.{flatten};
ghost use Rattle.html_render_layout_estimates.specs.declared.settings.LayoutSettings.{LayoutSettings};
ghost use Rattle.html_render_layout_estimates.specs.Columns.{needs_of_kind};
ghost use Rattle.html_render_layout_estimates.specs.Estimates.{measured};
ghost use Rattle.html_render_layout_estimates.specs.Passes.{has_table, with_needed_sizes};
ghost use Rattle.html_render_layout_estimates.specs.Words.{with_words};

use html_render_parts::decorate::TextDecorator;

/// States that the minimum width of each measured node is at most its preferred width.
///
/// Holds of all trees, decorators and settings.
#[tactic(auto, using(crate::specs::laws::Least::each_within))]
fn each_least_width_is_at_most_its_size<D: TextDecorator>()
    ensures { (decorator : D) (settings : LayoutSettings) (trees : Forest RenderNode) →
        All (λ e. e.node.estimate.min_width ≤ e.node.estimate.preferred_width) (flatten (measured D.decoration decorator settings trees)) }
{}

/// States that no column of a measured table has a minimum width above its preferred width.
///
/// So each column's share is `share_by_size`. Holds of all trees, decorators and settings.
#[tactic(auto, using(crate::specs::laws::Least::of_columns))]
fn each_column_is_within_its_size<D: TextDecorator>()
    ensures measured { (decorator : D) (settings : LayoutSettings) (trees : Forest RenderNode) →
        All (λ e. AreWithinSizes (needs_of_kind e.node.kind)) (flatten (measured D.decoration decorator settings trees)) }
    ensures needed { (decorator : D) (settings : LayoutSettings) (trees : Forest RenderNode) →
        All (λ e. AreWithinSizes (needs_of_kind e.node.kind)) (flatten (with_needed_sizes (with_words settings (measured D.decoration decorator settings trees)))) }
    ensures shares { (decorator : D) (settings : LayoutSettings) (trees : Forest RenderNode) (width : ℕ) →
        All (λ e. shares width (needs_of_kind e.node.kind)
        ≡ map (share_by_size width (sum_by (λ n. n.preferred_width) (needs_of_kind e.node.kind))) (needs_of_kind e.node.kind))
        (flatten (with_needed_sizes (with_words settings (measured D.decoration decorator settings trees)))) }
{}

/// States that the code leaves all preferred widths 0 in trees without a table.
#[tactic(auto, using(crate::specs::laws::Least::each_unsized))]
fn sizes_are_of_trees_with_tables<D: TextDecorator>()
    ensures { (decorator : D) (settings : LayoutSettings) (trees : Forest RenderNode) → has_table trees ≡ false →
        All (λ e. e.node.estimate.preferred_width ≡ 0) (flatten (with_needed_sizes (with_words settings (measured D.decoration decorator settings trees)))) }
{}
