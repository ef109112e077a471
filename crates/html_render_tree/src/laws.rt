//! Laws of rendering, each the contract of an empty function.

ghost use Rattle.std.specs.Prelude.{◌≡◌, ◌↔◌, None, IfSome, map, replicate};
ghost use Rattle.html_render_dom_styles.specs.Selectors.{specificity_of};
ghost use Rattle.html_render_dom_styles.specs.declared.origins.StyleOrigin.TheVariants as origin;
ghost use Rattle.html_render_dom_values.specs.Forest.{Forest};
ghost use Rattle.html_render_layout_blocks.specs.declared.block.BlockSetting.{BlockSetting};
ghost use Rattle.html_render_layout.specs.Layout.{layout_lines, mark_names};
ghost use Rattle.html_render_layout.specs.Promises.{AreLines};
ghost use Rattle.html_render_tree.specs.Decorations.{decorations, decoration_specificity};

mod equality;
mod visiting;

use html_render_layout_estimates::settings::{ImageRenderMode, LayoutSettings};
use html_render_layout_nodes::tree::RenderNode;
use html_render_parts::decorate::{RichAnnotation, TextDecorator};

/// The decorations are ten rules of the agent, each with the specificity of an element's name and a pseudo-element.
fn decorations_are_ten_rules_of_the_agent()
    ensures origins { map (λ rule. rule.origin) decorations ≡ replicate 10 origin.Agent }
    ensures specificities { map specificity_of decorations ≡ replicate 10 decoration_specificity }
{}

/// Where a tree has lines in a block, they keep the promises of every call that renders.
#[tactic(auto, using(html_render_layout::specs::laws::Promises::lines_promised))]
fn lines_are_promised<D: TextDecorator>()
    ensures { (settings : LayoutSettings) (tree : Forest RenderNode) (decorator : D) (block : BlockSetting) →
        IfSome (layout_lines D.decoration settings tree decorator block) (AreLines D.decoration settings tree decorator block) }
{}

/// A tree has lines in a block exactly where it has the names of their marks.
#[tactic(auto, using(crate::specs::laws::Rendering::none_together))]
fn lines_and_names_are_there_together<D: TextDecorator>()
    ensures { (settings : LayoutSettings) (tree : Forest RenderNode) (decorator : D) (block : BlockSetting) →
        (layout_lines D.decoration settings tree decorator block ≡ None)
        ↔ (mark_names D.decoration settings tree decorator block ≡ None) }
{}

/// By default an image without a title isn't shown, and an annotation of rich text is `Default`.
fn defaults_are_the_plain_ones()
    ensures modes { (mode : ImageRenderMode) → ⟦<ImageRenderMode as Default>⟧.is_default mode ↔ (mode ≡ ImageRenderMode.IgnoreEmpty) }
    ensures annotations { (annotation : RichAnnotation) →
        ⟦<RichAnnotation as Default>⟧.is_default annotation ↔ (annotation ≡ RichAnnotation.Default) }
{}
