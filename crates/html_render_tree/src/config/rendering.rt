//! The calls of a configuration that render: to a text, to tagged lines, and to a text under a colour map.

ghost use Rattle.std.specs.Prelude.{◌≡◌, List, true, false, Some, Err, IfOk, IfErr, option_map, string_bytes};
ghost use Rattle.html_render_dom_values.specs.Outcome.{Refuses};
ghost use Rattle.html_render_layout_nodes.specs.Counts.{CountsNodes};
ghost use Rattle.html_render_layout.specs.Layout.{by_stacks, estimated, empty_state, layout_of};
ghost use Rattle.html_render_layout_tagged.specs.Colouring.{IsColoured};
ghost use Rattle.html_render_layout_tagged.specs.Grouping.{LinePart, lines_of};
ghost use Rattle.html_render_layout_tagged.specs.TaggedLine.{AllTaggedWithinWidth};
ghost use Rattle.html_render_tree.specs.Rendering.{document_block, rendered_lines, rendered_strings, AreStrings, KeepsPromises, Rendered};
ghost use Rattle.html_render_tree.specs.Texts.{text_of};

use crate::config::Config;
use crate::texts::string_of;
use html_render_dom::Error;
use html_render_layout::walk::{lay_out, lay_out_untagged};
use html_render_layout_blocks::block::BlockSetting;
use html_render_layout_nodes::tree::RenderTree;
use html_render_layout_tagged::colours::coloured;
use html_render_layout_tagged::grouping::tagged_lines;
use html_render_layout_tagged::line::TaggedLine;
use html_render_parts::decorate::TextDecorator;
use html_render_parts_widths::Meter;
use std::alloc::Global;

impl<D: TextDecorator> Config<D> {
    /// Returns the setting of the block of a document in `width` columns.
    fn block(&self, width: usize) -> BlockSetting
        ensures { result ≡ document_block self.now width }
    {
        BlockSetting {
            width,
            max_wrap_width: self.max_wrap_width,
            overflow: self.overflow,
        }
    }

    /// Renders a tree as a text, wrapped to `width` columns: each line's characters and a newline. Consumes the tree, also
    /// on an error.
    ///
    /// # Errors
    ///
    /// `TooNarrow` at width 0. With overflow off, also if a character is wider than a line, a prefix leaves too few columns,
    /// or a line with its prefix is wider than its block. `OutOfMemory`.
    #[tactic(auto, using(crate::specs::laws::Rendering::promises_kept))]
    pub fn render_to_string(
        &self,
        alloc: Global,
        tree: RenderTree,
        width: usize,
    ) -> Result<String, Error>
        // the text is that of the definition's lines; the result is `TooNarrow` exactly if there are none, unless memory
        // runs out
        ensures ok { IfOk result (λ text. option_map text_of (rendered_lines D.decoration self.now tree width) ≡ Some (string_bytes text)) }
        ensures err { IfErr result (λ e. Refuses e (rendered_lines D.decoration self.now tree width)) }

        // promises of the lines: they keep to the width, are those of overflow off, and lose no visible character
        ensures lines { IfOk result (λ text. Rendered D.decoration self.now tree width (λ lines. string_bytes text ≡ text_of lines)) }

        ensures promises { KeepsPromises D.decoration self.now tree width result }
    {
        let lines = lay_out_untagged(
            alloc,
            &self.decorator,
            tree,
            self.block(width),
            &self.settings,
        )?;
        Ok(string_of(lines)?)
    }

    /// Renders a tree as tagged lines, wrapped to `width` columns. A line's strings are the longest runs of characters whose
    /// annotations are equal, one by one, with no mark between them. A string's tag is the annotations of its first
    /// character, the outermost first. Consumes the tree, also on an error.
    ///
    /// # Errors
    ///
    /// Those of [`Config::render_to_string`].
    #[tactic(auto, using(crate::specs::laws::Rendering::promises_kept))]
    pub fn render_to_lines(
        &self,
        alloc: Global,
        tree: RenderTree,
        width: usize,
    ) -> Result<Vec<TaggedLine<Vec<D::Annotation>>>, Error>
        // the strings are those of the definition's lines; the result is `TooNarrow` exactly if there are none, unless
        // memory runs out
        ensures ok { IfOk result (λ lines. rendered_strings D.decoration self.now tree width D.Annotation.eq ≡ Some (lines_of lines.items)) }
        ensures err { IfErr result (λ e. Refuses e (rendered_lines D.decoration self.now tree width)) }

        // promises of the lines and of their strings, and the clauses of `render_to_string`
        ensures lines { IfOk result (λ answer. Rendered D.decoration self.now tree width
            (AreStrings D.decoration self.now tree width D.Annotation.eq (lines_of answer.items))) }
        ensures within { self.now.overflow ≡ false → self.now.settings.wrap_links ≡ true
            → IfOk result (λ lines. AllTaggedWithinWidth width lines.items) }
        ensures promises { KeepsPromises D.decoration self.now tree width result }
    {
        let mut meter = Meter::default();
        self.render_to_lines_metered(alloc, tree, width, &mut meter)
    }

    /// Renders a tree like [`Config::render_to_lines`], and counts in `meter` the nodes that the layout visits. `entered`
    /// and `left` count all nodes except those in a skipped cell or in a superscript written in digits. `frames` is the most
    /// nodes that were open at once. They count from 0, also on an error; `probes` isn't changed.
    ///
    /// # Errors
    ///
    /// Those of [`Config::render_to_string`].
    #[tactic(auto, using(crate::specs::laws::Rendering::promises_kept))]
    pub fn render_to_lines_metered(
        &self,
        alloc: Global,
        tree: RenderTree,
        width: usize,
        meter: &mut Meter,
    ) -> Result<Vec<TaggedLine<Vec<D::Annotation>>>, Error>
        // the clauses of `render_to_lines`
        ensures ok { IfOk result (λ lines. rendered_strings D.decoration self.now tree width D.Annotation.eq ≡ Some (lines_of lines.items)) }
        ensures err { IfErr result (λ e. Refuses e (rendered_lines D.decoration self.now tree width)) }
        ensures lines { IfOk result (λ answer. Rendered D.decoration self.now tree width
            (AreStrings D.decoration self.now tree width D.Annotation.eq (lines_of answer.items))) }
        ensures within { self.now.overflow ≡ false → self.now.settings.wrap_links ≡ true
            → IfOk result (λ lines. AllTaggedWithinWidth width lines.items) }
        ensures promises { KeepsPromises D.decoration self.now tree width result }

        // counts of visited nodes and of nodes open at once, exact with lines and at most these without
        ensures counts { CountsNodes result (layout_of (by_stacks D.decoration))
            (estimated D.decoration self.now.settings self.now.decorator tree)
            (empty_state D.decoration self.now.settings self.now.decorator (document_block self.now width)) meter.old meter.new }
    {
        let laid_out = lay_out(
            alloc,
            &self.decorator,
            tree,
            self.block(width),
            &self.settings,
            meter,
        )?;
        tagged_lines(alloc, laid_out)
    }

    /// Renders a tree as a text under a colour map, wrapped to `width` columns: for each line what `colour_map` returns for
    /// each of its tagged strings, in order, and then a newline. The map is given a string's annotations, the outermost
    /// first, and its text. It is called once for each string, in order, and never for a mark. Consumes the tree, also on
    /// an error.
    ///
    /// The caller ensures that the map can be called with all annotations and texts, and that its only error is
    /// `OutOfMemory`.
    ///
    /// # Errors
    ///
    /// Those of [`Config::render_to_string`]. `OutOfMemory` also if the map returns it.
    #[tactic(auto, using(crate::specs::laws::Rendering::promises_kept))]
    pub fn render_coloured<F: FnMut(&[D::Annotation], &str) -> Result<String, Error>>(
        &self,
        alloc: Global,
        tree: RenderTree,
        width: usize,
        colour_map: F,
    ) -> Result<String, Error>
        requires callable { F.IsAlwaysCallable colour_map }
        requires memory { (map : F) (tag : _) (string : _) (e : Error) → F.post map tag string (Err e) → e ≡ Error.OutOfMemory }

        // the text is that of the definition's strings under the map; the result is `TooNarrow` exactly if there are no
        // lines, unless memory runs out
        ensures ok { IfOk result (λ text. (lines : List (List (LinePart (List D.Annotation)))) × (last : F)
            × (rendered_strings D.decoration self.now tree width D.Annotation.eq ≡ Some lines)
            × IsColoured F.step colour_map lines (string_bytes text) last) }
        ensures err { IfErr result (λ e. Refuses e (rendered_lines D.decoration self.now tree width)) }

        // promises of the lines and of their strings, and the clauses of `render_to_string`
        ensures lines { IfOk result (λ text. (strings : List (List (LinePart (List D.Annotation)))) × (last : F)
            × Rendered D.decoration self.now tree width (AreStrings D.decoration self.now tree width D.Annotation.eq strings)
            × IsColoured F.step colour_map strings (string_bytes text) last) }
        ensures promises { KeepsPromises D.decoration self.now tree width result }
    {
        let lines = self.render_to_lines(alloc, tree, width)?;
        coloured(alloc, &lines, colour_map)
    }
}
