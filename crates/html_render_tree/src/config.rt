//! Configurations: options of rendering, and the calls that render.
//!
//! `plain(alloc)?.allow_width_overflow()` is a configuration. Its `dom_to_render_tree(alloc, &dom)?` is a document's render
//! tree, and `render_to_string(alloc, tree, 80)?` is the text of that in 80 columns.

ghost use Rattle.std.specs.Prelude.{◌≡◌, ◌∷◌, ◌++◌, [], Some, true, false, IfOk, IfErr};
ghost use Rattle.html_render_dom_values.specs.Outcome.{OnlyOutOfMemory};
ghost use Rattle.html_render_tree_convert.specs.Results.{render_tree_of};
ghost use Rattle.html_render_dom_styles.specs.Rules.{rule_of};
ghost use Rattle.html_render_layout_estimates.specs.Settings.{default_settings};
ghost use Rattle.html_render_parts.specs.Refusal.{Fails};
ghost use Rattle.html_render_tree.specs.GoodTrees.{Anywhere, are_good};
ghost use Rattle.html_render_tree.specs.Decorations.{decorations};
ghost use Rattle.html_render_tree.specs.Rendering.{initial_options};

use html_render_dom::Error;
use html_render_dom::dom::RcDom;
use html_render_dom::style::StyleRule;
pub use html_render_layout_estimates::settings::ImageRenderMode;
use html_render_layout_estimates::settings::LayoutSettings;
use html_render_layout_nodes::tree::RenderTree;
use html_render_parts::decorate::{PlainDecorator, RichDecorator, TextDecorator};
use html_render_tree_convert::convert;
use std::alloc::Global;
use std::marker::Model;

/// A configuration: a decorator, style rules and settings, under which documents are rendered.
///
/// A call that takes a configuration and returns one changes what its comment names, and nothing else.
#[derive(Drop)]
pub struct Config<D: TextDecorator> {
    decorator: D,
    /// Style rules, in the order in which they were added.
    rules: Vec<StyleRule>,
    overflow: bool,
    max_wrap_width: Option<usize>,
    settings: LayoutSettings,
}

impl<D: TextDecorator> Model for Config<D> {
    ghost use Rattle.std.specs.Prelude.{map};
    ghost use Rattle.html_render_dom_styles.specs.Rules.{rule_of};
    ghost use Rattle.html_render_tree.specs.Rendering.{Options};

    ghost Value = { Options D };

    ghost view = { λ c. record {
      decorator = c.decorator;
      rules = map rule_of c.rules.items;
      overflow = c.overflow;
      max_wrap_width = c.max_wrap_width;
      settings = c.settings;
    } };
}

/// Returns a configuration for plain text with decorations, as [`Config::do_decorate`] adds them, and with footnotes for
/// links. Overflow is off.
///
/// # Errors
///
/// `OutOfMemory`.
pub fn plain(alloc: Global) -> Result<Config<PlainDecorator>, Error>
    ensures ok { IfOk result (λ config. config ≡ record (initial_options config.decorator) {
      rules = decorations;
      settings = record default_settings { link_footnotes = true };
    }) }
    ensures err { OnlyOutOfMemory result }
{
    let config = plain_no_decorate(alloc).do_decorate(alloc)?;
    Ok(config.link_footnotes(true))
}

/// Returns a configuration for plain text without decorations: no rules, no overflow and no footnotes. Allocates nothing.
pub fn plain_no_decorate(alloc: Global) -> Config<PlainDecorator>
    ensures { result ≡ initial_options result.decorator }
{
    with_decorator(alloc, PlainDecorator::new())
}

/// Returns a configuration for text with an annotation for each part: no rules, no overflow and no footnotes. Allocates
/// nothing.
pub fn rich(alloc: Global) -> Config<RichDecorator>
    ensures { result ≡ initial_options result.decorator }
{
    with_decorator(alloc, RichDecorator::new())
}

/// Returns a configuration with a decorator of the caller: no rules, no overflow and no footnotes. Allocates nothing.
pub fn with_decorator<D: TextDecorator>(alloc: Global, decorator: D) -> Config<D>
    ensures { result ≡ initial_options decorator }
{
    Config {
        decorator,
        rules: Vec::new(alloc),
        overflow: false,
        max_wrap_width: None,
        settings: LayoutSettings::default(),
    }
}

impl<D: TextDecorator> Config<D> {
    /// Appends ten rules, which put a text before and after the contents of elements: `*` for `em` and `dt`, `**` for
    /// `strong` and `b`, and a backquote for `code`. They are normal rules of the agent, each for an element's name and a
    /// pseudo-element.
    ///
    /// # Errors
    ///
    /// `OutOfMemory`. The configuration is then dropped.
    pub fn do_decorate(mut self, alloc: Global) -> Result<Config<D>, Error>
        ensures ok { IfOk result (λ config. config ≡ record self { rules = self.rules ++ decorations }) }
        ensures err { OnlyOutOfMemory result }
    {
        decorations::add_all(alloc, &mut self.rules)?;
        Ok(self)
    }

    /// Appends a rule to the rules.
    ///
    /// # Errors
    ///
    /// `OutOfMemory`. The configuration and the rule are then dropped.
    pub fn add_style_rule(mut self, _alloc: Global, rule: StyleRule) -> Result<Config<D>, Error>
        ensures ok { IfOk result (λ config. config ≡ record self { rules = self.rules ++ rule_of rule ∷ [] }) }
        ensures err { OnlyOutOfMemory result }
    {
        self.rules.push(rule)?;
        Ok(self)
    }

    /// Allows overflow. A character that is wider than a line is then alone on its line, and a text keeps its minimum width
    /// after a prefix, so that lines may pass the width. Without overflow, rendering is `TooNarrow` there.
    pub fn allow_width_overflow(self) -> Config<D>
        ensures { result ≡ record self { overflow = true } }
    {
        Config {
            overflow: true,
            ..self
        }
    }

    /// Sets whether links have footnotes: a link's number in brackets after it, and a closing line with its number and
    /// target. Links are numbered from 1 in the order in which they start.
    pub fn link_footnotes(mut self, numbered: bool) -> Config<D>
        ensures { result ≡ record self { settings = record self.settings { link_footnotes = numbered } } }
    {
        self.settings.link_footnotes = numbered;
        self
    }

    /// Leaves closing lines whole, among them those with links' targets, so that they may pass the width. Without this call
    /// they are cut at the width.
    pub fn no_link_wrapping(mut self) -> Config<D>
        ensures { result ≡ record self { settings = record self.settings { wrap_links = false } } }
    {
        self.settings.wrap_links = false;
        self
    }

    /// Sets whether U+0336, a stroke, follows each character of struck-out text that isn't collapsible white space. Default
    /// true.
    pub fn unicode_strikeout(mut self, strokes: bool) -> Config<D>
        ensures { result ≡ record self { settings = record self.settings { unicode_strikeout = strokes } } }
    {
        self.settings.unicode_strikeout = strokes;
        self
    }

    /// Sets how images and drawings with an empty title are shown. By default they aren't.
    pub fn empty_img_mode(mut self, mode: ImageRenderMode) -> Config<D>
        ensures { result ≡ record self { settings = record self.settings { empty_images = mode } } }
    {
        self.settings.empty_images = mode;
        self
    }

    /// Pads each line of a paragraph with spaces up to the width of its block, which is that of the document without the
    /// prefixes of the line. The spaces have no annotation. Lines that are empty because a block starts or a line break is
    /// alone aren't padded, and neither are closing lines.
    pub fn pad_block_width(mut self) -> Config<D>
        ensures { result ≡ record self { settings = record self.settings { pad_block_width = true } } }
    {
        self.settings.pad_block_width = true;
        self
    }

    /// Limits the lines of paragraphs to `columns` columns, or to the width of their block if that is less. Prefixes aren't
    /// counted, and closing lines have the document's width.
    pub fn max_wrap_width(mut self, columns: usize) -> Config<D>
        ensures { result ≡ record self { max_wrap_width = Some columns } }
    {
        self.max_wrap_width = Some(columns);
        self
    }

    /// Sets the minimum columns left for a text after prefixes, unless its own columns are fewer. With fewer left, rendering
    /// is `TooNarrow`, or lines pass the width if overflow is on. Default 3.
    pub fn min_wrap_width(mut self, columns: usize) -> Config<D>
        ensures { result ≡ record self { settings = record self.settings { min_wrap_width = columns } } }
    {
        self.settings.min_wrap_width = columns;
        self
    }

    /// Sets whether the cells of every table are stacked, and not side by side where they fit. Removes the borders of
    /// tables, with `false` too.
    pub fn raw_mode(mut self, raw: bool) -> Config<D>
        ensures { result ≡ record self { settings = record self.settings { raw_mode = raw; table_borders = false } } }
    {
        self.settings.raw_mode = raw;
        self.settings.table_borders = false;
        self
    }

    /// Draws tables without borders. Cells side by side have a space between them, and stacked cells nothing.
    pub fn no_table_borders(mut self) -> Config<D>
        ensures { result ≡ record self { settings = record self.settings { table_borders = false } } }
    {
        self.settings.table_borders = false;
        self
    }

    /// Puts each table that isn't nested between two fences, lines of three backquotes.
    pub fn fence_tables(mut self) -> Config<D>
        ensures { result ≡ record self { settings = record self.settings { fence_tables = true } } }
    {
        self.settings.fence_tables = true;
        self
    }

    /// Gives columns side by side the width of their longest words, as far as the width allows, so that words aren't cut at
    /// the edges of columns. Whether a table's columns are side by side doesn't depend on it.
    pub fn whole_words(mut self) -> Config<D>
        ensures { result ≡ record self { settings = record self.settings { whole_words = true } } }
    {
        self.settings.whole_words = true;
        self
    }

    /// Returns the render tree of a document.
    ///
    /// # Errors
    ///
    /// `Fail` if the tree would have a part of a table, such as a row or a cell, outside its place: for example a row that
    /// isn't among those of a table. A part that is dropped, such as one beside the items of an ordered list, isn't in the
    /// tree. `Fail` also if a cell of any table would end past column 2^128 - 1. `OutOfMemory`.
    #[tactic(auto, using(crate::specs::laws::GoodTrees::render_trees_are_good))]
    pub fn dom_to_render_tree(&self, alloc: Global, dom: &RcDom) -> Result<RenderTree, Error>
        ensures ok { IfOk result (λ tree. render_tree_of self.now.rules dom.now ≡ Some tree) }
        ensures good { IfOk result (λ tree. are_good Anywhere tree ≡ true) }
        ensures err { IfErr result (λ e. Fails e (render_tree_of self.now.rules dom.now)) }
    {
        let nodes = convert::dom_to_render_tree(alloc, &self.rules, dom)?;
        Ok(RenderTree::new(nodes))
    }

    /// Like [`Config::dom_to_render_tree`], but frees the document early, for a lower peak of memory.
    ///
    /// # Errors
    ///
    /// Those of [`Config::dom_to_render_tree`].
    #[tactic(auto, using(crate::specs::laws::GoodTrees::render_trees_are_good))]
    pub fn dom_into_render_tree(&self, alloc: Global, dom: RcDom) -> Result<RenderTree, Error>
        ensures ok { IfOk result (λ tree. render_tree_of self.now.rules dom ≡ Some tree) }
        ensures good { IfOk result (λ tree. are_good Anywhere tree ≡ true) }
        ensures err { IfErr result (λ e. Fails e (render_tree_of self.now.rules dom)) }
    {
        let nodes = convert::dom_into_render_tree(alloc, &self.rules, dom)?;
        Ok(RenderTree::new(nodes))
    }
}

mod decorations;
mod rendering;
