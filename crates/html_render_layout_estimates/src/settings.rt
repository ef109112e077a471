//! Settings of measuring and layout, besides the width and the decorator.

ghost use Rattle.std.specs.Prelude.{◌≡◌, IfOk};
ghost use Rattle.html_render_dom_values.specs.Outcome.{OnlyOutOfMemory};

use html_render_dom_values::Error;
use html_render_dom_values::text::Text;
use std::alloc::Global;

/// Treatment of images and drawings with an empty title.
#[derive(Clone, Debug, Default, PartialEq, Eq, Drop)]
pub enum ImageRenderMode {
    /// Shows nothing.
    #[default]
    IgnoreEmpty,
    /// Shows the image with its empty title, as the decorator writes it.
    ShowAlways,
    /// Shows the image with this title.
    Replace(Text),
    /// Shows the image with the part of its source after the last `/` as its title; nothing if that part is empty.
    Filename,
}

impl ImageRenderMode {
    /// Returns a copy of the mode.
    ///
    /// # Errors
    ///
    /// `OutOfMemory` if an allocation is refused.
    pub fn try_clone(&self, alloc: Global) -> Result<ImageRenderMode, Error>
        ensures ok { IfOk result (λ mode. mode ≡ self.now) }
        ensures err { OnlyOutOfMemory result }
    {
        Ok(match self {
            ImageRenderMode::IgnoreEmpty => ImageRenderMode::IgnoreEmpty,
            ImageRenderMode::ShowAlways => ImageRenderMode::ShowAlways,
            ImageRenderMode::Replace(title) => {
                ImageRenderMode::Replace(Text::from_str(alloc, title.as_str())?)
            }
            ImageRenderMode::Filename => ImageRenderMode::Filename,
        })
    }
}

/// Settings of measuring and layout.
#[derive(Drop)]
pub struct LayoutSettings {
    /// Whether a link's number follows it, and the document ends with a line for each link.
    pub link_footnotes: bool,
    /// Whether U+0336 follows each struck-out character that isn't collapsible white space.
    pub unicode_strikeout: bool,
    /// Treatment of images and drawings with an empty title.
    pub empty_images: ImageRenderMode,
    /// Whether closing lines are cut at the document's width.
    pub wrap_links: bool,
    /// Whether lines of paragraphs are padded with spaces up to the width of their block.
    pub pad_block_width: bool,
    /// Minimum columns left for text after prefixes, unless the text itself has fewer.
    pub min_wrap_width: usize,
    /// Whether the cells of every table are stacked.
    pub raw_mode: bool,
    /// Whether tables have borders.
    pub table_borders: bool,
    /// Whether a table that isn't in another table is put between lines of three backquotes.
    pub fence_tables: bool,
    /// Whether columns side by side get the width of their longest words as far as the width allows.
    pub whole_words: bool,
}

impl Default for LayoutSettings {
    ghost use Rattle.std.specs.Prelude.{◌≡◌};
    ghost use Rattle.html_render_layout_estimates.specs.Settings.{default_settings};

    ghost is_default = { λ s. s ≡ default_settings };

    /// Returns the default settings:
    ///
    /// - Links have no numbers.
    /// - U+0336 follows struck-out characters.
    /// - Images and drawings with an empty title aren't shown.
    /// - Closing lines are cut.
    /// - Lines aren't padded.
    /// - A text needs 3 columns.
    /// - Tables have borders and no fences. Their cells are side by side if they fit.
    /// - Columns don't count words.
    fn default() -> LayoutSettings {
        LayoutSettings {
            link_footnotes: false,
            unicode_strikeout: true,
            empty_images: ImageRenderMode::IgnoreEmpty,
            wrap_links: true,
            pad_block_width: false,
            min_wrap_width: 3,
            raw_mode: false,
            table_borders: true,
            fence_tables: false,
            whole_words: false,
        }
    }
}

impl LayoutSettings {
    /// Returns a copy of the settings.
    ///
    /// # Errors
    ///
    /// `OutOfMemory` if an allocation is refused.
    pub fn try_clone(&self, alloc: Global) -> Result<LayoutSettings, Error>
        ensures ok { IfOk result (λ settings. settings ≡ self.now) }
        ensures err { OnlyOutOfMemory result }
    {
        Ok(LayoutSettings {
            link_footnotes: self.link_footnotes,
            unicode_strikeout: self.unicode_strikeout,
            empty_images: self.empty_images.try_clone(alloc)?,
            wrap_links: self.wrap_links,
            pad_block_width: self.pad_block_width,
            min_wrap_width: self.min_wrap_width,
            raw_mode: self.raw_mode,
            table_borders: self.table_borders,
            fence_tables: self.fence_tables,
            whole_words: self.whole_words,
        })
    }
}
