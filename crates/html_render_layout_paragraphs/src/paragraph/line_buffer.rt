//! Placing on a line buffer: characters with the marks that wait for them, pending spaces, and ends of lines.

ghost use Rattle.std.specs.Prelude.{IfErr, fold, map, replicate, ◌≡◌, ◌≤◌, ◌+◌, ◌-◌, ◌%◌, [], ◌∷◌, ◌++◌, Some, None, OnOk, if◌then◌else◌};
ghost use Rattle.html_render_dom_values.specs.Outcome.{Gives, Refuses};
ghost use Rattle.html_render_layout_lines.specs.Character.{width_of, tag_on};
ghost use Rattle.html_render_layout_lines.specs.Line.{columns};
ghost use Rattle.html_render_layout_paragraphs.specs.Paragraph.{fits, with_character, continued, put_character, put_items};
ghost use Rattle.html_render_layout_paragraphs.specs.Placing.{with_line_break};
ghost use Rattle.html_render_layout_paragraphs.specs.Paragraph.{put_fitting, with_due_space, page_for_single};
ghost use Rattle.html_render_layout_paragraphs.specs.Paragraph.{with_waiting_mark, put_single, tab_spaces};
ghost use Rattle.html_render_layout_paragraphs.specs.Stream.{on_page, single_step};

use crate::paragraph::Paragraph;
use crate::word::tag_on;
use html_render_dom_values::Error;
use html_render_dom_values::room::{fits_after_gap, is_allowed_on_line};
use html_render_layout_lines::character::{Character, Class, Item, Kind, TextStyle, width_of};
use html_render_layout_lines::line::Element;
use html_render_layout_lines::tag::Tag;
use std::alloc::AllocError;

impl<T: Tag, M: Copy> Paragraph<T, M> {
    /// Reports whether `more` columns fit on the open line.
    #[inline]
    pub(super) fn fits(&self, more: usize) -> bool
        ensures { result ≡ fits self.now.setting self.now.page more }
    {
        let width = self.width;
        match self.lines.open_columns() {
            Some(columns) => fits_after_gap(columns, 0, more, width),
            None => false,
        }
    }

    /// Reports whether `more` columns fit on the open line after the pending space, if there is one.
    #[inline]
    pub(super) fn fits_behind_gap(&self, more: usize) -> bool
        ensures { result ≡ fits self.now.setting (with_due_space self.now.page self.now.pending) more }
    {
        let (width, gap) = (self.width, self.gap_width());
        match self.lines.open_columns() {
            Some(columns) => fits_after_gap(columns, gap, more, width),
            None => false,
        }
    }

    /// Returns the columns of the pending space: 1, but 0 at the start of a line or if there is none.
    #[inline]
    #[tactic(auto, using(crate::proofs::PageColumns::widths))]
    fn gap_width(&self) -> usize
        ensures { columns (with_due_space self.now.page self.now.pending).line ≡ columns self.now.page.line + result }
    {
        if self.pending.is_some() && !self.lines.is_line_empty() {
            1
        } else {
            0
        }
    }

    /// Appends the waiting marks to the open line.
    #[inline]
    pub(super) fn push_waiting(&mut self) -> Result<(), AllocError>
        ensures { OnOk result (self.new ≡ record self.old {
          page = record self.old.page { line = self.old.page.line ++ map (λ m. Element.Mark m) self.old.page.waiting; waiting = [] };
        }) }
    {
        if !self.waiting.is_empty() {
            self.lines.push_marks(self.waiting.as_slice())?;
            self.waiting.clear();
        }
        Ok(())
    }

    /// Appends the waiting marks and a character of `width` columns to the open line.
    fn push_character(&mut self, character: Character<T>, width: usize) -> Result<(), AllocError>
        requires { width ≡ width_of character.code }
        ensures { OnOk result (self.new ≡ record self.old { page = with_character self.old.page character }) }
    {
        let tag = tag_on(self.continues, &character);
        self.push_waiting()?;
        self.lines.push_char(character.code, width, tag)
    }

    /// Appends a space to the open line, under the tag of the white space `character`.
    #[tactic(auto, using(crate::proofs::PageColumns::widths))]
    fn push_space(&mut self, character: Character<T>) -> Result<(), AllocError>
        ensures { OnOk result (self.new ≡ record self.old {
          page = record self.old.page { line = self.old.page.line ++ Element.Character 32 (tag_on self.old.page.continues character) ∷ [] };
        }) }
    {
        let tag = tag_on(self.continues, &character);
        self.lines.push_char(' ', 1, tag)
    }

    /// Appends the pending space to the open line, or drops it if the line is empty.
    #[inline]
    pub(super) fn place_space(&mut self) -> Result<(), AllocError>
        ensures { OnOk result (self.new ≡ record self.old { page = with_due_space self.old.page self.old.pending; pending = None }) }
    {
        if let Some(character) = self.pending.take() {
            if !self.lines.is_line_empty() {
                self.push_space(character)?;
            }
        }
        Ok(())
    }

    /// Appends the pending space before a character of this kind, which is placed by itself. Drops the space instead
    /// before a newline or if it doesn't fit.
    pub(super) fn settle_for(&mut self, kind: Kind) -> Result<(), AllocError>
        ensures { OnOk result (self.new ≡ record self.old { page = page_for_single self.old.setting self.old.page self.old.pending kind; pending = None }) }
    {
        if kind != Kind::Newline && self.fits_behind_gap(0) {
            self.place_space()
        } else {
            self.pending = None;
            Ok(())
        }
    }

    /// Ends the open line, unless it is empty, and begins a continuation line.
    pub(super) fn continue_line(&mut self) -> Result<(), AllocError>
        ensures { OnOk result (self.new ≡ record self.old { page = continued self.old.page }) }
    {
        if !self.lines.is_line_empty() {
            self.lines.end_line()?;
            self.continues = true;
        }
        Ok(())
    }

    /// Drops the pending space, and begins a continuation line for a word that doesn't fit.
    fn begin_next_line(&mut self) -> Result<(), AllocError>
        ensures { OnOk result (self.new ≡ record self.old { page = continued self.old.page; pending = None }) }
    {
        self.pending = None;
        self.continue_line()
    }

    /// Makes room for a word. If the word fits `here`, appends the pending space; otherwise drops it and begins a
    /// continuation line.
    #[inline]
    pub(super) fn make_place(&mut self, here: bool) -> Result<(), AllocError>
        ensures { OnOk result (self.new ≡ record self.old {
          page = if here then with_due_space self.old.page self.old.pending else continued self.old.page;
          pending = None;
        }) }
    {
        if here {
            self.place_space()
        } else {
            self.begin_next_line()
        }
    }

    /// Ends the open line, even an empty one. The next line isn't a continuation line.
    pub(super) fn break_line(&mut self) -> Result<(), AllocError>
        ensures { OnOk result (self.new ≡ record self.old { page = with_line_break self.old.page }) }
    {
        self.lines.end_line()?;
        self.continues = false;
        Ok(())
    }

    /// Places a character of `width` columns on the open line if it fits there, and otherwise on a continuation line.
    /// Returns `TooNarrow`, with overflow off, if it is wider than a line.
    pub(super) fn put_character(
        &mut self,
        character: Character<T>,
        width: usize,
    ) -> Result<(), Error>
        requires { width ≡ width_of character.code }
        ensures ok { OnOk result (on_page self.old (put_character self.old.setting self.old.page character) ≡ Some self.new) }
        ensures err { IfErr result (λ e. Refuses e (put_character self.old.setting self.old.page character)) }
    {
        if self.fits(width) {
            self.push_character(character, width)?;
            Ok(())
        } else if is_allowed_on_line(width, self.width, self.overflow) {
            self.continue_line()?;
            self.push_character(character, width)?;
            Ok(())
        } else {
            Err(Error::TooNarrow)
        }
    }

    /// Places a character of `width` columns on the open line if it fits there, and drops it otherwise.
    fn put_fitting(&mut self, character: Character<T>, width: usize) -> Result<(), AllocError>
        requires { width ≡ width_of character.code }
        ensures { OnOk result (self.new ≡ record self.old { page = put_fitting self.old.setting self.old.page character }) }
    {
        if self.fits(width) {
            self.push_character(character, width)?;
        }
        Ok(())
    }

    /// Adds a mark to those that wait for the next character.
    pub(super) fn hold_mark(&mut self, mark: M) -> Result<(), AllocError>
        ensures { OnOk result (self.new ≡ record self.old { page = with_waiting_mark self.old.page mark }) }
    {
        self.waiting.push(mark)?;
        Ok(())
    }

    /// Returns the number of spaces that a tab becomes: those to the next multiple of 8 columns, from 1 to 8.
    fn tab_count(&self) -> usize
        ensures { result ≡ 8 - columns self.now.page.line % 8 }
    {
        8 - self.lines.past_tab_stop()
    }

    /// Places a character up to `count` times: on the open line, while it fits there.
    #[tactic(auto, using(crate::proofs::Copies::copies_left))]
    fn put_fitting_copies(
        &mut self,
        character: Character<T>,
        count: usize,
    ) -> Result<(), AllocError>
        ensures { OnOk result (self.new ≡ record self.old { page = fold (put_fitting self.old.setting) self.old.page (replicate count character) }) }
    {
        let width = width_of(character.code);
        for _k in 0..count {
            self.put_fitting(character, width)?;
        }
        Ok(())
    }

    /// Places a tab: spaces to the next multiple of 8 columns. Those that don't fit are placed on continuation lines.
    #[tactic(auto, using(crate::proofs::Tabs::tabs))]
    fn put_tab(&mut self, character: Character<T>) -> Result<(), Error>
        ensures ok { OnOk result (
            on_page self.old (put_items self.old.setting self.old.page (map (λ d. Item.Character d) (tab_spaces self.old.page character))) ≡ Some self.new) }
        ensures err { IfErr result (λ e.
            Refuses e (put_items self.old.setting self.old.page (map (λ d. Item.Character d) (tab_spaces self.old.page character)))) }
    {
        let style = TextStyle {
            mode: character.mode,
            tag: character.tag,
            continuation_tag: character.continuation_tag,
        };
        let count = self.tab_count();
        self.put_text(few_spaces(TAB, count), count, style)
    }

    /// Places a tab: those of the spaces to the next multiple of 8 columns that fit. The others are dropped.
    fn put_soft_tab(&mut self, character: Character<T>) -> Result<(), AllocError>
        ensures { OnOk result (self.new ≡ record self.old { page = fold (put_fitting self.old.setting) self.old.page (tab_spaces self.old.page character) }) }
    {
        let space = Character {
            code: ' ',
            ..character
        };
        self.put_fitting_copies(space, self.tab_count())
    }

    /// Places a character by itself, as its kind says. Does nothing for a kind that isn't placed by itself.
    fn put_single(&mut self, class: Class, character: Character<T>) -> Result<(), Error>
        requires { class.width ≡ width_of character.code }
        ensures ok { OnOk result (on_page self.old (put_single self.old.setting self.old.page class.kind character) ≡ Some self.new) }
        ensures err { IfErr result (λ e. Refuses e (put_single self.old.setting self.old.page class.kind character)) }
    {
        match class.kind {
            Kind::Preserved => self.put_character(character, class.width),
            Kind::Newline => {
                self.break_line()?;
                Ok(())
            }
            Kind::Tab => self.put_tab(character),
            Kind::SoftSpace => {
                self.put_fitting(character, class.width)?;
                Ok(())
            }
            Kind::SoftTab => {
                self.put_soft_tab(character)?;
                Ok(())
            }
            Kind::Letter | Kind::Space | Kind::Divider | Kind::Dropped => Ok(()),
        }
    }

    /// Places a character by itself, after the pending space if that fits. It is called while no word is open.
    #[tactic(auto, using(html_render_dom_values::specs::laws::Outcome::refusals))]
    pub(super) fn place_single(
        &mut self,
        class: Class,
        character: Character<T>,
    ) -> Result<(), Error>
        requires { class.width ≡ width_of character.code }
        ensures { Gives result (single_step self.old class.kind character) self.new }
    {
        self.settle_for(class.kind)?;
        self.put_single(class, character)
    }
}

/// Spaces of the widest tab.
const TAB: &str = "        ";

/// Returns the first `count` of 8 spaces.
fn few_spaces(text: &'static str, count: usize) -> &'static str
    requires text { text.now ≡ replicate 8 32 }
    requires few { count ≤ 8 }
    ensures { result.now ≡ replicate count 32 }
{
    &text[..count]
}
