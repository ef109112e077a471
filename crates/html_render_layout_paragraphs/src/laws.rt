//! Laws of the definition of a paragraph. Each is the contract of an empty function.

ghost use Rattle.std.specs.Prelude.{◌≡◌, ℕ, List, true, Some, IfSome, IsSome, option_and_then};
ghost use Rattle.html_render_layout_paragraphs.specs.CutText.{text_lines, together, AreLongest};
ghost use Rattle.html_render_layout_lines.specs.Line.{AllWithinWidth};
ghost use Rattle.html_render_layout_paragraphs.specs.Paragraph.{LineBuffer, Setting, without_overflow, with_overflow, paragraph, all_lines};
ghost use Rattle.html_render_layout_paragraphs.specs.Stream.{start, after, finished};
ghost use Rattle.html_render_layout_lines.specs.TaggedText.{under};
ghost use Rattle.html_render_layout_lines.specs.Visible.{visible_in_items, visible_in_lines};
ghost use Rattle.html_render_layout_lines.specs.declared.character.Item.{Item};

mod meaning;

/// States that the lines have exactly the visible characters that were fed, in order: none is lost, and none is added.
/// This holds for each width, with overflow on and off, unless the paragraph is too narrow.
#[tactic(auto, using(crate::specs::laws::Visible::paragraph_keeps))]
fn no_visible_character_is_lost<T, M>()
    ensures { (setting : Setting) (marks : List M) (items : List (Item T M)) →
        IfSome (paragraph setting marks items) (λ page. visible_in_lines (all_lines page) ≡ visible_in_items items) }
{}

/// States that no line passes the width with overflow off.
#[tactic(auto, using(crate::specs::laws::Beside::paragraph_within))]
fn no_line_passes_the_width<T, M>()
    ensures { (width : ℕ) (marks : List M) (items : List (Item T M)) →
        IfSome (paragraph (without_overflow width) marks items) (λ page. AllWithinWidth width (all_lines page)) }
{}

/// States that a paragraph is never too narrow with overflow on.
#[tactic(auto, using(crate::specs::laws::Beside::paragraph_some))]
fn overflow_is_never_too_narrow<T, M>()
    ensures { (width : ℕ) (marks : List M) (items : List (Item T M)) →
        IsSome (paragraph (with_overflow width) marks items) }
{}

/// States that a paragraph that isn't too narrow with overflow off is unchanged by overflow.
#[tactic(auto, using(crate::specs::laws::Beside::paragraph_same))]
fn overflow_gives_the_same_lines<T, M>()
    ensures { (width : ℕ) (marks : List M) (items : List (Item T M)) (page : LineBuffer T M) →
        paragraph (without_overflow width) marks items ≡ Some page → paragraph (with_overflow width) marks items ≡ Some page }
{}

/// States that feeding items one by one and then finishing gives the paragraph of all items.
#[tactic(auto, using(crate::specs::laws::Whole::fed))]
fn feeding_gives_the_whole_paragraph<T, M>()
    ensures { (setting : Setting) (marks : List M) (items : List (Item T M)) →
        option_and_then finished (after (start setting marks) items) ≡ paragraph setting marks items }
{}

/// States that the lines of a cut text have each of its characters, in order, and nothing else.
#[tactic(auto, using(crate::specs::laws::CutText::cuts))]
fn a_cut_text_is_whole<T, M>()
    ensures { (setting : Setting) (tag : T) (text : List ℕ) →
        IfSome (text_lines {M = M} setting true tag text) (λ lines. together lines ≡ under tag text) }
{}

/// States that a text is cut only where a line is full: what the next line begins with doesn't fit on it.
#[tactic(auto, using(crate::specs::laws::CutText::cuts))]
fn a_text_is_cut_where_lines_are_full<T, M>()
    ensures { (setting : Setting) (tag : T) (text : List ℕ) →
        IfSome (text_lines {M = M} setting true tag text) (AreLongest setting.width) }
{}
