//! Laws of the definition of a paragraph's lines that places nothing: these are the placed lines. Each is the contract of an
//! empty function.

ghost use Rattle.std.specs.Prelude.{◌≡◌, List, All, Some};
ghost use Rattle.html_render_layout_lines.specs.Line.{Line};
ghost use Rattle.html_render_layout_paragraphs.specs.Paragraph.{LineBuffer, Setting, paragraph, all_lines};
ghost use Rattle.html_render_layout_lines.specs.declared.character.Item.{Item};
ghost use Rattle.html_render_layout_paragraphs.specs.Meaning.{IsParagraph, IsWithinOrSingle};

/// States that the placed lines are lines of the paragraph, and the marks that wait at the end are left over.
#[tactic(auto, using(crate::specs::laws::meaning::Meant::placed_paragraph))]
fn placed_lines_are_the_paragraphs<T, M>()
    ensures { (setting : Setting) (marks : List M) (items : List (Item T M)) (page : LineBuffer T M) →
        paragraph setting marks items ≡ Some page → IsParagraph setting marks items (all_lines page) page.waiting }
{}

/// States that only the placed lines are lines of the paragraph. So a paragraph that is too narrow has no lines.
#[tactic(auto, using(crate::specs::laws::meaning::Placed::paragraph_placed))]
fn the_paragraphs_lines_are_placed<T, M>()
    ensures { (setting : Setting) (marks : List M) (items : List (Item T M)) (lines : List (Line T M)) (left : List M) →
        IsParagraph setting marks items lines left →
        (page : LineBuffer T M) × (paragraph setting marks items ≡ Some page) × (all_lines page ≡ lines) × (page.waiting ≡ left) }
{}

/// States that the lines of a paragraph are unique.
#[tactic(auto, using(crate::specs::laws::meaning::Placed::paragraph_unique))]
fn a_paragraph_has_one_list_of_lines<T, M>()
    ensures { (setting : Setting) (marks : List M) (items : List (Item T M)) (one : List (Line T M)) (other : List (Line T M))
        (left : List M) (others : List M) → IsParagraph setting marks items one left → IsParagraph setting marks items other others →
        (one ≡ other) × (left ≡ others) }
{}

/// States that no line of a paragraph passes the width, except for a single character with overflow on.
#[tactic(auto, using(crate::specs::laws::meaning::Widths::described_within))]
fn no_line_passes_the_width_but_a_single_character<T, M>()
    ensures { (setting : Setting) (marks : List M) (items : List (Item T M)) (lines : List (Line T M)) (left : List M) →
        IsParagraph setting marks items lines left → All (IsWithinOrSingle setting) lines }
{}
