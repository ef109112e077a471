//! Laws of the grouping of a line. Each is the contract of an empty function.

ghost use Rattle.std.specs.Prelude.{◌≡◌, ℕ, List};
ghost use Rattle.html_render_layout_lines.specs.Line.{Line};
ghost use Rattle.html_render_layout_tagged.specs.Grouping.{grouped, AreLongest, strings_characters, line_characters};

/// States that the strings of a line are the longest: none is empty, and none is directly followed by one with an equal tag.
fn strings_are_the_longest<T: Eq>()
    ensures { (names : List (List ℕ)) (line : Line T ℕ) → AreLongest T.eq (grouped T.eq names line) }
{}

/// States that the strings of a line hold all its characters, in order.
fn strings_hold_all_characters<T: Eq>()
    ensures { (names : List (List ℕ)) (line : Line T ℕ) → strings_characters (grouped T.eq names line) ≡ line_characters line }
{}
