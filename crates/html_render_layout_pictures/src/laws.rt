//! Laws of the picture, each the contract of a function that does nothing.

ghost use Rattle.std.specs.Prelude.{◌≡◌, ◌≤◌, ℕ, List, All, length, map, max, Bool, false, Some, replicate};
ghost use Rattle.unicode_width.specs.Width.{char_width};
ghost use Rattle.html_render_layout_lines.specs.Line.{columns, AllWithinWidth};
ghost use Rattle.html_render_layout_lines.specs.Visible.{visible_in_lines};
ghost use Rattle.html_render_layout_pictures.specs.Glyphs.{border_characters, glyphs};
ghost use Rattle.html_render_layout_pictures.specs.declared.borders.TheConstants.{BORDERS};
ghost use Rattle.html_render_layout_pictures.specs.Visible.{count};
ghost use Rattle.html_render_layout_pictures.specs.declared.picture.Frame.{Frame};
ghost use Rattle.html_render_layout_pictures.specs.Drawing.{with_rows, begun, finished};
ghost use Rattle.html_render_layout_pictures.specs.Picture.{KeptCell, TableRow, border, row_lines, separators_of, picture_lines, picture};
ghost use Rattle.html_render_layout_pictures.specs.Tags.{row_with, frame_with, drawn_with};
ghost use Rattle.html_render_layout_pictures.specs.Visible.{visible_in_rows};
ghost use Rattle.html_render_layout_pictures.specs.Widths.{row_width, KeepsToWidth, RowWithin, AllAsWide};

/// What is drawn row by row is the picture of all rows.
#[tactic(auto, using(crate::specs::laws::Rows::drawn_is))]
fn row_by_row_the_picture_is_drawn<T, M>()
    ensures { (frame : Frame T) (waiting : List M) (rows : List (TableRow T M)) →
        finished (with_rows (begun frame waiting) rows) ≡ picture frame waiting rows }
{}

/// A row whose cells' lines keep to their widths has its cells' widths and a column for each separator, in each of its
/// lines. A border is as wide as the wider of its neighbours.
#[tactic(auto, using(crate::proofs::LawSets::widths))]
fn rows_are_as_wide_as_their_cells<T, M>()
    ensures row { (frame : Frame T) (cells : List (KeptCell T M)) → All KeepsToWidth cells → AllAsWide (row_width cells) (row_lines frame cells) }
    ensures separators { (cells : List (KeptCell T M)) → length (separators_of cells) ≡ row_width cells }
    ensures border { (frame : Frame T) (above below : List Bool) → columns (border {M = M} frame above below) ≡ max (length above) (length below) }
{}

/// Where cells' lines keep to their widths, no line of a picture is wider than the table and all of its rows.
#[tactic(auto, using(crate::proofs::LawSets::widths))]
fn no_line_is_wider_than_the_table_and_its_rows<T, M>()
    ensures { (w : ℕ) (frame : Frame T) (waiting : List M) (rows : List (TableRow T M)) → frame.width ≤ w → All (RowWithin w) rows →
        AllWithinWidth w (picture_lines frame waiting rows) }
{}

/// A map of tags commutes with the picture, and no mark hangs on a tag.
#[tactic(auto, using(crate::specs::laws::Tags::picture_with))]
fn tags_pass_through<T, U, M>()
    ensures { (f : T → U) (frame : Frame T) (waiting : List M) (rows : List (TableRow T M)) →
        picture (frame_with f frame) waiting (map (row_with f) rows) ≡ drawn_with f (picture frame waiting rows) }
{}

/// Each visible character of the cells' lines is in the picture's lines at least as often.
fn no_visible_character_is_lost<T, M>()
    ensures { (c : ℕ) (frame : Frame T) (waiting : List M) (rows : List (TableRow T M)) →
        count c (visible_in_rows rows) ≤ count c (visible_in_lines (picture_lines frame waiting rows)) }
{}

/// States the border characters: ┼, ┴, ┬ and ─ draw borders, │ separates cells side by side, and lines of / stacked cells.
fn borders_are_box_drawings()
    ensures { BORDERS ≡ border_characters }
{}

/// States that a space and each border character take one column, by the tables of Unicode, outside of East Asian contexts.
#[tactic(auto, using(crate::specs::laws::BorderWidths::glyph_widths))]
fn glyphs_take_a_column_each()
    ensures { map (char_width false) glyphs ≡ replicate 7 (Some 1) }
{}
