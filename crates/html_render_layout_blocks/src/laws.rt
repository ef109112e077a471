//! Laws of the definition of blocks. Each is the contract of an empty function.

ghost use Rattle.std.specs.Prelude.{◌≡◌, ℕ, Bool, false, true, List, [], ◌∷◌, Option, Some, ◌++◌, IfSome, length, option_and_then, option_map};
ghost use Rattle.std.specs.List.{list_all};
ghost use Rattle.html_render_dom_values.specs.declared.white_space.WhiteSpace.TheVariants.{Normal};
ghost use Rattle.html_render_parts_widths.specs.declared.shares.ColumnNeed.{ColumnNeed};
ghost use Rattle.html_render_parts.specs.TableCells.{CellGrid};
ghost use Rattle.html_render_layout_paragraphs.specs.Paragraph.{Setting, paragraph};
ghost use Rattle.html_render_layout_lines.specs.Character.{is_collapsible};
ghost use Rattle.html_render_layout_lines.specs.Line.{AllWithinWidth};
ghost use Rattle.html_render_layout_lines.specs.declared.character.TextStyle.{TextStyle};
ghost use Rattle.html_render_layout_lines.specs.declared.character.Item.{Item};
ghost use Rattle.html_render_layout_blocks.specs.Block as blocks;
ghost use Rattle.html_render_layout_blocks.specs.Block.{empty_block, mark_items, flush, end_table, inner_block};
ghost use Rattle.html_render_layout_blocks.specs.CellByCell.{finished_of, with_finished, added_cell, added_rows, inside_row, added_table};
ghost use Rattle.html_render_layout_blocks.specs.Definition.{definition, ending, operations};
ghost use Rattle.html_render_layout_blocks.specs.Edits.{Edits, edited};
ghost use Rattle.html_render_layout_blocks.specs.Machine as machine;
ghost use Rattle.html_render_layout_blocks.specs.Machine.{machine, MachineBlock};
ghost use Rattle.html_render_layout_blocks.specs.WholeTable.{FinishedBlock, table_plan, cell_block_width, with_whole_table};
ghost use Rattle.html_render_layout_blocks.specs.declared.block.BlockSetting.{BlockSetting};

/// States that marks fed to an empty paragraph wait before it, after those that wait there already. So the marks of a
/// sub-block without lines, which are fed to the outer block, wait there like its own.
#[tactic(auto, using(crate::specs::laws::BlockMarks::marks_first))]
fn marks_that_are_fed_first_wait<T, M>()
    ensures { (setting : Setting) (waiting marks : List M) (items : List (Item T M)) →
        paragraph setting waiting (mark_items marks ++ items) ≡ paragraph setting (waiting ++ marks) items }
{}

/// States that with overflow off no line of a block passes the block's width, after any operations on the block and on
/// the blocks in it. Closing lines are cut in these operations.
#[tactic(auto, using(crate::specs::laws::EditsWithin::edits_within))]
fn no_line_passes_the_width_of_its_block<T>()
    ensures { (edits : Edits T) (setting : BlockSetting) (padding : Option T) → setting.overflow ≡ false →
        IfSome (edited operations ending edits (empty_block definition setting padding)) (λ block. AllWithinWidth setting.width block.lines) }
{}

/// States that appending a sub-block of white space alone begins a new line, and does no more.
fn white_space_alone_is_a_new_line<T, M>()
    ensures { (b : MachineBlock T M) (prefix inner : ℕ) (style : TextStyle T) (cs : List ℕ) (tag : T) (first later : List ℕ) → style.mode ≡ Normal →
        list_all is_collapsible cs ≡ true →
        option_and_then (λ sub. option_and_then (λ done. machine.operations.append b done tag first later)
        (machine.operations.add_inline_text sub style cs)) (machine.operations.sub_block b tag first later prefix inner)
        ≡ option_and_then (λ sub. machine.operations.new_line b) (machine.operations.sub_block b tag first later prefix inner) }
{}

/// States that a table which is begun in a block, given the finished blocks of its cells and ended is one function of these
/// blocks, `with_whole_table`. Beginning it ends an open table and flushes the block. The result is `None` exactly if that
/// is too narrow. There may be more or fewer rows and cells than the grid has.
#[tactic(auto)]
fn a_table_is_that_of_its_finished_cells<T, M>()
    ensures { (b : MachineBlock T M) (tag : T) (borders stacked : Bool) (grid : CellGrid) (needs : List ColumnNeed) (rows : List (List (FinishedBlock T M))) →
        added_table machine b tag borders stacked grid needs rows
        ≡ option_map (λ (e : MachineBlock T M). with_finished machine e
        (with_whole_table (table_plan e.setting.width tag borders stacked grid needs) rows (finished_of machine e))) (flush machine (end_table machine b)) }
{}

/// States that the empty block for a cell has the width `cell_block_width`, which depends only on the table's plan and on
/// the numbers of the row and of the cell. A cell without such a width is skipped.
#[tactic(auto)]
fn each_cell_has_its_planned_width<T, M>()
    ensures { (b : MachineBlock T M) (tag : T) (borders stacked : Bool) (grid : CellGrid) (needs : List ColumnNeed) (rows : List (List (FinishedBlock T M)))
        (cells : List (FinishedBlock T M)) →
        option_and_then (λ c. option_map (blocks.operations machine).cell_block (inside_row machine c rows cells))
        ((blocks.operations machine).begin_table b tag borders stacked grid needs)
        ≡ option_map (λ (e : MachineBlock T M). option_map (inner_block machine e)
        (cell_block_width (table_plan e.setting.width tag borders stacked grid needs) (length rows) (length cells))) (flush machine (end_table machine b)) }
{}

/// States that adding a cell uses nothing of its block but the width and, once it is flushed, its lines and waiting marks.
#[tactic(auto)]
fn a_cell_adds_its_finished_block<T, M>()
    ensures { (b cell : MachineBlock T M) → (blocks.operations machine).add_cell b cell
        ≡ option_and_then
        (λ c. (blocks.operations machine).add_cell b (with_finished machine (inner_block machine b c.setting.width) (finished_of machine c)))
        (flush machine (end_table machine cell)) }
{}

/// States that rows and cells can be added one operation at a time. In an open table, `begin_row` begins the row after
/// those added, a cell is added to the cells of its row, and `end_row` makes these a whole row.
#[tactic(auto)]
fn a_table_grows_cell_by_cell<T, M>()
    ensures begins { (begun b : MachineBlock T M) (rows : List (List (FinishedBlock T M))) → added_rows machine begun rows ≡ Some b →
        inside_row machine begun rows [] ≡ Some ((blocks.operations machine).begin_row b) }
    ensures adds { (begun b : MachineBlock T M) (rows : List (List (FinishedBlock T M))) (cells : List (FinishedBlock T M)) (cell : FinishedBlock T M) →
        inside_row machine begun rows cells ≡ Some b →
        inside_row machine begun rows (cells ++ cell ∷ []) ≡ added_cell machine b cell ((blocks.operations machine).cell_block b) }
    ensures ends { (begun b : MachineBlock T M) (rows : List (List (FinishedBlock T M))) (cells : List (FinishedBlock T M)) →
        inside_row machine begun rows cells ≡ Some b → added_rows machine begun (rows ++ cells ∷ []) ≡ (blocks.operations machine).end_row b }
{}
