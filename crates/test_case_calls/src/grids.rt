//! Questions about grids of tables: the spans of rows in, edges and slots out.

use crate::faults::Fault;
use crate::watch::Watch;
use html_render_parts::table::{Span, spans_are_valid, table_grid};
use std::alloc::Global;

/// Parses the span of a cell, `COLSPANxROWSPAN`. A word that is no span, such as `-`, is no cell.
fn span(word: &str) -> Option<Span> {
    let (colspan, rowspan) = word.split_once('x')?;
    Some(Span {
        colspan: colspan.parse().ok()?,
        rowspan: rowspan.parse().ok()?,
    })
}

/// Returns the result of `spans_are_valid`, or the lines of `table_grid`: its edges, and for each row the kind, the edges and
/// the number of columns of each slot. The rows that are given are separated by `/`.
pub fn answer(alloc: Global, asked: &str, given: &str, watch: Watch) -> Result<String, Fault> {
    let mut rows = Vec::new(alloc);
    for row in given.split_terminator('/') {
        let cells: Vec<Span> = row.split_whitespace().filter_map(span).collect(alloc)?;
        rows.push(cells)?;
    }
    watch.begin(asked);
    let are_valid = spans_are_valid(rows.as_slice());
    if asked == "spans_are_valid" {
        return watch.shown(alloc, Ok(are_valid));
    }
    if !are_valid {
        return Err(Fault::Malformed("a span is 0"));
    }
    let grid = watch.end(table_grid(alloc, rows.as_slice()))?;
    let mut shown = String::from_str(alloc, "|edges")?;
    for edge in &grid.edges {
        write!(shown, " {edge}")?;
    }
    for row in &grid.rows {
        shown.push_str("\n|")?;
        for (place, cell) in row.iter().enumerate() {
            let comma = if place > 0 { ", " } else { "" };
            let (kind, start, end, columns) = (cell.kind, cell.start, cell.end, cell.columns);
            write!(shown, "{comma}{kind:?} {start}..{end} ({columns})")?;
        }
    }
    shown.push('\n')?;
    Ok(shown)
}
