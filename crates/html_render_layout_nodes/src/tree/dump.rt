//! Display of a render tree for debugging: `Container`, ` Block` and `  Text` for a paragraph with a text.

ghost use Rattle.std.specs.Prelude.{◌≡◌, Some, replicate};
ghost use Rattle.std.specs.Fmt.{WritesOnOk};
ghost use Rattle.html_render_layout_nodes.specs.Dump.{tree_dump, tree_line};

use super::RenderTree;
use super::depths::OpenSubtrees;
use std::fmt;

/// Writes `depth` spaces, a name and a line feed.
fn write_line<W: fmt::Write>(f: &mut fmt::Formatter<W>, depth: usize, name: &str) -> fmt::Result
    ensures { WritesOnOk W.write_str_gives f.old result (tree_line depth name.now) f.new }
{
    write_indent(f, depth)?;
    f.write_str(name)?;
    f.write_str("\n")
}

/// Writes `depth` spaces.
fn write_indent<W: fmt::Write>(f: &mut fmt::Formatter<W>, depth: usize) -> fmt::Result
    ensures { WritesOnOk W.write_str_gives f.old result (replicate depth 32) f.new }
{
    for _ in 0..depth {
        f.write_str(" ")?;
    }
    Ok(())
}

/// Displays a render tree as one line for each node in pre-order: its depth in spaces, the name of its kind, and a line
/// feed. Allocates nothing.
impl fmt::Display for RenderTree {
    ghost output = { λ tree. Some (tree_dump 0 tree) };

    fn fmt<W: fmt::Write>(&self, f: &mut fmt::Formatter<W>) -> fmt::Result {
        let entries = self.nodes.entries();
        let mut open = OpenSubtrees::none();
        for (place, entry) in entries.iter().enumerate() {
            open.leave(place, &entries[..place]);
            write_line(f, open.depth, entry.node.kind.name())?;
            open.add(place, place, entry.subtree_len);
        }
        Ok(())
    }
}
