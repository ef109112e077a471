//! Borders between rows, drawn from separator to separator.

ghost use Rattle.std.specs.Prelude.{◌≡◌, ℕ, ◌+◌, ◌<◌, ◌≤◌, ◌++◌, ◌∷◌, [], false, get_or, length, map, OnOk, IfOk, IfSome};
ghost use Rattle.std.specs.List.{range_with_len};
ghost use Rattle.html_render_layout_lines.specs.declared.line.Element.TheVariants.{Character};
ghost use Rattle.html_render_layout_buffer.specs.Padding.{repeated};
ghost use Rattle.html_render_layout_pictures.specs.Picture as definition;
ghost use Rattle.html_render_layout_pictures.specs.Separators.{separators_from, separators_between, blank_before, joint_at};

use crate::borders::BORDERS;
use crate::gaps::{CHUNK, Filler, joint, push_fillers};
use crate::picture::Frame;
use html_render_layout_buffer::buffer::LineBuffer;
use html_render_layout_lines::tag::Tag;
use std::alloc::AllocError;

/// Returns the columns of a row whose cells have these widths, with its separators; `None` above `usize::MAX`.
fn column_count(widths: &[usize]) -> Option<usize>
    ensures { IfSome result (λ n. n ≡ length (separators_between widths.now)) }
{
    let [first, others @ ..] = widths else {
        return Some(0);
    };
    let mut count = *first;
    for width in others {
        count = count.checked_add(1)?.checked_add(*width)?;
    }
    Some(count)
}

/// Columns of a row from a position on.
#[derive(Drop)]
struct Columns<'a> {
    /// Columns before the next separator.
    blank: usize,
    /// Widths of the cells after that separator.
    others: &'a [usize],
}

impl<'a> Columns<'a> {
    /// Returns the columns of a row whose cells have these widths.
    fn new(widths: &'a [usize]) -> Columns<'a>
        ensures { separators_from result.blank result.others.now ≡ separators_between widths.now }
    {
        match widths {
            [] => Columns {
                blank: 0,
                others: widths,
            },
            [first, others @ ..] => Columns {
                blank: *first,
                others,
            },
        }
    }

    /// Returns the number of columns before the next separator; `usize::MAX` if none follows.
    fn blank(&self) -> usize
        ensures { result ≡ blank_before self.now.blank self.now.others.now }
    {
        if self.others.is_empty() {
            usize::MAX
        } else {
            self.blank
        }
    }

    /// Passes `count` columns without a separator and the next column. Reports whether that one has a separator.
    fn pass(&mut self, count: usize) -> bool
        requires { count ≤ blank_before self.old.blank self.old.others.now }
        ensures here { result ≡ get_or (separators_from self.old.blank self.old.others.now) count false }
        ensures left { (j : ℕ) → get_or (separators_from self.new.blank self.new.others.now) j false
            ≡ get_or (separators_from self.old.blank self.old.others.now) (count + 1 + j) false }
    {
        let [next, others @ ..] = self.others else {
            return false;
        };
        if count < self.blank {
            self.blank -= count + 1;
            return false;
        }
        self.blank = *next;
        self.others = others;
        true
    }
}

impl<T: Tag> Frame<T> {
    /// Appends horizontal border characters of `dashes` columns and the border character of the next column. `above` and
    /// `below` say whether the adjacent rows have a separator there.
    #[inline(always)]
    #[tactic(auto, using(crate::proofs::LawSets::gaps_put))]
    fn draw_joint<M: Copy>(
        &self,
        to: &mut LineBuffer<T, M>,
        dashes: usize,
        above: bool,
        below: bool,
    ) -> Result<(), AllocError>
        ensures { OnOk result (to.new ≡ record {
          lines = to.old.lines;
          line = (to.old.line ++ repeated self.now.tag BORDERS.line dashes) ++ Character (definition.joint above below) self.now.tag ∷ [];
        }) }
    {
        let few = dashes.min(CHUNK - 1);
        push_fillers(to, Filler::Dash, dashes - few, self.tag)?;
        to.push_str(joint(above, below, few), few + 1, self.tag)
    }

    /// Draws a border up to the next column with a separator above or below, that column included, and at most `most` columns.
    /// Returns the number of columns drawn.
    fn draw_piece<M: Copy>(
        &self,
        to: &mut LineBuffer<T, M>,
        above: &mut Columns<'_>,
        below: &mut Columns<'_>,
        most: usize,
    ) -> Result<usize, AllocError>
        requires { 0 < most }
        ensures lines { OnOk result (to.new.lines ≡ to.old.lines) }
        ensures drawn { IfOk result (λ n. to.new.line ≡ to.old.line ++ map (joint_at M self.now (separators_from above.old.blank above.old.others.now)
            (separators_from below.old.blank below.old.others.now)) (range_with_len 0 n)) }
        ensures some { IfOk result (λ n. 0 < n) }
        ensures within { IfOk result (λ n. n ≤ most) }
        ensures above { IfOk result (λ n. n < most → (j : ℕ) → get_or (separators_from above.new.blank above.new.others.now) j false
            ≡ get_or (separators_from above.old.blank above.old.others.now) (n + j) false) }
        ensures below { IfOk result (λ n. n < most → (j : ℕ) → get_or (separators_from below.new.blank below.new.others.now) j false
            ≡ get_or (separators_from below.old.blank below.old.others.now) (n + j) false) }
    {
        let dashes = above.blank().min(below.blank()).min(most);
        if dashes == most {
            push_fillers(to, Filler::Dash, dashes, self.tag)?;
            return Ok(most);
        }
        let (up, down) = (above.pass(dashes), below.pass(dashes));
        self.draw_joint(to, dashes, up, down)?;
        Ok(dashes + 1)
    }

    /// Draws a border of `width` columns.
    fn draw_border<M: Copy>(
        &self,
        to: &mut LineBuffer<T, M>,
        above: &mut Columns<'_>,
        below: &mut Columns<'_>,
        width: usize,
    ) -> Result<(), AllocError>
        ensures lines { OnOk result (to.new.lines ≡ to.old.lines) }
        ensures drawn { OnOk result (to.new.line ≡ to.old.line ++ map (joint_at M self.now (separators_from above.old.blank above.old.others.now)
            (separators_from below.old.blank below.old.others.now)) (range_with_len 0 width)) }
    {
        let mut drawn = 0;
        while drawn < width {
            let piece = self.draw_piece(to, above, below, width - drawn)?;
            drawn += piece;
        }
        Ok(())
    }

    /// Appends a border between two rows of the same columns: horizontal border characters, and a cross at each separator. The first
    /// cell has `first` columns, and the other cells have these widths.
    fn put_crosses<M: Copy>(
        &self,
        to: &mut LineBuffer<T, M>,
        first: usize,
        others: &[usize],
    ) -> Result<(), AllocError>
        ensures { OnOk result (to.new ≡ record {
          lines = to.old.lines;
          line = to.old.line ++ definition.border self.now (separators_from first others.now) (separators_from first others.now);
        }) }
    {
        let mut dashes = first;
        for width in others {
            self.draw_joint(to, dashes, true, true)?;
            dashes = *width;
        }
        push_fillers(to, Filler::Dash, dashes, self.tag)
    }

    /// Appends a border between two rows whose cells have these widths.
    pub(crate) fn put_border<M: Copy>(
        &self,
        to: &mut LineBuffer<T, M>,
        above: &[usize],
        below: &[usize],
    ) -> Result<(), AllocError>
        ensures { OnOk result (to.new ≡ record {
          lines = to.old.lines;
          line = to.old.line ++ definition.border self.now (separators_between above.now) (separators_between below.now);
        }) }
    {
        if let [first, others @ ..] = below {
            if above == below {
                return self.put_crosses(to, *first, others);
            }
        }
        let (Some(up), Some(down)) = (column_count(above), column_count(below)) else {
            return Err(AllocError);
        };
        let width = up.max(down);
        to.reserve(width.saturating_mul(BORDERS.line.len_utf8()), 1)?;
        let (mut above, mut below) = (Columns::new(above), Columns::new(below));
        self.draw_border(to, &mut above, &mut below, width)
    }
}
