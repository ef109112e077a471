//! Copies of ended lines, each after a prefix: first all texts, then all slots, then all ends. So little is done for each line.

ghost use Rattle.std.specs.Prelude.{◌≡◌, ◌+◌, ◌-◌, ◌*◌, ◌^◌, ◌≤◌, ◌<◌, ◌++◌, length, map, drop, OnOk, IfOk};
ghost use Rattle.std.specs.Str.{chars, IsUtf8};
ghost use Rattle.std.specs.String.{string_bytes};
ghost use Rattle.html_render_layout_lines.specs.TaggedText.{under};
ghost use Rattle.html_render_layout_buffer.specs.Lines.{lines_bytes};
ghost use Rattle.html_render_layout_buffer.specs.Fields.{line_ends, lines_slots};

use super::{LineBuffer, counted_sum};
use crate::ends::{LineEnd, place_of};
use crate::prefix::Prefix;
use crate::runs::{TagRuns, longer};
use crate::slot::Slot;
use html_render_layout_lines::tag::Tag;
use std::alloc::AllocError;

/// Appends a buffer's ended lines from line `from` on, each after a prefix.
pub(super) fn put_each_behind<T: Tag, M: Copy>(
    text: &mut String,
    slots: &mut TagRuns<Slot<T, M>>,
    ends: &mut Vec<LineEnd>,
    lines: &LineBuffer<T, M>,
    from: usize,
    prefix: &Prefix<'_, T>,
) -> Result<(), AllocError>
    requires { from ≤ length lines.now.lines }
    ensures text { OnOk result (string_bytes text.new ≡ string_bytes text.old
        ++ lines_bytes (map (λ l. under prefix.now.tag (chars prefix.now.text.now) ++ l) (drop from lines.now.lines))) }
    ensures slots { OnOk result (slots.new ≡ slots.old
        ++ lines_slots (map (λ l. under prefix.now.tag (chars prefix.now.text.now) ++ l) (drop from lines.now.lines))) }
    ensures ends { OnOk result (ends.new.items ≡ ends.old.items
        ++ line_ends (length (string_bytes text.old)) (length slots.old)
        (map (λ l. under prefix.now.tag (chars prefix.now.text.now) ++ l) (drop from lines.now.lines))) }
    ensures utf8 { IsUtf8 prefix.now.text.now }
{
    is_utf8(prefix.text);
    let (at, slot_at) = (text.as_str().len(), slots.len());
    put_texts(text, lines, from, prefix)?;
    put_slots(slots, lines, from, prefix)?;
    // the proof reads here that a machine word holds where they end
    let (_end, _slot_end) = (text.as_str().len(), slots.len());
    put_ends(ends, lines, from, prefix, at, slot_at)
}

/// States that a text is in UTF-8.
#[inline(always)]
fn is_utf8(text: &str)
    ensures { IsUtf8 text.now }
{
    let _ = text;
}

/// Appends the texts of ended lines from line `from` on, each after a prefix and with its newline.
fn put_texts<T: Tag, M: Copy>(
    text: &mut String,
    lines: &LineBuffer<T, M>,
    from: usize,
    prefix: &Prefix<'_, T>,
) -> Result<(), AllocError>
    requires from { from ≤ length lines.now.lines }
    requires utf8 { IsUtf8 prefix.now.text.now }
    ensures { OnOk result (string_bytes text.new ≡ string_bytes text.old
        ++ lines_bytes (map (λ l. under prefix.now.tag (chars prefix.now.text.now) ++ l) (drop from lines.now.lines))) }
{
    for n in from..lines.line_count() {
        text.push_str(prefix.text)?;
        text.push_str(lines.stored_line(n).ended)?;
    }
    Ok(())
}

/// Appends the slots of ended lines from line `from` on, each after those of a prefix. Most buffers have one tag.
fn put_slots<T: Tag, M: Copy>(
    slots: &mut TagRuns<Slot<T, M>>,
    lines: &LineBuffer<T, M>,
    from: usize,
    prefix: &Prefix<'_, T>,
) -> Result<(), AllocError>
    requires from { from ≤ length lines.now.lines }
    requires utf8 { IsUtf8 prefix.now.text.now }
    ensures { OnOk result (slots.new ≡ slots.old
        ++ lines_slots (map (λ l. under prefix.now.tag (chars prefix.now.text.now) ++ l) (drop from lines.now.lines))) }
{
    let one = Slot::Byte(prefix.tag);
    if lines.slots.has_one_tag(one) {
        return slots.push(count_behind(lines, from, prefix.text.len())?, one);
    }
    put_each_slots(slots, lines, from, prefix)
}

/// Returns the number of slots of ended lines from line `from` on, with `more` slots for each of them. `AllocError` if it
/// passes a machine word.
fn count_behind<T: Tag, M: Copy>(
    lines: &LineBuffer<T, M>,
    from: usize,
    more: usize,
) -> Result<usize, AllocError>
    requires { from ≤ length lines.now.lines }
    ensures { IfOk result (λ n. n ≡ (length lines.now.lines - from) * more + length (lines_slots (drop from lines.now.lines))) }
{
    let count = lines.line_count() - from;
    if count == 0 {
        return Ok(0);
    }
    let own = lines.slot_start - place_of(lines.ends.as_slice(), from).slots;
    match count.checked_mul(more) {
        Some(all) => longer(all, own),
        None => Err(AllocError),
    }
}

/// Appends the slots of ended lines from line `from` on, line by line, each after those of a prefix.
fn put_each_slots<T: Tag, M: Copy>(
    slots: &mut TagRuns<Slot<T, M>>,
    lines: &LineBuffer<T, M>,
    from: usize,
    prefix: &Prefix<'_, T>,
) -> Result<(), AllocError>
    requires from { from ≤ length lines.now.lines }
    requires utf8 { IsUtf8 prefix.now.text.now }
    ensures { OnOk result (slots.new ≡ slots.old
        ++ lines_slots (map (λ l. under prefix.now.tag (chars prefix.now.text.now) ++ l) (drop from lines.now.lines))) }
{
    for n in from..lines.line_count() {
        let line = lines.stored_line(n);
        slots.push(prefix.text.len(), Slot::Byte(prefix.tag))?;
        slots.append_range(line.slots, line.from, line.to)?;
    }
    Ok(())
}

/// Appends the ends of ended lines from line `from` on, each after a prefix, where the first one begins at the place `at` of the
/// text and at the slot `slot_at`.
fn put_ends<T: Tag, M: Copy>(
    ends: &mut Vec<LineEnd>,
    lines: &LineBuffer<T, M>,
    from: usize,
    prefix: &Prefix<'_, T>,
    at: usize,
    slot_at: usize,
) -> Result<(), AllocError>
    requires from { from ≤ length lines.now.lines }
    requires utf8 { IsUtf8 prefix.now.text.now }
    requires text_fits { at + length (lines_bytes (map (λ l. under prefix.now.tag (chars prefix.now.text.now) ++ l) (drop from lines.now.lines))) < 2 ^ 64 }
    requires slots_fit { slot_at + length (lines_slots (map (λ l. under prefix.now.tag (chars prefix.now.text.now) ++ l) (drop from lines.now.lines))) < 2 ^ 64 }
    ensures { OnOk result (ends.new.items ≡ ends.old.items
        ++ line_ends at slot_at (map (λ l. under prefix.now.tag (chars prefix.now.text.now) ++ l) (drop from lines.now.lines))) }
{
    let mut end = at;
    let mut slot_end = slot_at;
    for n in from..lines.line_count() {
        let line = lines.stored_line(n);
        end += prefix.text.len() + line.ended.len();
        slot_end += prefix.text.len() + (line.to - line.from);
        let columns = counted_sum(prefix.columns, line.columns);
        ends.push(LineEnd::new(end, slot_end, columns))?;
    }
    Ok(())
}
