//! Greatest value over each column, of values that each cover a range of columns.

ghost use Rattle.std.specs.Prelude.{◌≡◌, ◌≤◌, ◌<◌, ◌+◌, ◌-◌, ◌*◌, ◌==◌, ℕ, length, max, slice_index, if◌then◌else◌, IfOk, OnOk};
ghost use Rattle.html_render_parts_widths.specs.Spans.{AreOver, AreGreatest};
ghost use Rattle.html_render_parts_widths.specs.SpanSteps.{IsSpread, span_at, split_at, raised_at};

use std::alloc::{AllocError, Global};

/// A value that covers neighbouring columns.
#[derive(Clone, Copy)]
pub struct Span {
    /// Index of the first column.
    pub start: usize,
    /// Number of columns.
    pub count: usize,
    /// Value of each of these columns.
    pub value: usize,
}

/// Replaces `values` by `count` zeros.
fn put_zeros(values: &mut Vec<usize>, count: usize) -> Result<(), AllocError>
    ensures len { OnOk result (length values.new.items ≡ count) }
    ensures each { OnOk result ((k : ℕ) → slice_index values.new.items k ≡ 0) }
{
    values.clear();
    values.reserve_exact(count)?;
    for _ in 0..count {
        values.push(0)?;
    }
    Ok(())
}

/// Returns the greatest number of columns of a span; 0 without spans.
#[tactic(auto, using(crate::proofs::Spreading::counts_more))]
fn longest(spans: &[Span]) -> usize
    ensures { (k : ℕ) → k < length spans.now → (span_at spans.now k).count ≤ result }
{
    let mut longest = 0;
    for at in 0..spans.len() {
        longest = longest.max(spans[at].count);
    }
    longest
}

/// Replaces each value by the greater of itself and the old value `offset` places to its left, if there is one.
fn split(values: &mut Vec<usize>, offset: usize)
    requires { 0 < offset }
    ensures len { length values.new.items ≡ length values.old.items }
    ensures each { (k : ℕ) → k < length values.old.items → slice_index values.new.items k ≡ split_at offset values.old.items k }
{
    let mut at = values.len();
    while at > offset {
        at -= 1;
        values[at] = values[at].max(values[at - offset]);
    }
}

/// Raises the value at `at` to at least `value`.
fn raise(values: &mut Vec<usize>, at: usize, value: usize)
    requires { at < length values.old.items }
    ensures len { length values.new.items ≡ length values.old.items }
    ensures each { (k : ℕ) → slice_index values.new.items k
        ≡ (if k == at then max (slice_index values.old.items k) value else slice_index values.old.items k) }
{
    values[at] = values[at].max(value);
}

/// Adds a span of at least `columns` and at most twice `columns` columns to values that each count for `columns` columns.
///
/// Raises two values: the one at the span's start, and the one whose last column is the span's last. Together they cover
/// the span.
fn add(values: &mut Vec<usize>, span: Span, columns: usize)
    requires inside { span.start + span.count ≤ length values.old.items }
    requires least { columns ≤ span.count }
    requires some { 0 < columns }
    ensures len { length values.new.items ≡ length values.old.items }
    ensures each { (k : ℕ) → slice_index values.new.items k ≡ raised_at columns span values.old.items k }
{
    raise(values, span.start, span.value);
    raise(values, span.start + (span.count - columns), span.value);
}

/// Adds the span `spans[at]` if it has at least `columns` and fewer than `longer` columns.
#[tactic(auto, using(crate::proofs::Spreading::added, crate::proofs::Spreading::passed))]
fn add_at(values: &mut Vec<usize>, spans: &[Span], at: usize, columns: usize, longer: usize)
    requires over { AreOver (length values.old.items) spans.now }
    requires some { 0 < columns }
    requires twice { longer ≤ 2 * columns }
    requires inside { at < length spans.now }
    requires spread { IsSpread (length values.old.items) columns longer at spans.now values.old.items }
    ensures { IsSpread (length values.old.items) columns longer (at + 1) spans.now values.new.items }
{
    let span = spans[at];
    if span.count < columns || span.count >= longer {
        return;
    }
    add(values, span, columns);
}

/// Adds each span that has at least `columns` and fewer than `longer` columns.
#[tactic(auto, using(crate::proofs::Spreading::all_added))]
fn add_all(values: &mut Vec<usize>, spans: &[Span], columns: usize, longer: usize)
    requires over { AreOver (length values.old.items) spans.now }
    requires some { 0 < columns }
    requires twice { longer ≤ 2 * columns }
    requires spread { IsSpread (length values.old.items) columns longer 0 spans.now values.old.items }
    ensures { IsSpread (length values.old.items) columns columns 0 spans.now values.new.items }
{
    for at in 0..spans.len() {
        add_at(values, spans, at, columns, longer);
    }
}

/// Replaces `values` by the greatest value of the spans over each column; 0 for a column without a span.
///
/// Takes one pass over columns and spans for each binary digit of the longest span's number of columns. The caller
/// ensures that the spans are within `columns`.
#[tactic(auto, using(crate::proofs::Spreading::begun, crate::proofs::Spreading::split_spread, crate::proofs::Spreading::ended))]
pub(crate) fn put_greatest(
    values: &mut Vec<usize>,
    columns: usize,
    spans: &[Span],
) -> Result<(), AllocError>
    requires { AreOver columns spans.now }
    ensures { OnOk result (AreGreatest columns spans.now values.new.items) }
{
    put_zeros(values, columns)?;
    let mut longer = longest(spans).min(columns) + 1;
    while longer > 1 {
        let offset = longer / 2;
        split(values, offset);
        add_all(values, spans, longer - offset, longer);
        longer -= offset;
    }
    Ok(())
}

/// Returns the greatest value of the spans over each column; 0 for a column without a span.
///
/// Takes one pass over columns and spans for each binary digit of the longest span's number of columns. The caller
/// ensures that the spans are within `columns`.
///
/// # Errors
///
/// `AllocError` if an allocation is refused.
pub fn greatest_values(
    alloc: Global,
    columns: usize,
    spans: &[Span],
) -> Result<Vec<usize>, AllocError>
    requires { AreOver columns spans.now }
    ensures { IfOk result (λ values. AreGreatest columns spans.now values.items) }
{
    let mut values = Vec::new(alloc);
    put_greatest(&mut values, columns, spans)?;
    Ok(values)
}
