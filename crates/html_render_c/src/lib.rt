//! The interface for C: one call renders a document, given as steps over one text, to a text or to records of lines.
//!
//! The exports test all numbers that they are given, and refuse those without a meaning. The caller ensures what no test can
//! see: that pointers and lengths are those of arrays that nothing else changes, and that `malloc` and `free` are the
//! program's own.
#![tactic(auto)]

ghost use Rattle.std.specs.Prelude.{◌≡◌, ◌≤◌, ◌-◌, IfOk, IfErr, length};
ghost use Rattle.std.specs.Ptr.{as_mut_ptr};
ghost use Rattle.html_render_tree_records.specs.Faults.{code_of, record_of, HasBytesAt, IsGiven};
ghost use Rattle.html_render_tree_records.specs.Pages.{IsPlainLines, IsPlainText, IsReturned, IsRichLines, IsRichText};

use html_render_tree::decorate::RichAnnotation;
use html_render_tree_records::faults::Fault;
use html_render_tree_records::rendering::{self, Given};
use html_render_tree_records::settings::Setting;
use html_render_tree_records::step::Step;
use std::alloc::Global;

/// Returns the address of a slice.
fn address(slice: &mut [u8]) -> *mut u8
    ensures { (result ≡ as_mut_ptr slice.entry) × (slice.new ≡ slice.old) }
{
    slice.as_mut_ptr()
}

/// Gives the memory of bytes away: sets `out` to the address of the slice that it returns, which nothing frees.
fn hand_over(bytes: Vec<u8>, out: &mut *mut u8) -> &'static mut [u8]
    ensures { HasBytesAt result bytes.items out.new }
{
    let slice = bytes.leak();
    *out = address(slice);
    slice
}

/// Returns the status of a result, and its bytes as the slice that is given away, at the address that `out` is set to. The last
/// byte is a zero that `size` doesn't count. For a fault it sets `size` to the number of the faulty record.
fn give(
    rendered: Result<Vec<u8>, Fault>,
    out: &mut *mut u8,
    size: &mut usize,
) -> (u32, Option<&'static mut [u8]>)
    ensures ok { IfOk rendered (λ ended. (result.0 ≡ 0) × (size.new ≡ length ended.items - 1) × IsGiven result.1 ended.items out.new) }
    ensures err { IfErr rendered (λ fault. (result.0 ≡ code_of fault) × (size.new ≡ record_of fault) × (out.new ≡ out.old)) }
    ensures status { result.0 ≤ 6 }
{
    match rendered {
        Ok(ended) => {
            let slice = hand_over(ended, out);
            *size = slice.len().saturating_sub(1);
            (0, Some(slice))
        }
        Err(fault) => {
            *size = fault.record();
            (fault.code(), None)
        }
    }
}

/// Renders the document that steps build as a text, wrapped to `width` columns.
///
/// The names and texts of steps and settings are pieces of `text`. `decorator` is 0 for that of plain text, and 1 for that
/// of rich text. Returns a status:
///
/// - 0: `out` is the address of the text, in UTF-8, with a zero byte after it, and `size` is its length in bytes without the
///   zero. The caller frees it.
/// - 3: Memory is out, which is possible at any time.
/// - Otherwise the first of these causes: 6, there is no such decorator; 5, a setting is faulty; 4, a step is faulty; 2, the
///   document has no render tree; 1, the width is too narrow.
///
/// Statuses 4 and 5 set `size` to the number of the first faulty record, from 0. Statuses 1, 2, 3 and 6 set it to 0. With
/// any status but 0 there is nothing to free, and `out` isn't changed.
#[unsafe(no_mangle)]
pub extern "C" fn html_render_text(
    alloc: Global,
    steps: &[Step],
    text: &[u8],
    settings: &[Setting],
    decorator: u32,
    width: usize,
    out: &mut *mut u8,
    size: &mut usize,
) -> u32
    ensures status { result ≤ 6 }
    ensures plain { decorator ≡ 0 → IsReturned (IsPlainText text.now steps.now settings.now width) result size.new out.old out.new }
    ensures rich { decorator ≡ 1 → IsReturned (IsRichText text.now steps.now settings.now width) result size.new out.old out.new }
    ensures other { 2 ≤ decorator → (result ≡ 6) × (size.new ≡ 0) × (out.new ≡ out.old) }
{
    let given = Given {
        steps,
        text,
        settings,
    };
    let (status, _) = give(rendering::text(alloc, given, decorator, width), out, size);
    status
}

/// Renders the document that steps build as lines of tagged strings, wrapped to `width` columns.
///
/// Returns a status as [`html_render_text`] does, with records of the lines instead of the text. A record is a letter and
/// its contents:
///
/// - `L`: the start of a line; no contents.
/// - `S`: a string: the number of its annotations, their records, the length of its text in bytes, and the text.
/// - `F`: a fragment mark: the length of its name in bytes, and the name.
///
/// A number has 4 bytes, the lowest first; one above 2^32 - 1 is written as 2^32 - 1. The record of an annotation is also a
/// letter and its contents. With the decorator of plain text it is always `d`.
///
/// - `d`: no meaning of its own (`Default`).
/// - `l`, `i`: a link, an image: the length of its target or source in bytes, and the target or source.
/// - `e`, `b`, `s`, `c`: emphasis, strong text, struck-out text, code.
/// - `p`, `q`: preformatted text, the latter on a continuation line.
/// - `f`, `g`: a colour, a background: red, green and blue, a byte each.
#[unsafe(no_mangle)]
pub extern "C" fn html_render_lines(
    alloc: Global,
    steps: &[Step],
    text: &[u8],
    settings: &[Setting],
    decorator: u32,
    width: usize,
    out: &mut *mut u8,
    size: &mut usize,
) -> u32
    ensures status { result ≤ 6 }
    ensures plain { decorator ≡ 0 → IsReturned (IsPlainLines text.now steps.now settings.now width) result size.new out.old out.new }
    ensures rich { decorator ≡ 1 → IsReturned (IsRichLines ⟦<RichAnnotation as PartialEq>⟧.eq text.now steps.now settings.now width) result size.new out.old out.new }
    ensures other { 2 ≤ decorator → (result ≡ 6) × (size.new ≡ 0) × (out.new ≡ out.old) }
{
    let given = Given {
        steps,
        text,
        settings,
    };
    let (status, _) = give(rendering::lines(alloc, given, decorator, width), out, size);
    status
}
