//! Rendering of a document of steps, to a text or to records of lines.

ghost use Rattle.std.specs.Prelude.{◌≡◌, ◌≤◌, ◌++◌, ◌∷◌, [], Some, Ok, Err, IfOk, IfErr, string_bytes};
ghost use Rattle.html_render_tree_records.specs.Pages.{Ends, IsDocumentOutcome, IsOutcome, IsPlainLines, IsPlainText, IsRichLines, IsRichText, IsTreeFault, IsTreeOf, records_written, text_written};
ghost use Rattle.html_render_tree_records.specs.Settings.{configured, IsSettingFault};

use crate::faults::Fault;
use crate::lines::{Written, write_lines};
use crate::settings::{Setting, with_setting};
use html_render_dom::steps::building::built;
use html_render_dom::steps::step::Step;
use html_render_tree::config::{Config, plain_no_decorate, rich};
use html_render_tree::decorate::{RichAnnotation, TextDecorator};
use html_render_tree::tree::RenderTree;
use std::alloc::{AllocError, Global};

/// Arguments of a call: the steps of a document, and the settings, over one text.
#[derive(Clone, Copy)]
pub struct Given<'a> {
    /// Steps that build the document.
    pub steps: &'a [Step],
    /// Text of which the names and texts of steps and settings are pieces.
    pub text: &'a [u8],
    /// Settings of the configuration.
    pub settings: &'a [Setting],
}

/// Applies the settings to a configuration, in order.
///
/// # Errors
///
/// `Setting` with the number, from 0, of the first faulty record. `OutOfMemory`.
fn with_settings<D: TextDecorator>(
    alloc: Global,
    config: Config<D>,
    text: &[u8],
    settings: &[Setting],
) -> Result<Config<D>, Fault>
    ensures ok { IfOk result (λ made. configured text.now settings.now config ≡ Some made) }
    ensures err { IfErr result (λ fault. IsSettingFault text.now settings.now config fault) }
{
    let mut config = config;
    let mut rest = settings;
    while let Some((setting, behind)) = rest.split_first() {
        match with_setting(alloc, config, text, setting)? {
            Some(made) => config = made,
            None => return Err(Fault::Setting(settings.len() - rest.len())),
        }
        rest = behind;
    }
    Ok(config)
}

/// Returns the render tree of the document that the steps build.
///
/// # Errors
///
/// `Step` with the number, from 0, of the first faulty step. `Fail` if the document has no render tree. `OutOfMemory`.
fn tree_of<D: TextDecorator>(
    alloc: Global,
    given: Given<'_>,
    config: &Config<D>,
) -> Result<RenderTree, Fault>
    ensures ok { IfOk result (λ tree. IsTreeOf config.now.rules given.entry.text.now given.entry.steps.now tree) }
    ensures err { IfErr result (λ fault. IsTreeFault config.now.rules given.entry.text.now given.entry.steps.now fault) }
{
    let dom = built(alloc, given.text, given.steps)?;
    Ok(config.dom_into_render_tree(alloc, dom)?)
}

/// Returns bytes with a zero byte after them.
fn ended(bytes: Vec<u8>) -> Result<Vec<u8>, AllocError>
    ensures { IfOk result (λ ended. ended.items ≡ bytes.items ++ 0 ∷ []) }
{
    let mut bytes = bytes;
    bytes.push(0)?;
    Ok(bytes)
}

/// Returns the text of the document under a configuration.
fn text_under<D: TextDecorator>(
    alloc: Global,
    given: Given<'_>,
    config: &Config<D>,
    width: usize,
) -> Result<Vec<u8>, Fault>
    ensures ok { IfOk result (λ bytes. IsDocumentOutcome (text_written D.decoration width) config.now given.entry.text.now given.entry.steps.now (Ok bytes.items)) }
    ensures err { IfErr result (λ fault. IsDocumentOutcome (text_written D.decoration width) config.now given.entry.text.now given.entry.steps.now (Err fault)) }
{
    let tree = tree_of(alloc, given, config)?;
    Ok(config.render_to_string(alloc, tree, width)?.into_bytes())
}

/// Returns the records of the document's lines under a configuration.
fn records_under<D: TextDecorator>(
    alloc: Global,
    given: Given<'_>,
    config: &Config<D>,
    width: usize,
) -> Result<Vec<u8>, Fault>
where
    D::Annotation: Written,
    ensures ok { IfOk result (λ bytes. IsDocumentOutcome (records_written D.decoration D.Annotation.eq D.Annotation.annotation_record width)
        config.now given.entry.text.now given.entry.steps.now (Ok bytes.items)) }
    ensures err { IfErr result (λ fault. IsDocumentOutcome (records_written D.decoration D.Annotation.eq D.Annotation.annotation_record width)
        config.now given.entry.text.now given.entry.steps.now (Err fault)) }
{
    let tree = tree_of(alloc, given, config)?;
    let lines = config.render_to_lines(alloc, tree, width)?;
    let mut bytes = Vec::new(alloc);
    write_lines(&mut bytes, &lines)?;
    Ok(bytes)
}

/// Applies the settings to a configuration, and returns the text of the document under it, with a zero byte after it.
fn text_with<D: TextDecorator>(
    alloc: Global,
    given: Given<'_>,
    config: Config<D>,
    width: usize,
) -> Result<Vec<u8>, Fault>
    ensures { Ends (IsOutcome (text_written D.decoration width) config given.entry.text.now given.entry.steps.now given.entry.settings.now) result }
{
    let config = with_settings(alloc, config, given.text, given.settings)?;
    let text = text_under(alloc, given, &config, width)?;
    Ok(ended(text)?)
}

/// Applies the settings to a configuration, and returns the records of the document's lines under it, with a zero byte after
/// them.
fn lines_with<D: TextDecorator>(
    alloc: Global,
    given: Given<'_>,
    config: Config<D>,
    width: usize,
) -> Result<Vec<u8>, Fault>
where
    D::Annotation: Written,
    ensures { Ends (IsOutcome (records_written D.decoration D.Annotation.eq D.Annotation.annotation_record width) config
        given.entry.text.now given.entry.steps.now given.entry.settings.now) result }
{
    let config = with_settings(alloc, config, given.text, given.settings)?;
    let records = records_under(alloc, given, &config, width)?;
    Ok(ended(records)?)
}

/// Returns the text of the document with the decorator of plain text, with a zero byte after it.
fn plain_text(alloc: Global, given: Given<'_>, width: usize) -> Result<Vec<u8>, Fault>
    ensures { Ends (IsPlainText given.entry.text.now given.entry.steps.now given.entry.settings.now width) result }
{
    text_with(alloc, given, plain_no_decorate(alloc), width)
}

/// Returns the text of the document with the decorator of rich text, with a zero byte after it.
fn rich_text(alloc: Global, given: Given<'_>, width: usize) -> Result<Vec<u8>, Fault>
    ensures { Ends (IsRichText given.entry.text.now given.entry.steps.now given.entry.settings.now width) result }
{
    text_with(alloc, given, rich(alloc), width)
}

/// Returns the records of the document's lines with the decorator of plain text, with a zero byte after them.
fn plain_lines(alloc: Global, given: Given<'_>, width: usize) -> Result<Vec<u8>, Fault>
    ensures { Ends (IsPlainLines given.entry.text.now given.entry.steps.now given.entry.settings.now width) result }
{
    lines_with(alloc, given, plain_no_decorate(alloc), width)
}

/// Returns the records of the document's lines with the decorator of rich text, with a zero byte after them.
fn rich_lines(alloc: Global, given: Given<'_>, width: usize) -> Result<Vec<u8>, Fault>
    ensures { Ends (IsRichLines ⟦<RichAnnotation as PartialEq>⟧.eq given.entry.text.now given.entry.steps.now given.entry.settings.now width) result }
{
    lines_with(alloc, given, rich(alloc), width)
}

/// Returns the text of the document in `width` columns, with a zero byte after it. `decorator` is 0 for that of plain text, 1
/// for that of rich text.
///
/// # Errors
///
/// - `Decorator` for any other number.
/// - `Setting` or `Step` with the number, from 0, of the first faulty record.
/// - `Refused` with `Fail`, `TooNarrow` or `OutOfMemory`.
pub fn text(alloc: Global, given: Given<'_>, decorator: u32, width: usize) -> Result<Vec<u8>, Fault>
    ensures plain { decorator ≡ 0 → Ends (IsPlainText given.entry.text.now given.entry.steps.now given.entry.settings.now width) result }
    ensures rich { decorator ≡ 1 → Ends (IsRichText given.entry.text.now given.entry.steps.now given.entry.settings.now width) result }
    ensures other { 2 ≤ decorator → result ≡ Err Fault.Decorator }
{
    match decorator {
        0 => plain_text(alloc, given, width),
        1 => rich_text(alloc, given, width),
        _ => Err(Fault::Decorator),
    }
}

/// Returns the records of the document's lines in `width` columns, with a zero byte after them. `decorator` is 0 for that of
/// plain text, 1 for that of rich text.
///
/// # Errors
///
/// - `Decorator` for any other number.
/// - `Setting` or `Step` with the number, from 0, of the first faulty record.
/// - `Refused` with `Fail`, `TooNarrow` or `OutOfMemory`.
pub fn lines(
    alloc: Global,
    given: Given<'_>,
    decorator: u32,
    width: usize,
) -> Result<Vec<u8>, Fault>
    ensures plain { decorator ≡ 0 → Ends (IsPlainLines given.entry.text.now given.entry.steps.now given.entry.settings.now width) result }
    ensures rich { decorator ≡ 1 → Ends (IsRichLines ⟦<RichAnnotation as PartialEq>⟧.eq given.entry.text.now given.entry.steps.now given.entry.settings.now width) result }
    ensures other { 2 ≤ decorator → result ≡ Err Fault.Decorator }
{
    match decorator {
        0 => plain_lines(alloc, given, width),
        1 => rich_lines(alloc, given, width),
        _ => Err(Fault::Decorator),
    }
}
