//! Checks of a document at each width from 1 to 40, with overflow and without.

ghost use Rattle.html_render_dom_values.specs.Outcome.{OnlyOutOfMemory};

use html_render_tree::Error;
use html_render_tree::config::Config;
use html_render_tree::decorate::TextDecorator;
use html_render_tree::dom::RcDom;
use html_render_tree::tree::RenderTree;
use html_render_tree::widths::Meter;
use std::alloc::{AllocError, Global};
use test_case_calls::faults::Fault;
use unicode_width::UnicodeWidthChar;

/// Greatest width that is checked, in columns.
const WIDTHS: usize = 40;

/// A width at which nothing has to be wrapped, in columns.
const GREAT: usize = 2000;

/// Reports whether no line of a text is wider than `width` columns.
fn is_within(text: &str, width: usize) -> bool {
    text.lines().all(|line| {
        let columns = line.chars().fold(0usize, |columns, c| {
            columns.saturating_add(c.width().unwrap_or(0))
        });
        columns <= width
    })
}

/// Reports whether a character is visible, and none of a border: it has a width, which may be 0, and isn't white space, U+200B or a
/// box drawing.
fn is_visible(c: char) -> bool {
    c.width().is_some() && !c.is_whitespace() && !matches!(c, '\u{200b}' | '\u{2500}'..='\u{257f}')
}

/// Returns the visible characters of a text, sorted.
fn visible(alloc: Global, text: &str) -> Result<Vec<char>, AllocError> {
    let mut visible: Vec<char> = text.chars().filter(|c| is_visible(*c)).collect(alloc)?;
    visible.sort()?;
    Ok(visible)
}

/// Returns the texts of a script, where each line feed is a space.
fn texts_of(alloc: Global, script: &str) -> Result<String, AllocError> {
    let mut texts = String::new(alloc);
    for text in script.lines().filter_map(|line| line.strip_prefix('"')) {
        texts.push_str(&text.replace(alloc, "\\n", " ")?)?;
    }
    Ok(texts)
}

/// Reports whether a text has each wanted character at least as often as `wanted`, which is sorted.
fn are_kept(alloc: Global, wanted: &[char], text: &str) -> Result<bool, AllocError> {
    let visible = visible(alloc, text)?;
    let mut others = visible.iter();
    for c in wanted {
        if !others.any(|other| other == c) {
            return Ok(false);
        }
    }
    Ok(true)
}

/// Returns the text of a tree; `None` if the width is too narrow.
fn text_of<D: TextDecorator>(
    alloc: Global,
    config: &Config<D>,
    tree: &RenderTree,
    width: usize,
) -> Result<Option<String>, Error> {
    match config.render_to_string(alloc, tree.try_clone(alloc)?, width) {
        Ok(text) => Ok(Some(text)),
        Err(Error::TooNarrow) => Ok(None),
        Err(error) => Err(error),
    }
}

/// Returns the text of a tree's tagged lines, and updates the meter.
fn text_of_lines<D: TextDecorator>(
    alloc: Global,
    config: &Config<D>,
    tree: &RenderTree,
    width: usize,
    meter: &mut Meter,
) -> Result<String, Error> {
    let lines = config.render_to_lines_metered(alloc, tree.try_clone(alloc)?, width, meter)?;
    let mut text = String::new(alloc);
    for line in &lines {
        for string in line.tagged_strings() {
            text.push_str(&string.s)?;
        }
        text.push('\n')?;
    }
    Ok(text)
}

/// Returns a copy of a text: what a colour map that changes nothing returns.
fn same(alloc: Global, text: &str) -> Result<String, Error>
    ensures err { OnlyOutOfMemory result }
{
    Ok(String::from_str(alloc, text)?)
}

/// Returns the first fault of a document's text at a width; `None` if all of these hold:
///
/// - there is a text with overflow;
/// - a text without overflow, if there is one, equals it and keeps to the width;
/// - it has all wanted characters;
/// - the text of the tagged lines and the coloured text equal it;
/// - the layout leaves each node that it enters, and doesn't count more nodes open at once than it enters.
fn fault_at<D: TextDecorator>(
    alloc: Global,
    wide: &Config<D>,
    tree: &RenderTree,
    narrow: Option<&String>,
    wanted: &[char],
    width: usize,
) -> Result<Option<&'static str>, Fault> {
    let Some(text) = text_of(alloc, wide, tree, width)? else {
        return Ok(Some("it is too narrow with overflow"));
    };
    let mut meter = Meter::default();
    let lines = text_of_lines(alloc, wide, tree, width, &mut meter)?;
    let copy = tree.try_clone(alloc)?;
    let unchanged = |_annotations: &[D::Annotation], text: &str| same(alloc, text);
    let coloured = wide.render_coloured(alloc, copy, width, unchanged)?;
    let is_changed = narrow.is_some_and(|narrow| *narrow != text);
    let is_wide = narrow.is_some() && !is_within(&text, width);
    let is_miscounted = meter.entered != meter.left || meter.entered < meter.frames;
    let faults = [
        (is_changed, "overflow changes a text that fits"),
        (is_wide, "a line passes the width"),
        (!are_kept(alloc, wanted, &text)?, "a character is lost"),
        (lines != text, "tagged lines say something else"),
        (coloured != text, "coloured text says something else"),
        (is_miscounted, "the nodes are miscounted"),
    ];
    let found = faults.into_iter().find(|fault| fault.0);
    Ok(found.map(|fault| fault.1))
}

/// Returns a line for the first fault of a document at each width. Each text must have the characters of the script's texts or, without
/// a script, those of the text at a great width.
///
/// The configuration must be without overflow, and must wrap links, so that closing lines are cut.
pub fn sweep<D: TextDecorator>(
    alloc: Global,
    config: Config<D>,
    dom: &RcDom,
    script: Option<&str>,
) -> Result<String, Fault> {
    let tree = config.dom_to_render_tree(alloc, dom)?;
    let mut narrow = Vec::new(alloc);
    for width in 1..=WIDTHS {
        narrow.push(text_of(alloc, &config, &tree, width)?)?;
    }
    let wide = config.allow_width_overflow();
    let wanted = match script {
        Some(script) => texts_of(alloc, script)?,
        None => text_of(alloc, &wide, &tree, GREAT)?.unwrap_or_else(|| String::new(alloc)),
    };
    let wanted = visible(alloc, &wanted)?;
    let mut faults = String::new(alloc);
    for (text, width) in narrow.iter().zip(1..=WIDTHS) {
        if let Some(fault) = fault_at(alloc, &wide, &tree, text.as_ref(), &wanted, width)? {
            write!(faults, "|at width {width}: {fault}\n")?;
        }
    }
    Ok(faults)
}
