//! Questions about the conversion and the rendering of a document under a configuration.

ghost use Rattle.html_render_dom_values.specs.Outcome.{OnlyOutOfMemory};

use crate::configs::with_setting;
use crate::decorators::Own;
use crate::documents::{built, displayed};
use crate::sweeps::sweep;
use html_render_tree::Error;
use html_render_tree::block::{TaggedLine, TaggedLineElement};
use html_render_tree::config::{Config, plain, plain_no_decorate, rich, with_decorator};
use html_render_tree::decorate::{PlainDecorator, RichDecorator, TextDecorator};
use html_render_tree::dom::RcDom;
use html_render_tree::tree::RenderTree;
use html_render_tree::widths::Meter;
use std::alloc::{AllocError, Global};
use test_case_calls::annotations::Shown;
use test_case_calls::faults::Fault;
use test_case_calls::texts::{printed, split_word};
use test_case_calls::watch::Watch;

/// Maximum number of nodes of a document that is checked at the end of a case.
const LARGE: usize = 5000;

/// A question: a call and its arguments, in a case.
#[derive(Clone, Copy)]
pub struct Question<'a> {
    /// Name of the call. `plain` and `settings` have no output: with them the calls that create and change the configuration are
    /// watched. `sweep_shown` is asked at the end of a case.
    pub asked: &'a str,
    /// Arguments of the call.
    pub given: &'a str,
    /// Input of the program, a script, or calls.
    pub input: &'a str,
    /// Lines of the case's script.
    pub script: &'a str,
    /// Calls of the configuration.
    pub calls: &'a [&'a str],
    /// Reports the call, if it is watched.
    pub watch: Watch,
}

/// Returns the result of a question under the configuration that the case's calls make. The first one creates it.
pub fn answer(alloc: Global, dom: &RcDom, question: Question<'_>) -> Result<String, Fault> {
    let Some((first, settings)) = question.calls.split_first() else {
        return Err(Fault::Malformed("no call makes a configuration"));
    };
    let watch = question.watch;
    let question = Question {
        calls: settings,
        ..question
    };
    match split_word(first) {
        ("plain", _) => {
            let config = watch
                .begin_asked(question.asked, "plain")
                .end(plain(alloc))?;
            under(alloc, config, dom, question)
        }
        ("plain_no_decorate", _) => under(alloc, plain_no_decorate(alloc), dom, question),
        ("rich", _) => under(alloc, rich(alloc), dom, question),
        (_, "plain") => under(
            alloc,
            with_decorator(alloc, PlainDecorator::new()),
            dom,
            question,
        ),
        (_, "rich") => under(
            alloc,
            with_decorator(alloc, RichDecorator::new()),
            dom,
            question,
        ),
        (_, name) => under(
            alloc,
            with_decorator(alloc, Own::decorator(name)?),
            dom,
            question,
        ),
    }
}

/// Returns the result of a question under a configuration after the question's calls. For the question `settings` the last one is
/// watched.
fn under<D: TextDecorator>(
    alloc: Global,
    config: Config<D>,
    dom: &RcDom,
    question: Question<'_>,
) -> Result<String, Fault>
where
    D::Annotation: Shown,
{
    let (asked, watch) = (question.asked, question.watch);
    let mut config = config;
    if let Some((last, others)) = question.calls.split_last() {
        for line in others {
            config = with_setting(alloc, config, line, Watch(None))?;
        }
        let watch = if asked == "settings" {
            watch
        } else {
            Watch(None)
        };
        config = with_setting(alloc, config, last, watch)?;
    }
    match asked {
        "plain" | "settings" => Ok(String::new(alloc)),
        "sweep" => sweep(alloc, config, dom, Some(question.script)),
        "sweep_shown" if dom.node_count() > LARGE => Ok(String::new(alloc)),
        "sweep_shown" => match sweep(alloc, config, dom, None) {
            Err(Fault::Refused(Error::Fail)) => Ok(String::new(alloc)),
            came => came,
        },
        "dom_to_render_tree" => {
            let tree = watch
                .begin(asked)
                .end(config.dom_to_render_tree(alloc, dom))?;
            displayed(alloc, &tree, watch)
        }
        "dom_into_render_tree" => {
            let dom = built(alloc, question.input, Watch(None))?;
            let tree = watch
                .begin(asked)
                .end(config.dom_into_render_tree(alloc, dom))?;
            displayed(alloc, &tree, watch)
        }
        "try_clone" => {
            let tree = config.dom_to_render_tree(alloc, dom)?;
            let copy = watch
                .begin("RenderTree::try_clone")
                .end(tree.try_clone(alloc))?;
            watch.begin("drop").done(drop(tree))?;
            displayed(alloc, &copy, watch)
        }
        _ => {
            let tree = config.dom_to_render_tree(alloc, dom)?;
            rendered(alloc, &config, tree, question)
        }
    }
}

/// Returns the result of rendering a tree. At width 0, where a call makes no allocation, it is reported under another name.
fn rendered<D: TextDecorator>(
    alloc: Global,
    config: &Config<D>,
    tree: RenderTree,
    question: Question<'_>,
) -> Result<String, Fault>
where
    D::Annotation: Shown,
{
    let (asked, watch) = (question.asked, question.watch);
    let (map, given) = match asked {
        "render_coloured" => split_word(question.given),
        _ => ("", question.given),
    };
    let (width, refused) = split_word(given);
    let width = width.parse::<usize>()?;
    let call = format!(in alloc; "{asked}{}", if width == 0 { " 0" } else { "" })?;
    watch.begin(&call);
    match asked {
        "render_to_string" => {
            let text = watch.end(config.render_to_string(alloc, tree, width))?;
            printed(alloc, &text)
        }
        "render_to_lines" => {
            let lines = watch.end(config.render_to_lines(alloc, tree, width))?;
            let mut shown = String::new(alloc);
            for line in &lines {
                push_line(alloc, &mut shown, line)?;
            }
            Ok(shown)
        }
        "render_to_lines_metered" => {
            let mut meter = Meter::default();
            let came = config.render_to_lines_metered(alloc, tree, width, &mut meter);
            let refusal = match watch.end(came) {
                Ok(_lines) => "",
                Err(Fault::Refused(Error::TooNarrow)) => "TooNarrow\n",
                Err(fault) => return Err(fault),
            };
            let (entered, left, frames) = (meter.entered, meter.left, meter.frames);
            Ok(format!(in alloc; "{refusal}|entered {entered}, left {left}, frames {frames}\n")?)
        }
        "render_coloured" => {
            let mut calls = 0;
            let came = config.render_coloured(
                alloc,
                tree,
                width,
                |annotations: &[D::Annotation], text: &str| {
                    calls = usize::saturating_add(calls, 1);
                    let number = if map == "numbered" {
                        calls
                    } else {
                        annotations.len()
                    };
                    coloured(alloc, number, text, refused)
                },
            );
            printed(alloc, &watch.end(came)?)
        }
        _ => Err(Fault::Malformed("no question has this name")),
    }
}

/// Returns `<number:text>`; `OutOfMemory` for the text `refused`.
fn coloured(alloc: Global, number: usize, text: &str, refused: &str) -> Result<String, Error>
    ensures err { OnlyOutOfMemory result }
{
    if text == refused {
        return Err(Error::OutOfMemory);
    }
    Ok(format!(in alloc; "<{number}:{text}>")?)
}

/// Appends a tagged line: each string after its annotations, in braces, and each name of a mark in angle brackets.
fn push_line<A: Shown>(
    alloc: Global,
    shown: &mut String,
    line: &TaggedLine<Vec<A>>,
) -> Result<(), AllocError> {
    shown.push('|')?;
    for element in line.iter() {
        match element {
            TaggedLineElement::Str(string) => {
                shown.push('{')?;
                for (place, annotation) in string.tag.iter().enumerate() {
                    let comma = if place > 0 { "," } else { "" };
                    write!(shown, "{comma}{}", annotation.shown(alloc)?)?;
                }
                write!(shown, "}}{}", string.s)?;
            }
            TaggedLineElement::FragmentStart(name) => write!(shown, "<{name}>")?,
        }
    }
    shown.push('\n')
}
