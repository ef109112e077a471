//! The player of a file's cases.

use crate::documents::{built, dump};
use crate::programs;
use crate::rendering::{self, Question};
use html_render_tree::Error;
use html_render_tree::dom::RcDom;
use std::alloc::{AllocError, Global};
use std::mem;
use test_case_calls::faults::Fault;
use test_case_calls::texts::split_word;
use test_case_calls::watch::{TRIES, Watch};
use test_case_calls::{cuts, decorators, documents, grids, styles, values};

/// The title of lines before the first title, which need no question.
const UNTITLED: &str = "(before the first title)";

/// A case that is being played.
#[derive(Drop)]
struct Case<'a> {
    title: &'a str,
    /// Lines of the script.
    script: String,
    /// The document of the script, once a question asks for it.
    dom: Option<RcDom>,
    /// Calls of the configuration, from the one that creates it on.
    calls: Vec<&'a str>,
    /// The question whose expected output isn't complete yet, if there is one.
    question: Option<&'a str>,
    /// Whether a line is a question.
    asks: bool,
    /// Input of the program, a script, or calls.
    input: String,
    /// Expected output in the form of results: each printed line after `|`.
    wanted: String,
}

/// The result of playing cases.
#[derive(Drop)]
pub struct Played {
    /// Number of cases.
    pub count: usize,
    /// Differences between expected output and results, as text.
    pub differences: String,
    /// Reports the calls, if they are watched.
    pub watch: Watch,
}

/// Splits a line `|text`, `N|text` or `N/text`: the number, whether the text ends its line, and the text.
fn split_count(line: &str) -> Option<(usize, bool, &str)> {
    if let Some((digits, text)) = line.split_once('|') {
        if digits.is_empty() {
            return Some((1, true, text));
        }
        if let Ok(count) = digits.parse() {
            return Some((count, false, text));
        }
    }
    let (digits, text) = line.split_once('/')?;
    Some((digits.parse().ok()?, true, text))
}

/// Reports whether a line is an error, a line about faults or a status.
fn is_result(line: &str) -> bool {
    matches!(line, "TooNarrow" | "Fail" | "OutOfMemory")
        || line.starts_with('~')
        || line.starts_with("status ")
}

/// Reports whether a line creates a configuration.
fn is_preset(line: &str) -> bool {
    matches!(line, "plain" | "plain_no_decorate" | "rich") || line.starts_with("with_decorator ")
}

/// Returns the result of a question, whose calls are made once. `dom` is the document of its script, if that is built.
fn answer_once(
    alloc: Global,
    dom: &mut Option<RcDom>,
    question: Question<'_>,
) -> Result<String, Fault> {
    let (asked, given, watch) = (question.asked, question.given, question.watch);
    match asked {
        "computed_style" | "RuleIndex::of" | "RuleIndex::computed_style" => {
            styles::answer(alloc, question.calls, asked, given, watch)
        }
        "specificity" | "for_element" => styles::specificity(alloc, asked, given, watch),
        "spans_are_valid" | "table_grid" => grids::answer(alloc, asked, given, watch),
        "cut_fits" | "check_cut" | "column_widths" | "column_widths_metered" => {
            cuts::answer(alloc, asked, given, watch)
        }
        "decorator" => decorators::answer(alloc, given, watch),
        "htree" => programs::answer(alloc, given, question.input),
        "built" => dump(alloc, question.input, watch),
        "calls" => {
            let mut dom = built(alloc, question.script, Watch(None))?;
            documents::answers(alloc, &mut dom, question.input, watch)
        }
        _ if asked.contains("::") => values::answer(alloc, asked, given, watch),
        _ => {
            let document = match mem::take(dom) {
                Some(document) => document,
                None => built(alloc, question.script, watch)?,
            };
            rendering::answer(alloc, dom.insert(document), question)
        }
    }
}

/// Returns the result of a question. If calls are watched, repeats it as long as it is out of memory.
fn answer(alloc: Global, dom: &mut Option<RcDom>, question: Question<'_>) -> Result<String, Fault> {
    for _ in 0..TRIES {
        let came = answer_once(alloc, dom, question);
        if !question.watch.repeats(&came) {
            return came;
        }
    }
    Err(Fault::Refused(Error::OutOfMemory))
}

/// Returns the result of a question. If calls are watched, those that a rendering needs are watched first, each on its own: other
/// questions show their results.
fn answer_all(
    alloc: Global,
    dom: &mut Option<RcDom>,
    question: Question<'_>,
) -> Result<String, Fault> {
    if question.watch.0.is_some() {
        for asked in ["plain", "settings", "dom_to_render_tree"] {
            let _ = answer(alloc, dom, Question { asked, ..question });
        }
    }
    answer(alloc, dom, question)
}

/// Returns the question of a line.
fn question_of<'q>(
    line: &'q str,
    input: &'q str,
    script: &'q str,
    calls: &'q [&'q str],
    watch: Watch,
) -> Question<'q> {
    let (asked, given) = split_word(line);
    Question {
        asked,
        given,
        input,
        script,
        calls,
        watch,
    }
}

/// Reports whether an expected output is that of a decorator or a colour map that is out of memory.
fn is_refusal(wanted: &str) -> bool {
    matches!(wanted, "OutOfMemory\n")
}

impl<'a> Case<'a> {
    /// Creates a case with an empty script and the configuration `plain`.
    fn new(alloc: Global, title: &'a str) -> Result<Case<'a>, AllocError> {
        let mut calls = Vec::new(alloc);
        calls.push("plain")?;
        Ok(Case {
            title,
            script: String::new(alloc),
            dom: None,
            calls,
            question: None,
            asks: false,
            input: String::new(alloc),
            wanted: String::new(alloc),
        })
    }

    /// Plays a line.
    fn take(&mut self, alloc: Global, line: &'a str, played: &mut Played) -> Result<(), Fault> {
        if self.question.is_some() && self.take_output(line)? {
            return Ok(());
        }
        self.settle(alloc, played)?;
        if let Some(question) = line.strip_prefix("? ") {
            self.question = Some(question);
            self.asks = true;
        } else if let Some(repeated) = line.strip_prefix("repeat ") {
            let (count, calls) = split_word(repeated);
            for _ in 0..count.parse::<usize>()? {
                self.call(calls, ' ')?;
            }
        } else if !line.is_empty() {
            self.call(line, '\n')?;
        }
        Ok(())
    }

    /// Takes a line of the question's input or expected output. Returns whether it is one.
    fn take_output(&mut self, line: &str) -> Result<bool, AllocError> {
        if let Some(line) = line.strip_prefix(':') {
            write!(self.input, "{line}\n")?;
        } else if let Some(text) = line.strip_prefix('.') {
            self.input.push_str(text)?;
        } else if is_result(line) {
            write!(self.wanted, "{line}\n")?;
        } else if let Some((count, is_line, text)) = split_count(line) {
            for _ in 0..count {
                if self.wanted.is_empty() || self.wanted.ends_with('\n') {
                    self.wanted.push('|')?;
                }
                self.wanted.push_str(text)?;
                self.wanted.push_str(if is_line { "\n" } else { "" })?;
            }
        } else {
            return Ok(false);
        }
        Ok(true)
    }

    /// Takes lines of a script, with a separator between them, or a call of the configuration.
    fn call(&mut self, line: &'a str, separator: char) -> Result<(), AllocError> {
        if line.starts_with(['<', '>', '"', '@', '!']) {
            self.dom = None;
            for part in line.split(separator) {
                write!(self.script, "{part}\n")?;
            }
            return Ok(());
        }
        if is_preset(line) {
            self.calls.clear();
        }
        Ok(self.calls.push(line)?)
    }

    /// Compares the result of the open question, if there is one, with its expected output.
    fn settle(&mut self, alloc: Global, played: &mut Played) -> Result<(), AllocError> {
        let Some(line) = mem::take(&mut self.question) else {
            return Ok(());
        };
        let refuses = is_refusal(self.wanted.as_str());
        let watch = if refuses { Watch(None) } else { played.watch };
        let question = question_of(
            line,
            self.input.as_str(),
            self.script.as_str(),
            self.calls.as_slice(),
            watch,
        );
        let came = match answer_all(alloc, &mut self.dom, question) {
            Ok(answer) => answer,
            Err(Fault::Refused(error)) if refuses || error != Error::OutOfMemory => {
                format!(in alloc; "{error:?}\n")?
            }
            Err(fault) => format!(in alloc; "can't be played: {fault}\n")?,
        };
        if came != self.wanted {
            played.differ(self.title, line, &self.wanted, &came)?;
        }
        self.input.clear();
        self.wanted.clear();
        Ok(())
    }

    /// Ends the case, which differs if it asks nothing. A document that was rendered is checked at each width, unless calls are
    /// watched.
    fn end(&mut self, alloc: Global, played: &mut Played) -> Result<(), AllocError> {
        self.settle(alloc, played)?;
        if !self.asks && self.title != UNTITLED {
            played.differ(self.title, "", "a question\n", "none\n")?;
        }
        if self.dom.is_some() && played.watch.0.is_none() {
            self.calls.retain(|call| *call != "allow_width_overflow"
                && *call != "no_link_wrapping");
            self.question = Some("sweep_shown");
            self.settle(alloc, played)?;
        }
        Ok(())
    }
}

impl Played {
    /// Records a difference, with at most the first 2,000 characters of the expected output and of the result.
    fn differ(
        &mut self,
        title: &str,
        line: &str,
        wanted: &str,
        came: &str,
    ) -> Result<(), AllocError> {
        write!(
            self.differences,
            "{title}\n{line}\nwanted:\n{wanted:.2000}came:\n{came:.2000}\n"
        )
    }

    /// Plays the cases of a text.
    pub fn play(&mut self, alloc: Global, text: &str) -> Result<(), AllocError> {
        let mut case = Case::new(alloc, UNTITLED)?;
        for line in text.split('\n') {
            if let Some(title) = line.strip_prefix("# ") {
                case.end(alloc, self)?;
                case = Case::new(alloc, title)?;
                self.count = self.count.saturating_add(1);
            } else if let Err(fault) = case.take(alloc, line, self) {
                let came = format!(in alloc; "can't be played: {fault}\n")?;
                self.differ(case.title, line, "", &came)?;
            }
        }
        case.end(alloc, self)
    }
}
