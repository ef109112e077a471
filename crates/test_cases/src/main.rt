//! Plays cases: documents that scripts build, calls of a configuration, and questions with the expected output.
//!
//! The program's words are files of cases. Without files it plays all those of the current directory. If the first word is
//! `watched`, it reports each call before and after it ([`Watch`]). A watched call is repeated as long as it is out of
//! memory.
//!
//! A file of `data/` has the cases of one subject. A line `# TITLE` begins a case, with an empty script and the
//! configuration `plain`. A line `? QUESTION` is a question, and its expected output follows it; a case without one fails.
//! Each further line belongs to the script or is a call of the configuration. Empty lines are skipped.
//!
//! # Scripts and calls
//!
//! The lines of a script begin with `<`, `>`, `"`, `@` or `!`, as in the scripts of `htree`. The document is built from all
//! of them that precede a question. `repeat N LINE LINE ..` is these lines `N` times.
//!
//! The calls of a configuration are written by their names: `rich`, `max_wrap_width 10`,
//! `add_style_rule Author p.note#id::before important Colour #ff0000; Content text`, .. One that creates a configuration, such
//! as `plain`, begins it anew. `repeat N CALL` makes a call `N` times. In the texts of calls, `\n` is a line feed.
//!
//! `with_decorator` has the name of a decorator: `plain`, `rich`, or one of this crate. `with_decorator refusing:CALL` is
//! plain text, except that this call of the decorator returns `OutOfMemory`.
//!
//! # Questions
//!
//! A question is a call by its name, with its arguments:
//!
//! | Question | Arguments and output |
//! |---|---|
//! | `render_to_string` | a width |
//! | `render_to_lines` | a width; each string follows its annotations in braces, each name of a mark is in angle brackets |
//! | `render_to_lines_metered` | a width; the meter's counts, also if the layout is `TooNarrow` |
//! | `render_coloured angles` | a width; each string is in angle brackets, after the number of its annotations |
//! | `render_coloured numbered` | a width; each string is in angle brackets, after the number of the map's call |
//! | `render_coloured refusing` | a width and a text for which the colour map returns `OutOfMemory` |
//! | `dom_to_render_tree`, `try_clone` | the display of the render tree, or of its copy |
//! | `dom_into_render_tree` | another script; the display of the render tree |
//! | `sweep` | checks of the text at each width from 1 to 40, for the characters of all texts; a line for each width with a fault, its first |
//! | `computed_style`, `RuleIndex::of`, `RuleIndex::computed_style` | an element, as `p@class=a`; each property of its style |
//! | `specificity`, `for_element` | a rule, an element name; the specificity |
//! | `decorator` | `plain` or `rich`, and a call with its arguments |
//! | `table_grid`, `spans_are_valid` | the spans of rows: `3x1 2x2 / 1x1`, and `-` for a row without cells |
//! | `column_widths`, `column_widths_metered`, `cut_fits` | minimums, shares and width: `3 3 / 9 4 / 10` |
//! | `check_cut` | minimums, shares, width and a cut |
//! | calls of names, attributes and texts | `TextContents::push_str a b`, .. |
//! | `calls` | calls on the document, with the numbers of nodes: `append_before_sibling 4 2`, `append 1 "text`, `children? 1`; the results of those with `?` |
//! | `built` | a script; the dump of its document, or its first faulty line |
//! | `htree` | words and an input; its output as far as it is flushed, its faults and status |
//!
//! In lists of numbers `5*3` is five times 3. The lines of another script, of calls or of an input follow the question, each
//! after `:`, or after `.` for one without its line feed. Calls and their results may alternate.
//!
//! At the end of a case, a document that was rendered is also checked at each width from 1 to 40, for the characters of its
//! text at a great width. A document of more than 5,000 nodes isn't checked, and none is if calls are watched.
//!
//! # Expected output
//!
//! Each line of a result follows `|`, and each line about faults of a script or of `htree` follows `~`. An error is
//! `TooNarrow`, `Fail` or `OutOfMemory`. A status other than 0 is `status N`. `N|text` is a text `N` times, and `N/text` is
//! `N` lines of it.
#![tactic(auto)]

mod cases;
mod configs;
mod decorators;
mod documents;
mod programs;
mod rendering;
mod sweeps;

use cases::Played;
use std::process::ExitCode;
use std::rt::Files;
use std::{env, fs, io};
use test_case_calls::watch::Watch;

/// Returns the names of the files in the current directory, sorted.
fn names_here<R: Files + AllocGlobal + Clone + Drop>(rt: &R) -> io::Result<Vec<String>> {
    let mut names = Vec::new(rt.alloc());
    for entry in fs::read_dir(rt, ".")? {
        names.push(String::from_str(rt.alloc(), entry?.file_name())?)?;
    }
    names.sort()?;
    Ok(names)
}

/// Plays cases, and writes the differences to standard error, or else the number of cases, unless calls are watched. The
/// status is 0 if there are cases and no differences, and otherwise 1.
fn main(rt: HostRuntime) -> io::Result<ExitCode> {
    let mut words = env::args(&rt)?;
    let _program = words.next();
    let words: Vec<String> = words.collect(rt.alloc())?;
    let (watch, names) = match words.as_slice() {
        [first, names @ ..] if first.as_str() == "watched" => (Watch(Some(rt.stdout())), names),
        names => (Watch(None), names),
    };
    let all = if names.is_empty() {
        names_here(&rt)?
    } else {
        Vec::new(rt.alloc())
    };
    let mut played = Played {
        count: 0,
        differences: String::new(rt.alloc()),
        watch,
    };
    for name in names.iter().chain(all.iter()) {
        let text = fs::read_to_string(&rt, name.as_str())?;
        played.play(rt.alloc(), &text)?;
    }
    if played.count == 0 {
        eprintln!(rt; "there are no cases")?;
        return Ok(ExitCode::FAILURE);
    }
    if !played.differences.is_empty() {
        eprint!(rt; "{}", played.differences)?;
        return Ok(ExitCode::FAILURE);
    }
    if watch.0.is_none() {
        eprintln!(rt; "cases played: {}", played.count)?;
    }
    Ok(ExitCode::SUCCESS)
}
