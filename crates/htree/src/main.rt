//! Renders a script of DOM calls as text: `htree WIDTH [plain|rich|bare] [overflow]`, with the script on standard input.
#![tactic(auto)]

use html_render_tree::htree::{run, run_without_words};
use std::process::ExitCode;
use std::rt::Env;
use std::{env, io};

/// Returns the words of the command line after the program's name.
///
/// # Errors
///
/// An error if the words can't be read, or memory has run out.
fn words(rt: &(impl Env + AllocGlobal)) -> io::Result<Vec<String>> {
    let mut words = env::args(rt)?;
    let _name = words.next();
    Ok(words.collect(rt.alloc())?)
}

/// Runs the program on the standard streams.
///
/// The exit status is that of [`run`], or that of [`run_without_words`] if the command line can't be read.
fn main(rt: HostRuntime) -> ExitCode {
    let mut faults = rt.stderr();
    let status = match words(&rt) {
        Ok(words) => run(
            rt.alloc(),
            &words,
            &mut rt.stdin(),
            &mut rt.stdout(),
            &mut faults,
        ),
        Err(error) => run_without_words(&error, &mut faults),
    };
    ExitCode::from(status)
}
