//! Documents that scripts build, their dumps, and the display of render trees.

use html_render_tree::dom::RcDom;
use html_render_tree::script::{self, ScriptError};
use html_render_tree::tree::RenderTree;
use std::alloc::Global;
use test_case_calls::faults::Fault;
use test_case_calls::texts::printed;
use test_case_calls::watch::Watch;

/// Returns the document of a script.
pub fn built(alloc: Global, script: &str, watch: Watch) -> Result<RcDom, Fault> {
    watch.begin("built");
    match script::built(alloc, script) {
        Ok(dom) => watch.done(dom),
        Err(ScriptError::Refused(error)) => watch.end(Err(error)),
        Err(ScriptError::FaultyLine(number)) => Err(watch.done(Fault::FaultyLine(number))?),
    }
}

/// Returns the lines of the dump of a script's document, or the number of its first faulty line after `~`.
pub fn dump(alloc: Global, script: &str, watch: Watch) -> Result<String, Fault> {
    match built(alloc, script, watch) {
        Ok(dom) => printed(alloc, &dom.as_dom_string(alloc)?),
        Err(Fault::FaultyLine(number)) => Ok(format!(in alloc; "~line {number}\n")?),
        Err(fault) => Err(fault),
    }
}

/// Returns the lines of a tree's display.
///
/// The tree is displayed twice. Only the second one is watched, into a string with enough memory, where no other code makes
/// allocations.
pub fn displayed(alloc: Global, tree: &RenderTree, watch: Watch) -> Result<String, Fault> {
    let text = tree.to_string(alloc)?;
    let mut again = String::with_capacity(alloc, text.len())?;
    watch.begin("display").end(write!(again, "{tree}"))?;
    if again != text {
        return Err(Fault::Malformed("a tree is displayed in two ways"));
    }
    printed(alloc, &text)
}
