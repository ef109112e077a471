//! Questions about runs of the program `htree`.

use html_render_tree::Error;
use html_render_tree::htree::run;
use std::alloc::Global;
use std::io::BufWriter;
use test_case_calls::faults::Fault;
use test_case_calls::texts::push_lines;

/// Returns the lines of the program's output, its lines about faults, each after `~`, and its status if that isn't 0. The output is
/// buffered, and what isn't flushed is no part of it.
pub fn answer(alloc: Global, words: &str, script: &str) -> Result<String, Fault> {
    let mut arguments = Vec::new(alloc);
    if !words.is_empty() {
        for word in words.split(' ') {
            arguments.push(String::from_str(alloc, word)?)?;
        }
    }
    let mut input = script.as_bytes();
    let mut output = BufWriter::new(alloc, Vec::new(alloc)).map_err(|_| Fault::Refused(
        Error::OutOfMemory,
    ))?;
    let mut faults = Vec::new(alloc);
    let status = run(alloc, &arguments, &mut input, &mut output, &mut faults);
    let mut shown = String::new(alloc);
    for (sign, bytes) in [('|', output.get_ref()), ('~', &faults)] {
        let text = str::from_utf8(bytes.as_slice()).unwrap_or("not UTF-8");
        push_lines(&mut shown, sign, text)?;
    }
    if status != 0 {
        write!(shown, "status {status}\n")?;
    }
    Ok(shown)
}
