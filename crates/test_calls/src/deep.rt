//! Calls on deep documents: dumps and paths.

use html_render_dom::dom::Handle;
use html_render_dom::script::built;
use std::alloc::{AllocError, Global};
use std::test::Fail;

/// Returns the script of `levels` nested elements.
fn nested(alloc: Global, levels: usize) -> Result<String, AllocError> {
    "<div\n".repeat(alloc, levels)
}

#[test]
fn a_deep_document_is_dumped(rt: HostRuntime) -> Result<(), Fail> {
    let alloc = rt.alloc();
    let dom = built(alloc, nested(alloc, 2000)?.as_str())?;
    let dump = dom.as_dom_string(alloc)?;
    assert_eq!(rt; dump.lines().count(), 4000);
    Ok(())
}

#[test]
fn a_path_may_be_long(rt: HostRuntime) -> Result<(), Fail> {
    let alloc = rt.alloc();
    let dom = built(alloc, nested(alloc, 100_000)?.as_str())?;
    let mut path = Vec::new(alloc);
    for _ in 0..100_000 {
        path.push(1)?;
    }
    let innermost = Handle::new(100_000);
    assert_eq!(rt; dom.get_node_by_path(path.as_slice()), Some(innermost));
    assert!(rt; dom.is_node(innermost));
    assert_eq!(rt; dom.element_name(alloc, innermost)?.as_deref(), Some("div"));
    path.push(1)?;
    assert!(rt; dom.get_node_by_path(path.as_slice()).is_none());
    Ok(())
}
