//! Moves of 60 elements in a document, compared with the same moves in a plain vector.

ghost use Rattle.std.specs.Prelude.{◌<◌};

use html_render_dom::dom::{Handle, RcDom};
use std::alloc::{AllocError, Global};
use std::test::Fail;
use test_case_calls::documents::answer;
use test_case_calls::faults::Fault;
use test_case_calls::watch::Watch;

/// Number of elements. They are the nodes from 1 on.
const ELEMENTS: usize = 60;

/// Pseudo-random numbers: each is 48271 times the previous one, modulo 2147483647; the first follows the seed 1.
#[derive(Drop)]
struct Draws {
    last: u64,
    ghost small: { last < 2147483647 },
}

impl Draws {
    /// Draws the next number, and returns it modulo `count`.
    fn next(&mut self, count: u64) -> usize
        requires { 0 < count }
        ensures { result < count }
    {
        self.last = self.last * 48271 % 2147483647;
        (self.last % count) as usize
    }
}

/// Calls that move one or two nodes.
const MOVES: [&str; 4] = [
    "remove_from_parent",
    "append",
    "append_before_sibling",
    "reparent_children",
];

/// Pairs of a parent and a child, by their numbers: in the order of the parents, and of one parent in the order of its children.
#[derive(Drop)]
struct Plain {
    pairs: Vec<(usize, usize)>,
}

impl Plain {
    /// Returns the node whose children include a node; `None` if there is none.
    fn parent(&self, node: usize) -> Option<usize> {
        let pair = self.pairs.iter().find(|pair| pair.1 == node)?;
        Some(pair.0)
    }

    /// Reports whether `ancestor` is `node` or one of its ancestors.
    fn is_inclusive_ancestor(&self, ancestor: usize, node: usize) -> bool {
        let mut above = node;
        for _ in 0..self.pairs.len() {
            match self.parent(above) {
                Some(parent) if above != ancestor => above = parent,
                _ => break,
            }
        }
        above == ancestor
    }

    /// Appends a node to the children of another.
    fn append(&mut self, parent: usize, child: usize) -> Result<(), AllocError> {
        let later = self.pairs.iter().position(|pair| pair.0 > parent);
        let place = later.unwrap_or(self.pairs.len());
        Ok(self.pairs.insert(place, (parent, child))?)
    }

    /// Makes a move if it is allowed. Returns whether it is.
    fn moved(&mut self, alloc: Global, kind: &str, a: usize, b: usize) -> Result<bool, AllocError> {
        match kind {
            "remove_from_parent" => self.pairs.retain(|pair| pair.1 != a),
            "append" if self.parent(b).is_none() && !self.is_inclusive_ancestor(b, a) => {
                self.append(a, b)?
            }
            "append_before_sibling" if !self.is_inclusive_ancestor(b, a) => {
                let Some(parent) = self.parent(a) else {
                    return Ok(false);
                };
                self.pairs.retain(|pair| pair.1 != b);
                let place = self.pairs.iter().position(|pair| pair.1 == a);
                self.pairs.insert(place.unwrap_or(0), (parent, b))?
            }
            "reparent_children" if !self.is_inclusive_ancestor(a, b) => {
                let children = self.pairs.iter().filter(|pair| pair.0 == a);
                let children: Vec<usize> = children.map(|pair| pair.1).collect(alloc)?;
                self.pairs.retain(|pair| pair.0 != a);
                for child in children {
                    self.append(b, child)?;
                }
            }
            _ => return Ok(false),
        }
        Ok(true)
    }
}

/// Makes a call on a document if its condition holds. Returns whether it does.
fn called(alloc: Global, dom: &mut RcDom, call: &str) -> Result<bool, Fault> {
    match answer(alloc, dom, call, Watch(None)) {
        Ok(_) => Ok(true),
        Err(Fault::Malformed(_)) => Ok(false),
        Err(fault) => Err(fault),
    }
}

/// Reports whether the children of all nodes, in order, are those in the pairs, and each has its node as its parent.
fn has_pairs(dom: &RcDom, plain: &Plain) -> bool {
    let mut pairs = plain.pairs.iter();
    for number in 0..=ELEMENTS {
        let node = Handle::new(number);
        if !dom.is_node(node) {
            return false;
        }
        for child in dom.child_list(node) {
            match pairs.next() {
                Some(pair) if *pair == (number, child.number()) => {}
                _ => return false,
            }
            if !dom.is_node(*child) || dom.get_parent(*child) != Some(node) {
                return false;
            }
        }
    }
    pairs.next().is_none()
}

#[test]
fn lists_are_those_of_a_plain_vector_after_each_of_20_000_moves(
    rt: HostRuntime,
) -> Result<(), Fail> {
    let alloc = rt.alloc();
    let mut dom = RcDom::new(alloc)?;
    for _ in 0..ELEMENTS {
        called(alloc, &mut dom, "create_element p")?;
    }
    let pairs = Vec::new(alloc);
    let mut plain = Plain { pairs };
    let mut draws = Draws { last: 1 };
    let mut made = 0usize;
    for step in 0..20_000 {
        let (a, b) = (draws.next(60) + 1, draws.next(60) + 1);
        let kind = MOVES[draws.next(4)];
        let is_made = called(alloc, &mut dom, &format!(in alloc; "{kind} {a} {b}")?)?;
        assert_eq!(rt; plain.moved(alloc, kind, a, b)?, is_made, "at step {step}");
        assert!(rt; has_pairs(&dom, &plain), "at step {step}");
        made = made.saturating_add(is_made as usize);
    }
    // the count of an independent program
    assert_eq!(rt; made, 14_608);
    Ok(())
}
