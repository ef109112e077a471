//! A list of tags, stored as runs of equal tags.
//!
//! The last run is kept apart from the others. So a list of one tag allocates nothing.

ghost use Rattle.std.specs.Prelude.{◌≡◌, ◌+◌, ◌-◌, ◌≤◌, ◌<◌, [], ◌++◌, Some, None, length, take, drop, replicate, min, max, OnOk, OnErr, IfOk};
ghost use Rattle.std.specs.Bool.{OnTrue};
ghost use Rattle.std.specs.List.{AllWithin};
ghost use Rattle.std.specs.List.Sorted.{IsNonDecreasingBy};
ghost use Rattle.html_render_layout_buffer.specs.Runs.{last_as_closed, tags_between, copies_of};

use html_render_layout_lines::tag::Tag;
use std::alloc::{AllocError, Global};
use std::marker::Model;

/// A run of equal tags.
#[derive(Clone, Copy)]
pub struct TagRun<T> {
    /// Place after its last tag.
    pub end: usize,
    /// Tag of all places.
    pub tag: T,
}

/// A list of tags.
#[derive(Drop)]
pub struct TagRuns<T> {
    closed: Vec<TagRun<T>>,
    // tag of the last run
    tag: Option<T>,
    len: usize,
}

impl<T> Model for TagRuns<T> {
    ghost use Rattle.std.specs.Prelude.{List};
    ghost use Rattle.html_render_layout_buffer.specs.Runs.{tags_from, AreRuns};

    ghost Value = { List T };

    ghost view = { λ t. tags_from 0 t.closed.items t.tag t.len };

    ghost invariant = { λ t. AreRuns 0 t.closed.items t.tag t.len };
}

impl<T: Tag> TagRuns<T> {
    /// Returns an empty list.
    #[inline]
    pub fn new(alloc: Global) -> TagRuns<T>
        ensures { result ≡ [] }
    {
        TagRuns {
            closed: Vec::new(alloc),
            tag: None,
            len: 0,
        }
    }

    /// Removes all tags, and keeps the memory.
    pub fn clear(&mut self)
        ensures { self.new ≡ [] }
    {
        self.closed.clear();
        self.tag = None;
        self.len = 0;
    }

    /// Returns the number of tags.
    #[inline]
    pub fn len(&self) -> usize
        ensures { result ≡ length self.now }
    {
        self.len
    }

    /// Appends `count` copies of a tag.
    ///
    /// # Errors
    ///
    /// `AllocError`. The list is then unchanged.
    #[inline(always)]
    pub fn push(&mut self, count: usize, tag: T) -> Result<(), AllocError>
        ensures ok { OnOk result (self.new ≡ self.old ++ replicate count tag) }
        ensures err { OnErr result (self.new ≡ self.old) }
    {
        if is_tag(self.tag, tag) {
            self.len = longer(self.len, count)?;
            return Ok(());
        }
        self.push_run_of(count, tag)
    }

    /// Appends `count` copies of a tag, as a run of their own.
    ///
    /// # Errors
    ///
    /// `AllocError`. The list is then unchanged.
    #[inline(never)]
    fn push_run_of(&mut self, count: usize, tag: T) -> Result<(), AllocError>
        ensures ok { OnOk result (self.new ≡ self.old ++ replicate count tag) }
        ensures err { OnErr result (self.new ≡ self.old) }
    {
        let len = longer(self.len, count)?;
        close_run(&mut self.closed, self.tag, self.len)?;
        self.tag = Some(tag);
        self.len = len;
        Ok(())
    }

    /// Appends the tags of runs from the place `from` to the place `to`.
    fn push_runs(
        &mut self,
        runs: &[TagRun<T>],
        tag: Option<T>,
        from: usize,
        to: usize,
    ) -> Result<(), AllocError>
        requires range { from ≤ to }
        ensures { OnOk result (self.new ≡ self.old ++ tags_between from to runs.now tag) }
    {
        let mut at = from;
        for run in runs {
            if at >= to {
                return Ok(());
            }
            at = self.push_run(*run, at, to)?;
        }
        self.push_last(tag, to - at)
    }

    /// Appends the tags of a run from the place `at` on. Returns where they end.
    fn push_run(&mut self, run: TagRun<T>, at: usize, to: usize) -> Result<usize, AllocError>
        requires range { at ≤ to }
        ensures new { OnOk result (self.new ≡ self.old ++ replicate (min run.end to - at) run.tag) }
        ensures end { IfOk result (λ e. e ≡ max at (min run.end to)) }
    {
        let end = run.end.min(to);
        if end <= at {
            return Ok(at);
        }
        self.push(end - at, run.tag)?;
        Ok(end)
    }

    /// Appends `count` copies of a tag, if there is one.
    #[inline]
    fn push_last(&mut self, tag: Option<T>, count: usize) -> Result<(), AllocError>
        ensures { OnOk result (self.new ≡ self.old ++ copies_of tag count) }
    {
        match tag {
            Some(tag) => self.push(count, tag),
            None => Ok(()),
        }
    }

    /// Reports whether all tags are the same as another one.
    #[inline]
    pub fn has_one_tag(&self, tag: T) -> bool
        ensures { OnTrue result (self.now ≡ replicate (length self.now) tag) }
    {
        self.closed.as_slice().is_empty() && is_tag(self.tag, tag)
    }

    /// Returns the tag at a place, and where its run ends.
    pub fn span_at(&self, place: usize) -> TagRun<T>
        requires { place < length self.now }
        ensures tags { drop place (take result.end self.now) ≡ replicate (result.end - place) result.tag }
        ensures after { place < result.end }
        ensures within { result.end ≤ length self.now }
    {
        let runs = self.closed.as_slice();
        match runs.get(first_after(runs, place)) {
            Some(run) => *run,
            None => match self.tag {
                Some(tag) => TagRun { end: self.len, tag },
                None => unreachable!(),
            },
        }
    }

    /// Appends another list's tags from the place `from` to the place `to`. Most lists have one run.
    ///
    /// # Errors
    ///
    /// `AllocError`. Some of the tags may then be appended.
    #[inline(always)]
    pub fn append_range(
        &mut self,
        other: &TagRuns<T>,
        from: usize,
        to: usize,
    ) -> Result<(), AllocError>
        requires range { from ≤ to }
        requires within { to ≤ length other.now }
        ensures { OnOk result (self.new ≡ self.old ++ drop from (take to other.now)) }
    {
        let runs = other.closed.as_slice();
        if runs.is_empty() {
            return self.push_last(other.tag, to - from);
        }
        self.append_runs(other, from, to)
    }

    /// Appends the tags from the place `from` to the place `to` of another list, which may have several runs.
    ///
    /// # Errors
    ///
    /// `AllocError`. Some of the tags may then be appended.
    #[inline(never)]
    fn append_runs(&mut self, other: &TagRuns<T>, from: usize, to: usize) -> Result<(), AllocError>
        requires range { from ≤ to }
        requires within { to ≤ length other.now }
        ensures { OnOk result (self.new ≡ self.old ++ drop from (take to other.now)) }
    {
        let runs = other.closed.as_slice();
        let first = first_after(runs, from);
        self.push_runs(&runs[first..], other.tag, from, to)
    }
}

/// Returns the number of runs that end at a place or before it.
#[inline]
fn first_after<T>(runs: &[TagRun<T>], place: usize) -> usize
    requires { IsNonDecreasingBy (λ (r : TagRun T). r.end) runs.now }
    ensures bound { result ≤ length runs.now }
    ensures ended { AllWithin (λ (r : TagRun T). r.end ≤ place) runs.now 0 result }
    ensures later { AllWithin (λ (r : TagRun T). place < r.end) runs.now result (length runs.now) }
{
    runs.partition_point(|run| run.end <= place)
}

/// Returns the sum of two lengths. `AllocError` if it passes a machine word.
#[inline]
pub(crate) fn longer(len: usize, count: usize) -> Result<usize, AllocError>
    ensures { IfOk result (λ n. n ≡ len + count) }
{
    match len.checked_add(count) {
        Some(sum) => Ok(sum),
        None => Err(AllocError),
    }
}

/// Reports whether there is a tag, and it is the same as another one.
#[inline]
fn is_tag<T: Tag>(own: Option<T>, tag: T) -> bool
    ensures { OnTrue result (own ≡ Some tag) }
{
    match &own {
        Some(own) => own.is_same(&tag),
        None => false,
    }
}

/// Appends the last run as a closed one, if there is one.
fn close_run<T: Copy>(
    runs: &mut Vec<TagRun<T>>,
    tag: Option<T>,
    end: usize,
) -> Result<(), AllocError>
    ensures ok { OnOk result (runs.new.items ≡ runs.old.items ++ last_as_closed tag end) }
    ensures err { OnErr result (runs.new.items ≡ runs.old.items) }
{
    if let Some(tag) = tag {
        runs.push(TagRun { end, tag })?;
    }
    Ok(())
}
