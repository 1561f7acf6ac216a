//! One component: its name, its own lines and the components inside it, each in their order.

use crate::own_lines::{OwnLines, Run};
use ical_lines::Lines;
use std::alloc::{AllocError, Global};

/// A component of an object, as VCALENDAR or VEVENT. It borrows the text that it was read from, and copies no line.
#[derive(Drop)]
pub struct Component<'a> {
    name: &'a str,
    /// The number of its BEGIN among the logical lines of its octets.
    begun: usize,
    runs: Vec<Run<'a>>,
    children: Vec<Component<'a>>,
}

impl<'a> Component<'a> {
    ghost use Rattle.std.specs.Prelude.{◌≡◌, ◌++◌, ◌∷◌, [], OnOk, OnErr};
    ghost use Rattle.profile.specs.text.Lines.{is_same_name};
    ghost use Rattle.ical_tree.specs.Runs.{run_numbered, lines_left};
    ghost use Rattle.ical_tree.specs.Tree.{component_name, component_begun, component_runs, component_lines, component_numbered, component_children};

    /// A component of this name, whose BEGIN has this number, with no lines and no children.
    pub(crate) fn new(alloc: Global, name: &'a str, begun: usize) -> Component<'a>
        ensures name { component_name result ≡ name.now }
        ensures begun { component_begun result ≡ begun }
        ensures runs { component_runs result ≡ [] }
        ensures lines { component_numbered result ≡ [] }
        ensures children { component_children result ≡ [] }
    {
        Component {
            name,
            begun,
            runs: Vec::new(alloc),
            children: Vec::new(alloc),
        }
    }

    /// The name, in the case that BEGIN has it in.
    pub fn name(&self) -> &'a str
        ensures { result.now ≡ component_name self.now }
    {
        self.name
    }

    /// Whether the name is this one; ASCII letters are compared caseless.
    pub fn is_named(&self, name: &str) -> bool
        ensures { result ≡ is_same_name (component_name self.now) name.now }
    {
        self.name.eq_ignore_ascii_case(name)
    }

    /// The number of its BEGIN among the logical lines of the octets that it was read from, from 1.
    pub fn begun(&self) -> usize
        ensures { result ≡ component_begun self.now }
    {
        self.begun
    }

    /// The component's own lines without BEGIN and END, in order. It takes no memory.
    pub fn lines(&self) -> OwnLines<'_>
        ensures { lines_left result ≡ component_lines self.now }
    {
        OwnLines::of(self.runs.as_slice())
    }

    /// The runs that those lines are in, in order.
    pub(crate) fn runs(&self) -> &[Run<'a>]
        ensures { result.now ≡ component_runs self.now }
    {
        self.runs.as_slice()
    }

    /// The components directly inside, in order.
    pub fn children(&self) -> &[Component<'a>]
        ensures { result.now ≡ component_children self.now }
    {
        self.children.as_slice()
    }

    /// Adds lines of the component's own at the end. Where memory is refused nothing has changed.
    pub(crate) fn push_run(&mut self, run: Run<'a>) -> Result<(), AllocError>
        ensures name { component_name self.new ≡ component_name self.old }
        ensures begun { component_begun self.new ≡ component_begun self.old }
        ensures children { component_children self.new ≡ component_children self.old }
        ensures runs { OnOk result (component_runs self.new ≡ component_runs self.old ++ run.entry ∷ []) }
        ensures added { OnOk result (component_numbered self.new ≡ component_numbered self.old ++ run_numbered run.entry) }
        ensures unchanged { OnErr result (component_numbered self.new ≡ component_numbered self.old) }
    {
        if self.runs.is_empty() {
            // nearly every component has only one run: no room for more
            self.runs.reserve_exact(1)?;
        }
        self.runs.push(run)?;
        Ok(())
    }

    /// Adds a component inside at the end. Where memory is refused nothing has changed.
    pub(crate) fn push_child(&mut self, child: Component<'a>) -> Result<(), AllocError>
        ensures name { component_name self.new ≡ component_name self.old }
        ensures begun { component_begun self.new ≡ component_begun self.old }
        ensures runs { component_runs self.new ≡ component_runs self.old }
        ensures lines { component_numbered self.new ≡ component_numbered self.old }
        ensures added { OnOk result (component_children self.new ≡ component_children self.old ++ child.entry ∷ []) }
        ensures unchanged { OnErr result (component_children self.new ≡ component_children self.old) }
    {
        self.children.push(child)?;
        Ok(())
    }
}
