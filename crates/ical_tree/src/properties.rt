//! The own lines of a component, for questions by the names of its properties (RFC 5545 3.1, 3.6, 3.8).

ghost use Rattle.std.specs.Prelude.{◌≡◌, ◌++◌, map, OnOk};
ghost use Rattle.ical_lines.specs.Text.{line_text, numbered};
ghost use Rattle.ical_tree.specs.Runs.{run_lines, run_numbered};

use crate::component::Component;
use crate::own_lines::Run;
use ical_lines::{Line, Refusal};
use std::alloc::{AllocError, Global};

/// Room for this many lines is made at once: most VEVENTs have no more.
const USUAL_LINES: usize = 16;

/// The own lines of a component, each with its parts found: it may be asked for many names.
#[derive(Drop)]
pub struct Properties<'a> {
    /// The number of the component's BEGIN among the logical lines of its octets.
    begun: usize,
    lines: Vec<Line<'a>>,
}

impl<'a> Properties<'a> {
    ghost use Rattle.std.specs.Prelude.{◌≡◌, ◌⊎◌, Contains, Some, option_map, IfOk, IfErr, IfSome};
    ghost use Rattle.ical_lines.specs.Text.{line_text, numbered};
    ghost use Rattle.ical_tree.specs.Own.{own_lines, own_numbered};
    ghost use Rattle.ical_tree.specs.Tree.{component_begun, component_lines, component_numbered};
    ghost use Rattle.profile.specs.events.Properties.{is_of, OccursAtMostOnce, OccursMoreThanOnce, IsMissing};
    ghost use Rattle.profile.specs.faults.Blame.{IsSecond};

    /// The own lines of a component, in order. They borrow the text that it was read from, and not the component.
    /// It fails only when out of memory.
    pub fn of(alloc: Global, component: &Component<'a>) -> Result<Properties<'a>, AllocError>
        ensures lines { IfOk result (λ properties. own_lines properties ≡ component_lines component.now) }
        ensures numbered { IfOk result (λ properties. own_numbered properties ≡ component_numbered component.now) }
        ensures begun { IfOk result (λ properties. properties.begun ≡ component_begun component.now) }
    {
        let mut lines = Vec::new(alloc);
        lines.reserve(USUAL_LINES)?;
        for run in component.runs() {
            push_lines(&mut lines, *run)?;
        }
        Ok(Properties {
            begun: component.begun(),
            lines,
        })
    }

    /// The number of the component's BEGIN among the logical lines of the octets that it was read from, from 1.
    pub fn begun(&self) -> usize
        ensures { result ≡ self.now.begun }
    {
        self.begun
    }

    /// All lines, in order.
    pub fn lines(&self) -> &[Line<'a>]
        ensures { result.now ≡ self.now.lines.items }
    {
        self.lines.as_slice()
    }

    /// The line of a property that may occur once, None where there is none. Names are compared caseless.
    /// Where it occurs twice, the answer is the refusal given, at the second.
    pub fn optional(&self, name: &str, twice: Refusal) -> Result<Option<Line<'a>>, Refusal>
        ensures found { IfOk result (λ line. OccursAtMostOnce name.now (own_lines self.now) (option_map line_text line)) }
        ensures among { IfOk result (λ found. IfSome found (λ line. Contains (own_numbered self.now) (numbered line))) }
        ensures refuses { IfErr result (λ e. e.number ≡ twice.number) }
        ensures twice { IfErr result (λ _. OccursMoreThanOnce name.now (own_lines self.now)) }
        ensures second { IfErr result (λ e. IsSecond (is_of name.now) (own_numbered self.now) e.line) }
    {
        let mut found = None;
        for line in &self.lines {
            if line.is_named(name) {
                if found.is_some() {
                    return Err(twice.at(line.number()));
                }
                found = Some(*line);
            }
        }
        Ok(found)
    }

    /// The line of a property that occurs exactly once. Names are compared caseless.
    /// Where it is missing, the answer is the refusal given, at the BEGIN of the component; where it occurs twice, at the second.
    pub fn required(&self, name: &str, not_once: Refusal) -> Result<Line<'a>, Refusal>
        ensures found { IfOk result (λ line. OccursAtMostOnce name.now (own_lines self.now) (Some (line_text line))) }
        ensures among { IfOk result (λ line. Contains (own_numbered self.now) (numbered line)) }
        ensures refuses { IfErr result (λ e. e.number ≡ not_once.number) }
        ensures faulty { IfErr result (λ e. (IsMissing name.now (own_lines self.now) × (e.line ≡ self.now.begun))
            ⊎ (OccursMoreThanOnce name.now (own_lines self.now) × IsSecond (is_of name.now) (own_numbered self.now) e.line)) }
    {
        match self.optional(name, not_once)? {
            Some(line) => Ok(line),
            None => Err(not_once.at(self.begun)),
        }
    }
}

/// Appends the lines of a run, each with its parts found, in order. It fails only when out of memory.
fn push_lines<'a>(lines: &mut Vec<Line<'a>>, run: Run<'a>) -> Result<(), AllocError>
    ensures lines { OnOk result (map line_text lines.new.items ≡ map line_text lines.old.items ++ run_lines run.entry) }
    ensures numbered { OnOk result (map numbered lines.new.items ≡ map numbered lines.old.items ++ run_numbered run.entry) }
{
    let mut left = run;
    while let Some(line) = left.take_first() {
        lines.push(line)?;
    }
    Ok(())
}
