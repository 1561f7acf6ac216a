//! Whether two components are the same tree.

ghost use Rattle.std.specs.Prelude.{◌≡◌, true};
ghost use Rattle.ical_tree.specs.Runs.{lines_left};
ghost use Rattle.ical_tree.specs.Tree.{component_lines, tree_of};

use crate::component::Component;
use crate::own_lines::OwnLines;

impl Component<'_> {
    /// Whether another has the same name, the same lines and the same components inside, octet by octet and in order.
    pub fn is_same(&self, other: &Component) -> bool
        ensures { result ≡ true → tree_of self.now ≡ tree_of other.now }
    {
        if self.name() != other.name() || !self.has_same_lines(other) {
            return false;
        }
        let mut left = other.children();
        for child in self.children() {
            let [first, later @ ..] = left else {
                return false;
            };
            if !child.is_same(first) {
                return false;
            }
            left = later;
        }
        left.is_empty()
    }

    /// Whether another has the same lines of its own.
    pub fn has_same_lines(&self, other: &Component) -> bool
        ensures { result ≡ true → component_lines self.now ≡ component_lines other.now }
    {
        are_same_lines(self.lines(), other.lines())
    }
}

/// Whether lines are the same, one by one.
fn are_same_lines(one: OwnLines<'_>, other: OwnLines<'_>) -> bool
    ensures { result ≡ true → lines_left one.entry ≡ lines_left other.entry }
{
    let mut other = other;
    for line in one {
        let Some(its) = other.next() else {
            return false;
        };
        if line.text() != its.text() {
            return false;
        }
    }
    other.next().is_none()
}
