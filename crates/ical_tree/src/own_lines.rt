//! The own lines of a component: those of its text that neither begin nor end a component, nor are in one inside it.

use ical_lines::{Line, Lines};

/// Lines that follow each other in a text.
#[derive(Clone, Copy)]
pub(crate) struct Run<'a> {
    /// The lines of the text from the first one of the run on.
    from: Lines<'a>,
    /// How many of them are in the run.
    count: usize,
}

impl<'a> Run<'a> {
    ghost use Rattle.std.specs.Prelude.{ℕ, List, ◌≡◌, ◌++◌, ◌∷◌, [], ◌<◌, length, drop, MatchOption, true};
    ghost use Rattle.ical_lines.specs.Text.{line_text, numbered, numbered_left};
    ghost use Rattle.ical_tree.specs.Runs.{run_lines, run_numbered, lines_after_run};

    /// No lines yet, but these may follow.
    pub(crate) fn empty(from: Lines<'a>) -> Run<'a>
        ensures lines { run_lines result ≡ [] }
        ensures numbered { run_numbered result ≡ [] }
        ensures after { lines_after_run result ≡ numbered_left from.entry }
    {
        Run { from, count: 0 }
    }

    /// Whether it has no line.
    pub(crate) fn is_empty(&self) -> bool
        ensures { result ≡ true → run_numbered self.now ≡ [] }
    {
        self.count == 0
    }

    /// Takes the next line of the text in.
    pub(crate) fn grow(&mut self)
        requires { 0 < length (lines_after_run self.old) }
        ensures lines { (line : ℕ × List ℕ) (rest : List (ℕ × List ℕ)) → lines_after_run self.old ≡ line ∷ rest
            → run_numbered self.new ≡ run_numbered self.old ++ line ∷ [] }
        ensures after { lines_after_run self.new ≡ drop 1 (lines_after_run self.old) }
    {
        self.count += 1;
    }

    /// The first line of the run, which is then without it.
    pub(crate) fn take_first(&mut self) -> Option<Line<'a>>
        ensures lines { MatchOption result ((run_lines self.old ≡ []) × (run_lines self.new ≡ []))
            (λ line. run_lines self.old ≡ line_text line ∷ run_lines self.new) }
        ensures numbered { MatchOption result ((run_numbered self.old ≡ []) × (run_numbered self.new ≡ []))
            (λ line. run_numbered self.old ≡ numbered line ∷ run_numbered self.new) }
    {
        if self.count == 0 {
            return None;
        }
        let line = self.from.next_line()?;
        self.count -= 1;
        Some(line)
    }
}

/// The own lines of a component that are left, in order. It takes no memory.
#[derive(Clone, Copy)]
pub struct OwnLines<'a> {
    run: Run<'a>,
    /// The runs after it.
    later: &'a [Run<'a>],
}

impl<'a> OwnLines<'a> {
    ghost use Rattle.std.specs.Prelude.{◌≡◌};
    ghost use Rattle.std.specs.List.{flat_map};
    ghost use Rattle.ical_tree.specs.Runs.{run_lines, lines_left};

    /// The lines of some runs.
    pub(crate) fn of(runs: &'a [Run<'a>]) -> OwnLines<'a>
        ensures { lines_left result ≡ flat_map run_lines runs.now }
    {
        OwnLines {
            run: Run::empty(Lines::none()),
            later: runs,
        }
    }
}

impl<'a> Iterator for OwnLines<'a> {
    ghost use Rattle.std.specs.Iterator.{YieldsFirstBy, item_count};
    ghost use Rattle.ical_lines.specs.Text.{line_text};
    ghost use Rattle.ical_tree.specs.Runs.{lines_left};

    type Item = Line<'a>;

    ghost next_gives = { YieldsFirstBy line_text lines_left };

    ghost remaining = { item_count lines_left };

    fn next(&mut self) -> Option<Line<'a>> {
        loop {
            if let Some(line) = self.run.take_first() {
                return Some(line);
            }
            let [run, later @ ..] = self.later else {
                return None;
            };
            self.run = *run;
            self.later = later;
        }
    }
}
