//! Reading an object: BEGIN and END pair up, and everything is in one VCALENDAR (RFC 5545 3.4, 3.6).
ghost use Rattle.std.specs.Prelude.{
  MatchOption,
  ◌≡◌,
  ◌++◌,
  ◌∷◌,
  ◌&&◌,
  ◌||◌,
  ◌==◌,
  [],
  not,
  drop,
  is_some,
  None,
  ℕ,
  List,
  Bool,
  codes,
  length,
  ◌<◌,
  nat_lt,
  true,
  false,
  IfErr,
  IfOk,
  if◌then◌else◌,
  option_map,
  slice_get,
  OnOk,
  IsTrue,
};
ghost use Rattle.std.specs.List.{enumerate_from};
ghost use Rattle.profile.specs.faults.Faults.{is_object_fault};
ghost use Rattle.profile.specs.text.Lines.{line_value};
ghost use Rattle.profile.specs.text.ObjectBlame.{CalendarBlame, ObjectBlame};
ghost use Rattle.profile.specs.text.Objects.{is_end, is_property, is_calendar_name, has_version, may_begin, Opens, is_none, now_open, misplaced, misplaced_begin, misplaced_end, misplaced_property};
ghost use Rattle.ical_lines.specs.Breaks.{is_one_line};
ghost use Rattle.ical_lines.specs.Fault.{RefusesOnly, RefusesBy, RefusesWhere};
ghost use Rattle.ical_lines.specs.Limits.{is_bounded};
ghost use Rattle.ical_lines.specs.Text.{line_text, numbered_left};
ghost use Rattle.ical_tree.specs.Runs.{lines_after_run, run_numbered};
ghost use Rattle.ical_tree.specs.Own.{own_lines, own_numbered, numbered_own};
ghost use Rattle.ical_tree.specs.Tree.{ArePlaced, IsObjectOf, component_begun, component_lines, component_numbered, count_children, children_named, events_begun_in};
ghost use Rattle.ical_tree.specs.Reading.{Built, IsCalendar, SpellsNumbered, TreeHas, begun_last, calendar_has, may_pair, open_names, open_view};

use crate::component::Component;
use crate::own_lines::Run;
use crate::properties::Properties;
use ical_lines::{Fault, Limits, Line, Lines, Refusal, Unfolded};
use std::alloc::{AllocError, Global};

/// The deepest nesting of components, VCALENDAR counted; this profile's choice.
pub const MAX_DEPTH: usize = 8;

/// The most VEVENTs of one message; this profile's choice.
const MAX_EVENTS: usize = 200;

/// An object that was read, and the own lines of its VCALENDAR with their parts found: they are cut once, for all that is asked of them.
#[derive(Drop)]
pub struct Object<'a> {
    pub calendar: Component<'a>,
    pub own: Properties<'a>,
}

impl<'a> Object<'a> {
    /// Reads an unfolded text as one object. The own lines of its VCALENDAR are kept beside it as they were cut to look for VERSION.
    /// Refused: as by `read_object`.
    pub fn read(alloc: Global, text: &'a Unfolded<'_>, limits: Limits) -> Result<Object<'a>, Fault>
        ensures spelled { IfOk result (λ object. IsObjectOf (is_bounded limits) object.calendar text.now) }
        ensures own { IfOk result (λ object. own_lines object.own ≡ component_lines object.calendar) }
        ensures numbered { IfOk result (λ object. own_numbered object.own ≡ component_numbered object.calendar) }
        ensures begun { IfOk result (λ object. object.own.begun ≡ component_begun object.calendar) }
        ensures placed { IfOk result (λ object. ArePlaced (enumerate_from 1 text.now) object.calendar) }
        ensures fault { IfErr result (RefusesBy (λ n. TreeHas (is_bounded limits) n text.now)) }
        ensures at { IfErr result (RefusesWhere (ObjectBlame (is_bounded limits) text.now)) }
        ensures refuses { IfErr result (RefusesOnly is_object_fault) }
    {
        let mut lines = text.lines();
        let mut reader = Reader::new(alloc, lines);
        while let Some(line) = lines.next_text() {
            if let Err(fault) = reader.take(alloc, line, lines) {
                return Err(fault.at(lines.passed()));
            }
        }
        let calendar = reader.finish()?;
        let own = Properties::of(alloc, &calendar)?;
        check_calendar(&calendar, &own, limits)?;
        Ok(Object { calendar, own })
    }
}

/// Reads an unfolded text as one object: a VCALENDAR with all that is inside, which borrows the text.
///
/// It refuses, in text order: an END with nothing open or of another name than the open component (20), a component
/// more than 8 deep (22), a property or a component outside the one VCALENDAR, or a VCALENDAR inside a component (23).
/// Then, at the end: a component that is still open (21), no VCALENDAR at all (23), a VERSION of VCALENDAR that is
/// missing, occurs twice or isn't `2.0` (24), and for `Limits::Message` more than 200 VEVENTs directly inside
/// VCALENDAR (25).
pub fn read_object<'a>(
    alloc: Global,
    text: &'a Unfolded<'_>,
    limits: Limits,
) -> Result<Component<'a>, Fault>
    ensures spelled { IfOk result (λ c. IsObjectOf (is_bounded limits) c text.now) }
    ensures placed { IfOk result (λ c. ArePlaced (enumerate_from 1 text.now) c) }
    ensures fault { IfErr result (RefusesBy (λ n. TreeHas (is_bounded limits) n text.now)) }
    ensures at { IfErr result (RefusesWhere (ObjectBlame (is_bounded limits) text.now)) }
    ensures refuses { IfErr result (RefusesOnly is_object_fault) }
{
    let object = Object::read(alloc, text, limits)?;
    Ok(object.calendar)
}

/// What the lines so far have spelled.
#[derive(Drop)]
struct Reader<'a> {
    /// The components that are open, from the outermost on.
    open: Vec<Component<'a>>,
    /// The properties since the last BEGIN or END. The innermost component doesn't have them yet.
    run: Run<'a>,
    /// The VCALENDAR, once it is closed.
    closed: Option<Component<'a>>,
}

impl<'a> Reader<'a> {
    /// No lines yet, but these to come.
    fn new(alloc: Global, lines: Lines<'a>) -> Reader<'a>
        ensures open { result.open.items ≡ [] }
        ensures closed { result.closed ≡ None }
        ensures follows { lines_after_run result.run ≡ numbered_left lines.entry }
    {
        Reader {
            open: Vec::new(alloc),
            run: Run::empty(lines),
            closed: None,
        }
    }

    /// Takes the next line; `rest` are the lines after it. After an error the reader is spent.
    fn take(&mut self, alloc: Global, text: &'a str, rest: Lines<'a>) -> Result<(), Fault>
        requires one_line { is_one_line text.now ≡ true }
        requires next { lines_after_run self.old.run ≡ (rest.passed, text.now) ∷ numbered_left rest }
        ensures follows { OnOk result (lines_after_run self.new.run ≡ numbered_left rest.entry) }
        ensures built { OnOk result ((done : List (ℕ × List ℕ))
            → Built (open_view self.old) self.old.closed done
            → Built (open_view self.new) self.new.closed (done ++ (rest.entry.passed, text.now) ∷ [])) }
        ensures names { OnOk result (open_names (open_view self.new) ≡ now_open (open_names (open_view self.old)) text.now) }
        ensures fault { IfErr result (RefusesOnly (λ n. misplaced n (open_names (open_view self.old)) (is_some self.old.closed) text.now)) }
        ensures refuses { IfErr result (RefusesOnly is_object_fault) }
    {
        match paired_line(text) {
            Some(line) if line.is_named("BEGIN") => self.begin(alloc, line.value(), rest),
            Some(line) if line.is_named("END") => self.end(line.value(), rest),
            _ => Ok(self.add()?),
        }
    }

    /// Opens a component; `rest` are the lines after its BEGIN.
    fn begin(&mut self, alloc: Global, name: &'a str, rest: Lines<'a>) -> Result<(), Fault>
        ensures follows { OnOk result (lines_after_run self.new.run ≡ numbered_left rest.entry) }
        ensures built { OnOk result ((done : List (ℕ × List ℕ)) (line : List ℕ)
            → Opens line name.now
            → Built (open_view self.old) self.old.closed done
            → Built (open_view self.new) self.new.closed (done ++ (rest.entry.passed, line) ∷ [])) }
        ensures names { OnOk result (open_names (open_view self.new) ≡ name.now ∷ open_names (open_view self.old)) }
        ensures fault { IfErr result (RefusesOnly (λ n. misplaced_begin n (open_names (open_view self.old)) (is_some self.old.closed) name.now)) }
        ensures refuses { IfErr result (RefusesOnly is_object_fault) }
    {
        if self.open.len() >= MAX_DEPTH {
            return Err(Fault::Refused(Refusal::TOO_DEEP));
        }
        if !self.may_begin(name) {
            return Err(Fault::Refused(Refusal::NOT_ONE_CALENDAR));
        }
        self.end_run(rest)?;
        self.open.push(Component::new(alloc, name, rest.passed()))?;
        Ok(())
    }

    /// Whether a component of this name may begin here: a VCALENDAR first of all, any other inside another.
    fn may_begin(&self, name: &str) -> bool
        ensures { result ≡ may_begin (open_names (open_view self.now)) (is_some self.now.closed) name.now }
    {
        if self.is_outside() {
            is_calendar(name) && self.closed.is_none()
        } else {
            !is_calendar(name)
        }
    }

    /// Whether no component is open.
    fn is_outside(&self) -> bool
        ensures { result ≡ is_none (open_names (open_view self.now)) }
    {
        self.open.is_empty()
    }

    /// Closes the innermost component; `rest` are the lines after its END.
    fn end(&mut self, name: &str, rest: Lines<'a>) -> Result<(), Fault>
        ensures follows { OnOk result (lines_after_run self.new.run ≡ numbered_left rest.entry) }
        ensures built { OnOk result ((done : List (ℕ × List ℕ)) (line : ℕ × List ℕ)
            → is_end line.1 ≡ true
            → line_value line.1 ≡ name.now
            → Built (open_view self.old) self.old.closed done
            → Built (open_view self.new) self.new.closed (done ++ line ∷ [])) }
        ensures names { OnOk result (open_names (open_view self.new) ≡ drop 1 (open_names (open_view self.old))) }
        ensures fault { IfErr result (RefusesOnly (λ n. misplaced_end n (open_names (open_view self.old)) name.now)) }
        ensures refuses { IfErr result (RefusesOnly is_object_fault) }
    {
        self.end_run(rest)?;
        let Some(component) = self.open.pop() else {
            return Err(Fault::Refused(Refusal::STRAY_END));
        };
        if !component.is_named(name) {
            return Err(Fault::Refused(Refusal::STRAY_END));
        }
        let Some(mut parent) = self.open.pop() else {
            self.closed = Some(component);
            return Ok(());
        };
        parent.push_child(component)?;
        self.open.push(parent)?;
        Ok(())
    }

    /// Gives the innermost component its properties since the last BEGIN or END. Those to come are among `rest`.
    fn end_run(&mut self, rest: Lines<'a>) -> Result<(), AllocError>
        ensures view { OnOk result (open_view self.new ≡ open_view self.old) }
        ensures follows { OnOk result (lines_after_run self.new.run ≡ numbered_left rest.entry) }
        ensures closed { self.new.closed ≡ self.old.closed }
        ensures empty { OnOk result (run_numbered self.new.run ≡ []) }
        ensures open { OnOk result (length self.new.open.items ≡ length self.old.open.items) }
    {
        if !self.run.is_empty() {
            if let Some(mut component) = self.open.pop() {
                component.push_run(self.run)?;
                self.open.push(component)?;
            }
        }
        self.run = Run::empty(rest);
        Ok(())
    }

    /// Adds the next line, a property, to the innermost component.
    fn add(&mut self) -> Result<(), Refusal>
        requires { 0 < length (lines_after_run self.old.run) }
        ensures follows { OnOk result (lines_after_run self.new.run ≡ drop 1 (lines_after_run self.old.run)) }
        ensures built { OnOk result ((done : List (ℕ × List ℕ)) (line : ℕ × List ℕ) (rest : List (ℕ × List ℕ))
            → is_property line.1 ≡ true
            → lines_after_run self.old.run ≡ line ∷ rest
            → Built (open_view self.old) self.old.closed done
            → Built (open_view self.new) self.new.closed (done ++ line ∷ [])) }
        ensures names { OnOk result (open_names (open_view self.new) ≡ open_names (open_view self.old)) }
        ensures fault { IfErr result (λ e. IsTrue (misplaced_property e.number (open_names (open_view self.old)))) }
        ensures refuses { IfErr result (λ e. IsTrue (is_object_fault e.number)) }
    {
        if self.is_outside() {
            return Err(Refusal::NOT_ONE_CALENDAR);
        }
        self.run.grow();
        Ok(())
    }

    /// The VCALENDAR, after the last line.
    fn finish(self) -> Result<Component<'a>, Refusal>
        ensures spelled { IfOk result (λ c. (done : List (ℕ × List ℕ))
            → Built (open_view self.entry) self.entry.closed done
            → SpellsNumbered 7 c done × IsCalendar c) }
        ensures fault { IfErr result (λ r. IsTrue ((r.number == 21 && not (is_none (open_names (open_view self.entry))))
            || (r.number == 23 && (is_none (open_names (open_view self.entry)) && not (is_some self.entry.closed))))) }
        ensures at { IfErr result (λ r. r.line ≡ begun_last (open_view self.entry)) }
        ensures refuses { IfErr result (λ r. IsTrue (is_object_fault r.number)) }
    {
        if let Some(component) = self.open.last() {
            return Err(Refusal::NOT_CLOSED.at(component.begun()));
        }
        self.closed.ok_or(Refusal::NOT_ONE_CALENDAR)
    }
}

/// The line of a text that may be a BEGIN or an END, by its first octet. Of most lines no part is looked for.
fn paired_line(text: &str) -> Option<Line<'_>>
    requires { is_one_line text.now ≡ true }
    ensures { MatchOption result (may_pair text.now ≡ false) (λ line. line_text line ≡ text.now) }
{
    match text.as_bytes() {
        [b'B' | b'b' | b'E' | b'e', ..] => Line::read(text),
        _ => None,
    }
}

/// Whether this is the name of the outermost component, whatever its case.
fn is_calendar(name: &str) -> bool
    ensures { result ≡ is_calendar_name name.now }
{
    name.eq_ignore_ascii_case("VCALENDAR")
}

/// Judges a VCALENDAR as a whole, of which these are the own lines: its VERSION, and how many VEVENTs it has.
fn check_calendar(calendar: &Component, own: &Properties<'_>, limits: Limits) -> Result<(), Refusal>
    requires calendar { IsCalendar calendar.now }
    requires own { own_lines own.now ≡ component_lines calendar.now }
    ensures version { OnOk result (has_version (component_lines calendar.now) ≡ true) }
    ensures events { OnOk result ((is_bounded limits && nat_lt 200 (count_children (codes "VEVENT") calendar.now)) ≡ false) }
    ensures fault { IfErr result (λ e. IsTrue (calendar_has (is_bounded limits) e.number calendar.now)) }
    ensures at { IfErr result (λ e. CalendarBlame (is_bounded limits) (numbered_own own.now) (events_begun_in calendar.now) e.number e.line) }
    ensures refuses { IfErr result (λ e. IsTrue (is_object_fault e.number)) }
{
    check_version(own)?;
    if let Some(event) = first_too_many(calendar, limits) {
        return Err(Refusal::TOO_MANY_EVENTS.at(event.begun()));
    }
    Ok(())
}

/// VERSION occurs exactly once among a component's own lines, and is `2.0`.
fn check_version(properties: &Properties<'_>) -> Result<(), Refusal>
    ensures version { OnOk result (has_version (own_lines properties.now) ≡ true) }
    ensures refuses { IfErr result (λ e. (e.number ≡ 24) × (has_version (own_lines properties.now) ≡ false)) }
    ensures at { IfErr result (λ e. (bounded : Bool) (events : List ℕ) → CalendarBlame bounded (numbered_own properties.now) events 24 e.line) }
{
    let version = properties.required("VERSION", Refusal::BAD_VERSION)?;
    if version.value() != "2.0" {
        return Err(Refusal::BAD_VERSION.at(version.number()));
    }
    Ok(())
}

/// The first VEVENT directly inside that is more than the limits allow.
fn first_too_many<'a, 'b>(calendar: &'b Component<'a>, limits: Limits) -> Option<&'b Component<'a>>
    ensures any { is_some result ≡ (is_bounded limits && nat_lt 200 (count_children (codes "VEVENT") calendar.now)) }
    ensures first { option_map (λ event. event.now) result
        ≡ (if is_bounded limits then slice_get (children_named (codes "VEVENT") calendar.now) 200 else None) }
{
    match limits {
        Limits::Message => {
            let children = calendar.children().iter();
            children
                .filter(|child| child.is_named("VEVENT"))
                .nth(MAX_EVENTS)
        }
        Limits::Open => None,
    }
}
