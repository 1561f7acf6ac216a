//! What an object asks for, and the events of its VEVENTs: METHOD comes first, and says how they are read and judged.
ghost use Rattle.ical_tree.specs.Own.{own_lines, own_numbered};
ghost use Rattle.std.specs.Prelude.{◌≡◌, Some, true, codes, is_none, Contains, IfSome, map, option_map, IfOk, IfErr, OnOk, IsTrue};
ghost use Rattle.profile.specs.events.Properties.{is_of};
ghost use Rattle.profile.specs.faults.Blame.{IsAt};
ghost use Rattle.std.specs.List.{list_all};
ghost use Rattle.std.specs.Str.{bytes_eq};
ghost use Rattle.ical_lines.specs.Fault.{RefusesOnly, RefusesBy, RefusesWhere};
ghost use Rattle.ical_lines.specs.Text.{line_text};
ghost use Rattle.ical_tree.specs.Tree.{component_lines, component_numbered, tree_of};
ghost use Rattle.ical_values.specs.Octets.{address_octets};
ghost use Rattle.profile.specs.faults.Faults.{is_message_fault};
ghost use Rattle.profile.specs.text.Lines.{line_value};
ghost use Rattle.profile.specs.text.Trees.{tree_own};
ghost use Rattle.profile.specs.events.Messages.{MessageFault, MethodFault, NamesMethod, has_one_attendee};
ghost use Rattle.profile.specs.events.EventComponents.{ATTENDEE, is_of_one, presence};
ghost use Rattle.cal_events.specs.Component.{component_of, method_said};
ghost use Rattle.cal_events.specs.Begins.{begins_of};
ghost use Rattle.itip_messages.specs.Blame.{MessageBlame};
ghost use Rattle.itip_messages.specs.Message.{IsMethodWord, IsNotOneEach, SaysEvents, WordFault};

use cal_events::{Attendee, EventComponent, Method, Property, read_meeting};
use ical_lines::{Fault, Refusal};
use ical_tree::{Component, Properties};
use std::alloc::Global;

/// What an object of these own lines asks for, and what its VEVENTs say, in the order of the text, as its METHOD takes them.
/// Refused: as by `Message::read`, except for the object.
pub(crate) fn read_events(
    alloc: Global,
    object: &Component,
    own: &Properties<'_>,
) -> Result<(Method, Vec<EventComponent>), Fault>
    requires { own_lines own.now ≡ component_lines object.now }
    ensures says { IfOk result (λ read. SaysEvents (tree_of object.now) (method_said read.0) (map component_of read.1.items)) }
    ensures refuses { IfErr result (RefusesOnly is_message_fault) }
    ensures fault { IfErr result (RefusesBy (MessageFault (tree_of object.now))) }
    ensures at { own_numbered own.now ≡ component_numbered object.now → IfErr result (RefusesWhere (MessageBlame object.now)) }
{
    let method = method_of(own)?;
    let events = read_meeting(alloc, object, Some(method))?;
    judge_attendees(method, &events)?;
    Ok((method, events))
}

/// What METHOD says, by the properties of an object; without METHOD it is a store.
/// Refused: 60 for a word that names no supported method, or for two lines.
fn method_of(properties: &Properties<'_>) -> Result<Method, Refusal>
    ensures named { IfOk result (λ method. NamesMethod (own_lines properties.now) (method_said method)) }
    ensures refuses { IfErr result (λ e. IsTrue (is_message_fault e.number)) }
    ensures fault { IfErr result (λ e. MethodFault (own_lines properties.now) e.number) }
    ensures at { IfErr result (λ e. IsAt (own_numbered properties.now) e.line (λ line. is_of (codes "METHOD") line ≡ true)) }
{
    match properties.optional("METHOD", Refusal::BAD_METHOD)? {
        Some(line) => line.placed(method_named(line.value())),
        None => Ok(Method::Store),
    }
}

/// The method that a word names.
/// Refused: 60 for one that isn't supported.
fn method_named(word: &str) -> Result<Method, Refusal>
    ensures named { IfOk result (IsMethodWord word.now) }
    ensures refuses { IfErr result (λ e. IsTrue (is_message_fault e.number)) }
    ensures fault { IfErr result (λ e. WordFault word.now e.number) }
{
    match Method::named(word) {
        Some(method) => Ok(method),
        None => Err(Refusal::BAD_METHOD),
    }
}

/// Refuses VEVENTs of which METHOD asks for one attendee each, where one doesn't have one.
/// Refused: 64, at the BEGIN of the first such VEVENT.
fn judge_attendees(method: Method, events: &[EventComponent]) -> Result<(), Refusal>
    ensures each { OnOk result (is_of_one (presence ATTENDEE (Some (method_said method))) ≡ true → list_all has_one_attendee (map component_of events.now) ≡ true) }
    ensures fault { IfErr result (λ e. IsNotOneEach (method_said method) (map component_of events.now) e.number) }
    ensures at { IfErr result (λ e. Contains (begins_of events.now) e.line) }
{
    let attendees = Property::Attendee.presence(Some(method));
    if !attendees.is_of_one() {
        return Ok(());
    }
    match first_without_one(events) {
        Some(event) => Err(Refusal::NOT_ONE_ATTENDEE.at(event.begun)),
        None => Ok(()),
    }
}

/// The first of some VEVENTs that doesn't have one attendee.
fn first_without_one(events: &[EventComponent]) -> Option<&EventComponent>
    ensures none { is_none result ≡ list_all (λ event. has_one_attendee (component_of event)) events.now }
    ensures at { IfSome result (λ event. Contains (begins_of events.now) event.now.begun) }
{
    for event in events {
        if !has_one_attendee(event) {
            return Some(event);
        }
    }
    None
}

/// Whether a VEVENT has one attendee; several lines of one address are one.
fn has_one_attendee(event: &EventComponent) -> bool
    ensures { result ≡ has_one_attendee (component_of event.now) }
{
    match event.attendees.split_first() {
        Some((first, others)) => are_all(first, others),
        None => false,
    }
}

/// Whether all the others have the address of the first.
fn are_all(first: &Attendee, others: &[Attendee]) -> bool
    ensures { result ≡ list_all (λ other. bytes_eq (address_octets other.address) (address_octets first.now.address)) others.now }
{
    others.iter().all(|other| other.address == first.address)
}
