//! The lines of the properties of one VEVENT (RFC 5545 3.6.1, 3.8).
ghost use Rattle.std.specs.Prelude.{◌≡◌, List, true, option_map, is_some, IfOk, IfErr, IfSome, IsTrue};
ghost use Rattle.std.specs.List.{find, list_any};
ghost use Rattle.ical_lines.specs.Text.{line_text};
ghost use Rattle.profile.specs.faults.Faults.{is_event_fault};
ghost use Rattle.profile.specs.events.EventComponents.{is_once, occurs_once, presence, property_name, PresenceFault};
ghost use Rattle.profile.specs.events.EventBlame.{EventBlame};
ghost use Rattle.profile.specs.events.Properties.{is_of, OccursAtMostOnce};
ghost use Rattle.profile.specs.series.ZoneBlame.{NumberedZone};
ghost use Rattle.ical_tree.specs.Own.{own_lines, numbered_own};
ghost use Rattle.cal_events.specs.Component.{method_read};
ghost use Rattle.cal_events.specs.Property.{property_said, IsLineOf};

use crate::method::Method;
use crate::property::Property;
use ical_lines::{Line, Refusal};
use ical_tree::Properties;

/// The line of a property that occurs at most once; None where it is missing, and this METHOD lets it be.
/// Refused: 61 where it occurs twice, and where it is missing as by `Property::missing`.
pub(crate) fn line_of<'a>(
    properties: &Properties<'a>,
    property: Property,
    method: Option<Method>,
) -> Result<Option<Line<'a>>, Refusal>
    requires once { occurs_once (property_said property) ≡ true }
    ensures found { IfOk result (λ line. OccursAtMostOnce (property_name (property_said property)) (own_lines properties.now) (option_map line_text line)) }
    ensures there { IfOk result (λ line. is_once (presence (property_said property) (method_read method)) ≡ true → is_some line ≡ true) }
    ensures refuses { IfErr result (λ e. IsTrue (is_event_fault e.number)) }
    ensures fault { IfErr result (λ e. PresenceFault (method_read method) (own_lines properties.now) e.number) }
    ensures among { IfOk result (λ found. IfSome found (λ line. IsLineOf property (numbered_own properties.now) line)) }
    ensures at { (zones : List NumberedZone) → IfErr result (λ e. EventBlame (method_read method) zones (numbered_own properties.now) e.number e.line) }
{
    match properties.optional(property.name(), Refusal::BAD_PROPERTY)? {
        Some(line) => Ok(Some(line)),
        None if property.presence(method).is_once() => Err(
            property.missing().at(properties.begun()),
        ),
        None => Ok(None),
    }
}

/// The first line of a property, None where there is none.
pub(crate) fn first_named<'a>(properties: &Properties<'a>, property: Property) -> Option<Line<'a>>
    ensures { option_map line_text result ≡ find (is_of (property_name (property_said property))) (own_lines properties.now) }
{
    for line in properties.lines() {
        if property.names(*line) {
            return Some(*line);
        }
    }
    None
}

/// Whether there is a line of a property.
pub(crate) fn has(properties: &Properties<'_>, property: Property) -> bool
    ensures { result ≡ list_any (is_of (property_name (property_said property))) (own_lines properties.now) }
{
    for line in properties.lines() {
        if property.names(*line) {
            return true;
        }
    }
    false
}
