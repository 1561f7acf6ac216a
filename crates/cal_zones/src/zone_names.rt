//! The names of VTIMEZONEs, by which TZID means one (RFC 5545 3.2.19, 3.8.3.1).

ghost use Rattle.std.specs.Prelude.{◌≡◌, find, option_map, string_bytes, IfOk};
ghost use Rattle.ical_lines.specs.Text.{line_text};
ghost use Rattle.ical_tree.specs.Tree.{component_lines};
ghost use Rattle.profile.specs.events.Properties.{is_of};
ghost use Rattle.cal_zones.specs.ZoneNames.{zone_name_said};

use ical_lines::Line;
use ical_tree::Component;
use ical_values::Text;
use std::alloc::{AllocError, Global};

/// The name of a VTIMEZONE: its first TZID, a text with escapes. None for another component. Fails only when out of memory.
pub fn zone_name(alloc: Global, component: &Component) -> Result<Option<String>, AllocError>
    ensures { IfOk result (λ name. option_map string_bytes name ≡ zone_name_said component.now) }
{
    if !component.is_named("VTIMEZONE") {
        return Ok(None);
    }
    let Some(line) = first_named(component, "TZID") else {
        return Ok(None);
    };
    let name = Text::read(alloc, line.value())?;
    Ok(Some(String::from_str(alloc, name.as_str())?))
}

/// The first line of a property.
fn first_named<'a>(component: &'a Component, name: &str) -> Option<Line<'a>>
    ensures { option_map line_text result ≡ find (is_of name.now) (component_lines component.now) }
{
    for line in component.lines() {
        if line.is_named(name) {
            return Some(line);
        }
    }
    None
}
