//! Writing an object: BEGIN, the component's own lines, the components inside, END, each line folded.

ghost use Rattle.std.specs.Prelude.{◌≡◌, ℕ, Bool, true, List, take, length, OnErr, OnOk, ◌++◌};
ghost use Rattle.std.specs.List.{flat_map};
ghost use Rattle.profile.specs.text.Lines.{folded, logical_lines, reads_as_lines};
ghost use Rattle.ical_tree.specs.ReadsBack.{ReadsBack};
ghost use Rattle.ical_tree.specs.Tree.{IsObjectOf, written, component_lines};

use crate::component::Component;
use ical_lines::{write_line, write_property};
use std::alloc::AllocError;

/// Writes a component with all that is inside. Where it was read from octets, what is written reads back as the same tree.
/// Where memory is refused, `out` is unchanged.
pub fn write_object(component: &Component, out: &mut Vec<u8>) -> Result<(), AllocError>
    ensures written { OnOk result (out.new.items ≡ out.old.items ++ written component.now) }
    ensures unchanged { OnErr result (out.new.items ≡ out.old.items) }
    ensures reads_back { (bounded : Bool) (octets : List ℕ)
        → reads_as_lines bounded octets ≡ true
        → IsObjectOf bounded component.now (logical_lines octets)
        → ReadsBack component.now (written component.now) }
{
    let kept = out.len();
    match write_component(component, out) {
        Ok(()) => Ok(()),
        Err(error) => {
            out.truncate(kept);
            Err(error)
        }
    }
}

/// Appends a component's lines. On an error some of them may have been appended.
fn write_component(component: &Component, out: &mut Vec<u8>) -> Result<(), AllocError>
    ensures written { OnOk result (out.new.items ≡ out.old.items ++ written component.now) }
    ensures keeps { take (length out.old.items) out.new.items ≡ out.old.items }
{
    write_property(out, "BEGIN", component.name())?;
    write_lines(component, out)?;
    for child in component.children() {
        write_component(child, out)?;
    }
    write_property(out, "END", component.name())
}

/// Appends a component's own lines. On an error some of them may have been appended.
fn write_lines(component: &Component, out: &mut Vec<u8>) -> Result<(), AllocError>
    ensures written { OnOk result (out.new.items ≡ out.old.items ++ flat_map folded (component_lines component.now)) }
    ensures keeps { take (length out.old.items) out.new.items ≡ out.old.items }
{
    for line in component.lines() {
        write_line(out, line.text())?;
    }
    Ok(())
}
