//! An object made readable for a room: VTIMEZONEs that say more than a room reads give way to some that do the same.

ghost use Rattle.std.specs.Prelude.{◌≡◌, true, map, string_bytes, Some, IfOk, IfSome};
ghost use Rattle.ical_tree.specs.Tree.{tree_of};
ghost use Rattle.profile.specs.text.Lines.{logical_lines, reads_as_lines};
ghost use Rattle.profile.specs.text.Objects.{IsObject};
ghost use Rattle.profile.specs.doors.Adapting.{IsAdapted, IsOf};
ghost use Rattle.cal_doors.specs.Named.{AreNamed};
ghost use Rattle.cal_doors.specs.Used.{AreUses};
ghost use Rattle.cal_doors.specs.Adapted.{list_of, AreChanges, IsRightlyAdapted, AreGoingOn};

use crate::changes::{Changes, changes_of, names_going_on};
use crate::named::NamedZones;
use crate::right::is_right;
use crate::splice::spliced;
use crate::uses::{Uses, uses_of};
use ical_lines::{Fault, Limits, Unfolded};
use ical_tree::{Component, read_object};
use std::alloc::{AllocError, Global};

/// An object that is handed on.
#[derive(Drop)]
pub struct Adapted {
    pub octets: Vec<u8>,
    /// The names of the zones that go on beyond what is stated of them.
    pub going_on: Vec<String>,
}

/// The object with VTIMEZONEs that a room reads, in the place of those that its times name and a room doesn't read. None where there are none,
/// where it is no object within the limits of a message, and where one of them can't be had: then it is handed on as it is. Each takes
/// the place of what its name means at the door: the VTIMEZONE of the object, or that of the list (an object) where it is missing or has no
/// part. All other lines are those of the object, as they read unfolded. What is made is read again, and handed on only if it is right.
pub fn adapt(
    alloc: Global,
    octets: &[u8],
    listed: Option<&Component<'_>>,
) -> Result<Option<Adapted>, AllocError>
    ensures { IfOk result (λ found. IfSome found (λ a. IsAdapted (list_of listed.entry) octets.now (map string_bytes a.going_on.items) a.octets.items)) }
{
    let Some(text) = text_of(alloc, octets)? else {
        return Ok(None);
    };
    let Some(object) = object_of(alloc, &text)? else {
        return Ok(None);
    };
    let Some(uses) = uses_of(alloc, &object)? else {
        return Ok(None);
    };
    adapt_object(alloc, octets, &object, &uses, listed)
}

/// An object made readable, where these are the uses that its lines make of zones.
fn adapt_object(
    alloc: Global,
    octets: &[u8],
    object: &Component<'_>,
    uses: &Uses,
    listed: Option<&Component<'_>>,
) -> Result<Option<Adapted>, AllocError>
    requires came { IsOf octets.now (tree_of object.now) }
    requires uses { AreUses (tree_of object.now) uses.now.entries }
    ensures { IfOk result (λ found. IfSome found (λ a. IsAdapted (list_of listed.entry) octets.now (map string_bytes a.going_on.items) a.octets.items)) }
{
    let zones = NamedZones::of(alloc, object)?;
    let Some(changes) = changes_by(alloc, uses, &zones, listed)? else {
        return Ok(None);
    };
    if changes.is_empty() {
        return Ok(None);
    }
    with_changes(alloc, octets, object, uses, &zones, &changes)
}

/// The zones that have to take the place of the VTIMEZONEs of an object, whose uses these are. None where one can't be had. The list is looked
/// into only where the object alone doesn't have them all.
fn changes_by(
    alloc: Global,
    uses: &Uses,
    zones: &NamedZones<'_, '_>,
    listed: Option<&Component<'_>>,
) -> Result<Option<Changes>, AllocError>
    requires uses { AreUses (tree_of zones.now.object.now) uses.now.entries }
    requires zones { AreNamed zones.now }
    ensures { IfOk result (λ found. IfSome found (λ changes. AreChanges (list_of listed.entry) (tree_of zones.now.object.now) uses.now.entries changes.entries)) }
{
    if let Some(changes) = changes_of(alloc, uses, zones, None)? {
        return Ok(Some(changes));
    }
    let Some(object) = listed else {
        return Ok(None);
    };
    changes_listed(alloc, uses, zones, object)
}

/// The zones that have to take the place of the VTIMEZONEs of an object, where those that it lacks are looked up in a list.
fn changes_listed(
    alloc: Global,
    uses: &Uses,
    zones: &NamedZones<'_, '_>,
    listed: &Component<'_>,
) -> Result<Option<Changes>, AllocError>
    requires uses { AreUses (tree_of zones.now.object.now) uses.now.entries }
    requires zones { AreNamed zones.now }
    ensures { IfOk result (λ found. IfSome found (λ changes.
        AreChanges (Some (tree_of listed.now)) (tree_of zones.now.object.now) uses.now.entries changes.entries)) }
{
    let named = NamedZones::of(alloc, listed)?;
    changes_of(alloc, uses, zones, Some(&named))
}

/// The object with these changes. None where that isn't right.
fn with_changes(
    alloc: Global,
    octets: &[u8],
    object: &Component<'_>,
    uses: &Uses,
    zones: &NamedZones<'_, '_>,
    changes: &Changes,
) -> Result<Option<Adapted>, AllocError>
    requires before { zones.now.object.now ≡ object.now }
    requires named { AreNamed zones.now }
    ensures right { IfOk result (λ found. IfSome found (λ a. IsRightlyAdapted (tree_of object.now) uses.now.entries changes.now.entries a.octets.items)) }
    ensures going_on { IfOk result (λ found. IfSome found (λ a. AreGoingOn changes.now.entries (map string_bytes a.going_on.items))) }
{
    let adapted = spliced(alloc, octets, object, changes)?;
    if !is_right(alloc, adapted.as_slice(), object, uses, zones, changes)? {
        return Ok(None);
    }
    let going_on = names_going_on(alloc, changes)?;
    Ok(Some(Adapted {
        octets: adapted,
        going_on,
    }))
}

/// The lines of octets within the limits of a message. None where they aren't.
pub(crate) fn text_of(alloc: Global, octets: &[u8]) -> Result<Option<Unfolded<'_>>, AllocError>
    ensures { IfOk result (λ found. IfSome found (λ text. (text ≡ logical_lines octets.now) × (reads_as_lines true octets.now ≡ true))) }
{
    match Unfolded::read(alloc, octets, Limits::Message) {
        Ok(text) => Ok(Some(text)),
        Err(Fault::Memory) => Err(AllocError),
        Err(Fault::Refused(_)) => Ok(None),
    }
}

/// The object that lines spell, within the limits of a message. None where they spell none.
pub(crate) fn object_of<'a>(
    alloc: Global,
    text: &'a Unfolded<'_>,
) -> Result<Option<Component<'a>>, AllocError>
    ensures { IfOk result (λ found. IfSome found (λ object. IsObject true (tree_of object) text.now)) }
{
    match read_object(alloc, text, Limits::Message) {
        Ok(object) => Ok(Some(object)),
        Err(Fault::Memory) => Err(AllocError),
        Err(Fault::Refused(_)) => Ok(None),
    }
}
