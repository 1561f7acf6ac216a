//! `adapt --reply-to`: answers in the words of the object that they answer.

ghost use Rattle.std.specs.Prelude.{◌≡◌, ◌⊎◌, ◌<◌, ◌≤◌, [], length, drop, map, true, IfErr, IfOk, IfSome, MatchOption, OnErr, OnOk};
ghost use Rattle.std.specs.List.{flat_map};
ghost use Rattle.profile.specs.text.Objects.{after_object};
ghost use Rattle.sched_devices.specs.Output.{KeepsButFailed, WriteStopsFor};
ghost use Rattle.sched_cli.specs.Commands.{IsStatusSaid, write_status};
ghost use Rattle.sched_cli.specs.Returned.{HandsBack, IsParted, Returns, ReturnsAll, ReturnsFront, StopsReturning, after_line, after_piece, is_line};

use crate::status::{DONE, report_write};
use cal_doors::{returned, split};
use ical_lines::cut;
use ical_tree::Component;
use sched_devices::{Output, WriteFault};
use std::alloc::{AllocError, Global};

/// How answers are handed on.
#[derive(Clone, Copy)]
pub struct WayBack<'s, 'c, 'a> {
    /// The object that they answer, as it came.
    pub original: &'s [u8],
    /// The VTIMEZONEs of names for which the object has none.
    pub listed: Option<&'c Component<'a>>,
    /// Each VEVENT in an object of its own.
    pub is_single: bool,
}

/// Hands on what `serve` wrote: each object in the words of the original, where it can be told so; lines of refused objects, and all else,
/// as they are. Gives 4 where the writer failed, and 5 where memory was refused.
pub fn run_returned<W: Output, E: Output>(
    alloc: Global,
    way: WayBack<'_, '_, '_>,
    octets: &[u8],
    writer: &mut W,
    errors: &mut E,
) -> u8
    ensures whole { result ≡ 0 → ReturnsAll way.entry octets.now [] (W.contents writer.old) (W.contents writer.new) }
    ensures front { (result ≡ 0 → ⊥) → ReturnsFront result way.entry octets.now (W.contents writer.old) (W.contents writer.new) }
    ensures device { result ≡ 4 → W.has_failed writer.new ≡ true }
    ensures told { (result ≡ 4 → ⊥) → W.has_failed writer.new ≡ W.has_failed writer.old }
    ensures status { (result ≡ 0) ⊎ (result ≡ 4) ⊎ (result ≡ 5) }
    ensures said { IsStatusSaid result (E.contents errors.old) (E.contents errors.new) (E.may_lose errors.new) }
{
    match return_all(alloc, way, octets, writer) {
        Ok(()) => DONE,
        Err(fault) => report_write(errors, fault),
    }
}

/// Hands on all pieces.
fn return_all<W: Output>(
    alloc: Global,
    way: WayBack<'_, '_, '_>,
    octets: &[u8],
    writer: &mut W,
) -> Result<(), WriteFault>
    ensures whole { OnOk result (ReturnsAll way.entry octets.now [] (W.contents writer.old) (W.contents writer.new)) }
    ensures front { IfErr result (λ fault. ReturnsFront (write_status fault) way.entry octets.now (W.contents writer.old) (W.contents writer.new)) }
    ensures mark { OnOk result (W.has_failed writer.new ≡ W.has_failed writer.old) }
    ensures cause { IfErr result (WriteStopsFor (W.has_failed writer.new)) }
    ensures told { IfErr result (KeepsButFailed (W.has_failed writer.old) (W.has_failed writer.new)) }
{
    let mut left = octets;
    while !left.is_empty() {
        let (piece, rest) = left.split_at(piece_length(left));
        return_piece(alloc, way, piece, writer)?;
        left = rest;
    }
    Ok(())
}

/// How many octets the first piece has: a line that no object has, or an object, with its line break; all, where none ends.
fn piece_length(octets: &[u8]) -> usize
    requires { 0 < length octets.now }
    ensures some { 0 < result }
    ensures within { result ≤ length octets.now }
    ensures rest { drop result octets.now ≡ after_piece octets.now }
{
    if is_line(octets) {
        line_length(octets)
    } else {
        object_length(octets)
    }
}

/// Whether a line comes first that no object has: an empty one, or that of a refused object.
fn is_line(octets: &[u8]) -> bool
    ensures { result ≡ is_line octets.now }
{
    octets.starts_with(b"\n") || octets.starts_with(b"\r\n") || octets.starts_with(b"REFUSED;")
}

/// How many octets the first line has, with its line break.
fn line_length(octets: &[u8]) -> usize
    requires { 0 < length octets.now }
    ensures some { 0 < result }
    ensures within { result ≤ length octets.now }
    ensures rest { drop result octets.now ≡ after_line octets.now }
{
    for (place, octet) in octets.iter().enumerate() {
        if *octet == b'\n' {
            return place + 1;
        }
    }
    octets.len()
}

/// How many octets the first object has, with its line break; all, where none ends.
fn object_length(octets: &[u8]) -> usize
    requires { 0 < length octets.now }
    ensures some { 0 < result }
    ensures within { result ≤ length octets.now }
    ensures rest { drop result octets.now ≡ after_object octets.now }
{
    match cut(octets) {
        Some(end) => end,
        None => octets.len(),
    }
}

/// Hands on a piece.
fn return_piece<W: Output>(
    alloc: Global,
    way: WayBack<'_, '_, '_>,
    piece: &[u8],
    writer: &mut W,
) -> Result<(), WriteFault>
    ensures returns { OnOk result (Returns way.entry piece.now (W.contents writer.old) (W.contents writer.new)) }
    ensures stops { IfErr result (StopsReturning way.entry piece.now (W.contents writer.old) (W.contents writer.new)) }
    ensures mark { OnOk result (W.has_failed writer.new ≡ W.has_failed writer.old) }
    ensures cause { IfErr result (WriteStopsFor (W.has_failed writer.new)) }
    ensures told { IfErr result (KeepsButFailed (W.has_failed writer.old) (W.has_failed writer.new)) }
{
    match handed_back(alloc, way, piece) {
        Ok(Some(out)) => writer.put(out.as_slice()),
        Ok(None) => writer.put(piece),
        Err(_) => Err(WriteFault::Memory),
    }
}

/// What is handed on for a piece; None where that is the piece itself.
fn handed_back(
    alloc: Global,
    way: WayBack<'_, '_, '_>,
    piece: &[u8],
) -> Result<Option<Vec<u8>>, AllocError>
    ensures { IfOk result (λ found. MatchOption found (HandsBack way.entry piece.now piece.now) (λ out. HandsBack way.entry piece.now out.items)) }
{
    if is_line(piece) {
        return Ok(None);
    }
    let Some(told) = returned(alloc, way.original, way.listed, piece)? else {
        return parted(alloc, way.is_single, piece);
    };
    match parted(alloc, way.is_single, told.as_slice())? {
        Some(out) => Ok(Some(out)),
        None => Ok(Some(told)),
    }
}

/// The VEVENTs of an object, each in an object of its own, where that is asked for; None where the object stays as it is.
fn parted(alloc: Global, is_single: bool, told: &[u8]) -> Result<Option<Vec<u8>>, AllocError>
    ensures { IfOk result (λ found. IfSome found (λ out. (is_single ≡ true) × IsParted told.now out.items)) }
{
    if !is_single {
        return Ok(None);
    }
    match split(alloc, told)? {
        Some(parts) => Ok(Some(joined(alloc, parts.as_slice())?)),
        None => Ok(None),
    }
}

/// Octets, one after another.
fn joined(alloc: Global, parts: &[Vec<u8>]) -> Result<Vec<u8>, AllocError>
    ensures { IfOk result (λ out. out.items ≡ flat_map (λ part. part) (map (λ part. part.items) parts.now)) }
{
    let mut out = Vec::new(alloc);
    for part in parts {
        out.extend_from_slice(part.as_slice())?;
    }
    Ok(out)
}
