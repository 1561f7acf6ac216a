//! Reading the lines of a certificate: each step says what stands at the front of the octets and what follows it, or that it doesn't stand
//! there.
ghost use Rattle.std.specs.Prelude.{List, ℕ, ◌≡◌, ◌↔◌, ◌^◌, ◌<◌, ◌≤◌, ◌-◌, ◌+◌, [], ◌∷◌, ◌++◌, suc, take, length, map, codes, decimal, position, slice_index_or, ◌==◌, AllPairs, IsTrue, MatchBool, MatchOption, MatchResult, IfOk};
ghost use Rattle.std.specs.List.{count_by};
ghost use Rattle.profile.specs.text.Values.{WritesStamp};
ghost use Rattle.profile.specs.checker.Certificates.{AreInOrder, IsEntry, IsEntryText, Span};
ghost use Rattle.profile.specs.checker.Certificates as said;
ghost use Rattle.clash_cert.specs.Texts.{Lacks, LacksLine, LacksCount, LacksLf, IsCutAtLf, IsNoNumber, entry_said, group_said, groups_said, pair_said};
ghost use Rattle.clash_cert.specs.Reading.{pair_names, IsNoEntry, IsNoSpan, IsNoWrittenStamp, IsVersionAt, LacksVersion, IsGroupAt, LacksGroup, IsGroupOfWords, IsNoGroup, AreNumbers, AreNoNumbers, IsNumberAt, LacksNumber, IsCutAtSpace, ascend, IsPairAt, LacksPair};
ghost use Rattle.clash_cert.specs.Walked.{AreGroupsAt, ArePairsAt, AreStatementsOf, AreVersionGroups, BreaksGroups, BreaksInGroups, BreaksPairs, IsAfterLast, IsBroken, IsNextGroup, IsOfGroups};
ghost use Rattle.clash_cert.specs.Stops.{StopsAt};

use crate::certificate::{Entry, Pair};
use crate::groups::Group;
use crate::members::Members;
use ical_values::Stamp;
use itoa::Buffer;
use std::alloc::{AllocError, AllocFailed, Global};
use std::str;

/// How many numbers the line of a group has at least: its days, and two series.
const DAYS_AND_TWO: usize = 3;

/// The version that the first line of a certificate tells.
#[derive(Clone, Copy, PartialEq, Eq)]
pub(crate) enum Version {
    First,
    /// It has groups.
    Second,
}

/// Where reading stops before the end of a certificate.
#[derive(Clone, Copy)]
pub(crate) enum Stop<'a> {
    /// The memory that was asked for was refused.
    Memory,
    /// The line at which this rest begins is wrong or missing.
    At(&'a [u8]),
}

impl From<AllocError> for Stop<'_> {
    ghost use Rattle.clash_cert.specs.declared.reading.Stop.TheVariants as stop;

    ghost from_gives = { λ _ e. e ≡ stop.Memory };

    fn from(_error: AllocError) -> Self {
        Stop::Memory
    }
}

impl<T: Drop> From<AllocFailed<T>> for Stop<'_> {
    ghost use Rattle.clash_cert.specs.declared.reading.Stop.TheVariants as stop;

    ghost from_gives = { λ _ e. e ≡ stop.Memory };

    fn from(_error: AllocFailed<T>) -> Self {
        Stop::Memory
    }
}

/// Reads what follows the counts of a certificate of this many series: the groups of version 2, the entries of all pairs that aren't both in one
/// group, and the last line with nothing after it.
pub(crate) fn read_statements<'a>(
    alloc: Global,
    bytes: &'a [u8],
    version: Version,
    series: u64,
) -> Result<(Option<Vec<Group>>, Vec<Pair>), Stop<'a>>
    ensures { MatchResult result (λ p. AreStatementsOf version series (groups_said p.0) (map pair_said p.1.items) bytes.now) (StopsAt (IsBroken version series bytes.now)) }
{
    let mut members = Members::none(alloc);
    let (groups, rest) = read_version_groups(alloc, bytes, version, series, &mut members)?;
    let (pairs, rest) = read_pairs(alloc, rest, series, &members)?;
    let Some(left) = after_line(rest, b"DONE") else {
        return Err(Stop::At(rest));
    };
    if left.is_empty() {
        Ok((groups, pairs))
    } else {
        Err(Stop::At(left))
    }
}

/// The groups of a certificate of this version, which the first doesn't have, and what follows their lines. Of each series that is in one
/// `members` knows that afterwards.
fn read_version_groups<'a>(
    alloc: Global,
    bytes: &'a [u8],
    version: Version,
    series: u64,
    members: &mut Members,
) -> Result<(Option<Vec<Group>>, &'a [u8]), Stop<'a>>
    requires { IsOfGroups [] members.old }
    ensures { MatchResult result (λ p. AreVersionGroups version series (groups_said p.0) members.new bytes.now p.1.now) (StopsAt (BreaksInGroups version series bytes.now)) }
{
    match version {
        Version::First => Ok((None, bytes)),
        Version::Second => {
            let (groups, rest) = read_groups(alloc, bytes, series, members)?;
            Ok((Some(groups), rest))
        }
    }
}

/// The groups whose lines come first, and what follows these.
fn read_groups<'a>(
    alloc: Global,
    bytes: &'a [u8],
    series: u64,
    members: &mut Members,
) -> Result<(Vec<Group>, &'a [u8]), Stop<'a>>
    requires { IsOfGroups [] members.old }
    ensures { MatchResult result (λ p. AreGroupsAt series (map group_said p.0.items) members.new bytes.now p.1.now) (StopsAt (BreaksGroups series bytes.now)) }
{
    let mut groups: Vec<Group> = Vec::new(alloc);
    let mut rest = bytes;
    while begins_group(rest) {
        let Some((group, left)) = read_group(alloc, rest, series)? else {
            return Err(Stop::At(rest));
        };
        if !may_follow(&groups, members, &group) {
            return Err(Stop::At(rest));
        }
        members.add(groups.len(), &group.members)?;
        groups.push(group)?;
        rest = left;
    }
    Ok((groups, rest))
}

/// Do the octets begin as the line of a group does?
fn begins_group(bytes: &[u8]) -> bool
    ensures { MatchBool result ((words : List ℕ) × (bytes.now ≡ codes "GROUP " ++ words)) (Lacks (codes "GROUP ") bytes.now) }
{
    after(bytes, b"GROUP ").is_some()
}

/// May a group come after these? It comes after the last one, by its first series, and shares none with them.
fn may_follow(groups: &[Group], members: &Members, group: &Group) -> bool
    ensures { IsOfGroups (map group_said groups.now) members.now → AllPairs AreInOrder (map group_said groups.now)
        → IsTrue result ↔ IsNextGroup (map group_said groups.now) (group_said group.now) }
{
    comes_after(groups, group) && !members.has_any(&group.members)
}

/// Does a group come after the last one, by its first series?
fn comes_after(groups: &[Group], group: &Group) -> bool
    ensures { IsTrue result ↔ IsAfterLast (map group_said groups.now) (group_said group.now) }
{
    match groups.last() {
        Some(last) => last.name().0 < group.name().0,
        None => true,
    }
}

/// The entries of all pairs of so many series that aren't both in one group, and what follows their lines.
fn read_pairs<'a>(
    alloc: Global,
    bytes: &'a [u8],
    series: u64,
    members: &Members,
) -> Result<(Vec<Pair>, &'a [u8]), Stop<'a>>
    ensures { (groups : List said.Group) → IsOfGroups groups members.now → MatchResult result (λ p. ArePairsAt series groups (map pair_said p.0.items) bytes.now p.1.now) (StopsAt (BreaksPairs series groups bytes.now)) }
{
    let mut pairs = Vec::new(alloc);
    let mut rest = bytes;
    let mut next = members.first_pair(series);
    while let Some((i, j)) = next {
        let Some((entry, left)) = read_pair(rest, i, j) else {
            return Err(Stop::At(rest));
        };
        pairs.push(Pair {
            first: i,
            second: j,
            entry,
        })?;
        rest = left;
        next = members.pair_after(series, i, j);
    }
    Ok((pairs, rest))
}

/// The version that the first line tells, and what follows that line.
pub(crate) fn after_version(bytes: &[u8]) -> Option<(Version, &[u8])>
    ensures { MatchOption result (LacksVersion bytes.now) (λ p. IsVersionAt p.0 bytes.now p.1.now) }
{
    if let Some(rest) = after_line(bytes, b"ROOMCERT 1") {
        return Some((Version::First, rest));
    }
    let rest = after_line(bytes, b"ROOMCERT 2")?;
    Some((Version::Second, rest))
}

/// The group of the line at the front of the octets, and what follows that line. None where there is no line of a group of so many series. Fails
/// only when out of memory.
pub(crate) fn read_group<'a>(
    alloc: Global,
    bytes: &'a [u8],
    series: u64,
) -> Result<Option<(Group, &'a [u8])>, AllocError>
    ensures { IfOk result (λ found. MatchOption found (LacksGroup series bytes.now) (λ p. IsGroupAt series (group_said p.0) bytes.now p.1.now)) }
{
    let Some(rest) = after(bytes, b"GROUP ") else {
        return Ok(None);
    };
    let Some((words, rest)) = cut_line(rest) else {
        return Ok(None);
    };
    match group_of(alloc, words, series)? {
        Some(group) => Ok(Some((group, rest))),
        None => Ok(None),
    }
}

/// The group of so many series that has these words. Fails only when out of memory.
fn group_of(alloc: Global, words: &[u8], series: u64) -> Result<Option<Group>, AllocError>
    ensures { IfOk result (λ found. MatchOption found (IsNoGroup series words.now) (λ group. IsGroupOfWords series words.now (group_said group))) }
{
    let Some((stamp, rest)) = words.split_at_checked(16) else {
        return Ok(None);
    };
    let Some(from) = stamp_of(stamp) else {
        return Ok(None);
    };
    let Some(mut numbers) = numbers_of(alloc, rest)? else {
        return Ok(None);
    };
    if numbers.len() < DAYS_AND_TWO {
        return Ok(None);
    }
    let days = numbers.remove(0);
    if !are_members(&numbers, series) {
        return Ok(None);
    }
    Ok(Some(Group {
        from,
        days,
        members: numbers,
    }))
}

/// The numbers that a text spells, each after a space. Fails only when out of memory.
fn numbers_of(alloc: Global, text: &[u8]) -> Result<Option<Vec<u64>>, AllocError>
    ensures { IfOk result (λ found. MatchOption found (AreNoNumbers text.now) (λ numbers. AreNumbers numbers.items text.now)) }
{
    let mut numbers = Vec::new(alloc);
    let mut rest = text;
    while !rest.is_empty() {
        let Some((number, left)) = next_number(rest) else {
            return Ok(None);
        };
        numbers.push(number)?;
        rest = left;
    }
    Ok(Some(numbers))
}

/// The number after the space at the front of a text, and what follows it.
fn next_number(text: &[u8]) -> Option<(u64, &[u8])>
    ensures { MatchOption result (LacksNumber text.now) (λ p. IsNumberAt p.0 text.now p.1.now) }
{
    let digits = after(text, b" ")?;
    let (word, rest) = cut_word(digits);
    let number = number_of(word)?;
    Some((number, rest))
}

/// What comes before the first space, and the rest from that on.
fn cut_word(text: &[u8]) -> (&[u8], &[u8])
    ensures { IsCutAtSpace text.now result.0.now result.1.now }
{
    match first_space(text) {
        Some(end) => text.split_at(end),
        None => (text, &[]),
    }
}

/// Where the first space is.
fn first_space(text: &[u8]) -> Option<usize>
    ensures { result ≡ position (λ octet. octet == 32) text.now }
{
    text.iter().position(|octet| *octet == b' ')
}

/// Are they numbers of so many series, ascending?
fn are_members(numbers: &[u64], series: u64) -> bool
    ensures { result ≡ ascend series 0 numbers.now }
{
    let mut last = 0;
    for number in numbers {
        if *number <= last || series < *number {
            return false;
        }
        last = *number;
    }
    true
}

/// The entry of a pair, if the text begins with the pair's line, and what follows that.
pub(crate) fn read_pair<'a>(bytes: &'a [u8], i: u64, j: u64) -> Option<(Entry, &'a [u8])>
    ensures { MatchOption result (LacksPair i j bytes.now) (λ p. IsPairAt i j (entry_said p.0) bytes.now p.1.now) }
{
    let rest = after_names(bytes, i, j)?;
    let (words, rest) = cut_line(rest)?;
    let entry = entry_of(words)?;
    Some((entry, rest))
}

/// What follows the names of a pair, before its entry.
fn after_names(bytes: &[u8], i: u64, j: u64) -> Option<&[u8]>
    ensures { MatchOption result (Lacks (pair_names i j) bytes.now) (λ rest. bytes.now ≡ pair_names i j ++ rest.now) }
{
    let rest = after(bytes, b"PAIR ")?;
    let rest = after_number(rest, i, b" ")?;
    after_number(rest, j, b" ")
}

/// The entry of these words.
fn entry_of(words: &[u8]) -> Option<Entry>
    ensures { MatchOption result (IsNoEntry words.now) (λ entry. IsEntry (entry_said entry) × IsEntryText (entry_said entry) words.now) }
{
    if words == b"END".as_slice() {
        return Some(Entry::End);
    }
    let Some(digits) = after(words, b"RES ") else {
        return span_of(words);
    };
    let modulus = number_of(digits)?;
    Some(Entry::Res(modulus))
}

/// The entry of the words of a SPAN.
fn span_of(words: &[u8]) -> Option<Entry>
    ensures { MatchOption result (IsNoSpan words.now) (λ entry. IsEntry (entry_said entry) × IsEntryText (entry_said entry) words.now) }
{
    let rest = after(words, b"SPAN ")?;
    let (stamp, rest) = rest.split_at_checked(16)?;
    let from = stamp_of(stamp)?;
    let digits = after(rest, b" ")?;
    let days = number_of(digits)?;
    Some(span(from, days))
}

/// The entry of a span.
fn span(from: Stamp, days: u64) -> Entry
    ensures value { entry_said result ≡ Span from days }
    ensures entry { IsEntry (entry_said result) }
{
    // Only for the proof: a stamp has a range.
    let _ = from.instant();
    Entry::Span { from, days }
}

/// The stamp that is written so.
fn stamp_of(octets: &[u8]) -> Option<Stamp>
    ensures { MatchOption result (IsNoWrittenStamp octets.now) (WritesStamp octets.now) }
{
    let text = str::from_utf8(octets).ok()?;
    let stamp = Stamp::read(text).ok()?;
    // second 60 is read as 59, and isn't written
    if has_second_60(octets) {
        None
    } else {
        Some(stamp)
    }
}

/// Do the seconds of a stamp begin with 6?
fn has_second_60(octets: &[u8]) -> bool
    ensures { result ≡ (slice_index_or octets.now 13 0 == 54) }
{
    match octets.get(13) {
        Some(digit) => *digit == b'6',
        None => false,
    }
}

/// What follows a number and these octets, if the text begins with them.
fn after_number<'a>(bytes: &'a [u8], number: u64, tail: &[u8]) -> Option<&'a [u8]>
    ensures { MatchOption result (Lacks (decimal number ++ tail.now) bytes.now) (λ rest. bytes.now ≡ (decimal number ++ tail.now) ++ rest.now) }
{
    let mut buffer = Buffer::new();
    let rest = after(bytes, buffer.format(number).as_bytes())?;
    after(rest, tail)
}

/// The number of the line at which the rest of a text begins.
pub(crate) fn line_of(bytes: &[u8], rest: &[u8]) -> u64
    ensures { result ≡ suc (count_by (λ octet. octet == 10) (take (length bytes.now - length rest.now) bytes.now)) }
{
    let mut line = 1;
    for octet in &bytes[..bytes.len().saturating_sub(rest.len())] {
        if *octet == b'\n' {
            line += 1;
        }
    }
    line
}

/// What follows these octets, if the text begins with them.
fn after<'a>(bytes: &'a [u8], front: &[u8]) -> Option<&'a [u8]>
    ensures { MatchOption result (Lacks front.now bytes.now) (λ rest. bytes.now ≡ front.now ++ rest.now) }
{
    bytes.strip_prefix(front)
}

/// What follows the line, if the text begins with it and its LF.
pub(crate) fn after_line<'a>(bytes: &'a [u8], line: &[u8]) -> Option<&'a [u8]>
    ensures { MatchOption result (LacksLine line.now bytes.now) (λ rest. bytes.now ≡ line.now ++ 10 ∷ rest.now) }
{
    let rest = after(bytes, line)?;
    after(rest, b"\n")
}

/// The number of a line of a word and a number, and what follows the line.
pub(crate) fn after_count<'a>(bytes: &'a [u8], word: &[u8]) -> Option<(u64, &'a [u8])>
    ensures { MatchOption result (LacksCount word.now bytes.now)
        (λ p. (p.0 < 2 ^ 64) × (bytes.now ≡ (word.now ++ decimal p.0) ++ 10 ∷ p.1.now)) }
{
    let rest = after(bytes, word)?;
    let (digits, rest) = cut_line(rest)?;
    let number = number_of(digits)?;
    Some((number, rest))
}

/// The first line without its LF, and what follows it.
fn cut_line(bytes: &[u8]) -> Option<(&[u8], &[u8])>
    ensures { MatchOption result (LacksLf bytes.now) (λ p. IsCutAtLf bytes.now p.0.now p.1.now) }
{
    let end = line_end(bytes)?;
    Some((&bytes[..end], &bytes[end + 1..]))
}

/// Where the first LF is.
fn line_end(bytes: &[u8]) -> Option<usize>
    ensures { result ≡ position (λ octet. octet == 10) bytes.now }
{
    bytes.iter().position(|octet| *octet == b'\n')
}

/// The number that the digits spell in decimal without leading zeros.
fn number_of(digits: &[u8]) -> Option<u64>
    ensures { MatchOption result (IsNoNumber digits.now) (λ n. (n < 2 ^ 64) × (digits.now ≡ decimal n)) }
{
    let text = str::from_utf8(digits).ok()?;
    let number = text.parse::<u64>().ok()?;
    let mut buffer = Buffer::new();
    if buffer.format(number).as_bytes() == digits {
        Some(number)
    } else {
        None
    }
}
