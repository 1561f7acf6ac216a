//! The text of a certificate: lines ended by LF, `ROOMCERT 1` or `ROOMCERT 2`, `SINGLES k`, `SERIES n`; in version 2 any number of lines
//! `GROUP from days i1 i2 ..` of at least two series each, ascending, which share none and come by their first ones; for all 1 <= i <= j <= n that
//! aren't both in one group, by i and then by j, a line `PAIR i j END`, `PAIR i j SPAN from days` or `PAIR i j RES m`; and `DONE`, with nothing
//! after. Numbers are decimal, of 64 bits, without leading zeros; an instant is `YYYYMMDDTHHMMSSZ` with seconds up to 59.
ghost use Rattle.std.specs.Prelude.{ℕ, List, ◌≡◌, ◌↔◌, ◌<◌, AllPairs, Contains, map, is_some, IfOk, IfErr, IsTrue, OnOk, OnErr};
ghost use Rattle.profile.specs.checker.Certificates.{Claims, IsClaims, IsEntry, IsEntryOf, IsPair, FirstWrong, SpellsCertificate, groups_of};
ghost use Rattle.ical_values.specs.Written.{Appends};
ghost use Rattle.clash_cert.specs.Texts.{IsCertFault, ArePairsSorted, IsEntryAmong, entry_said, group_said, pair_said, claims_of_text};
ghost use Rattle.clash_cert.specs.Walked.{is_pair_before};
ghost use Rattle.clash_cert.specs.Chosen.{IsSaidOf};

use crate::groups::Group;
use crate::reading::{Stop, after_count, after_version, line_of, read_statements};
use crate::writing::write_text;
use ical_values::Stamp;
use std::alloc::{AllocError, Global};
use std::marker::Model;
use thiserror::Error;

/// Why octets can't be read as a certificate.
#[derive(Clone, Copy, Debug, PartialEq, Eq, Drop, Error)]
pub enum CertFault {
    /// The first wrong or missing line, counted from 1. What follows `DONE` is the next line.
    #[error("line {0} of the certificate is wrong or missing")]
    Line(u64),
    /// The memory that was asked for was refused.
    #[error("out of memory")]
    Memory,
}

/// What a certificate says of two series, or of one by itself.
#[derive(Clone, Copy, PartialEq, Eq)]
pub enum Entry {
    /// No two of their instances share an instant before the horizon.
    End,
    /// From an instant on both do the same after so many days, and no two of their instances share an instant up to the end of that period
    /// and the greater width after it.
    Span { from: Stamp, days: u64 },
    /// Arcs of their residues modulo so many seconds don't meet, so no two of their instances ever share an instant. Which numbers these may be,
    /// the checker judges.
    Res(u64),
    /// Both are in the group of this number, counted from 1: no line is about the two alone.
    Group(u64),
}

/// The entry of two series, or of one with itself, by their numbers in the calendar, counted from 1. It is no `Group`.
#[derive(Clone, Copy)]
pub struct Pair {
    pub first: u64,
    pub second: u64,
    pub entry: Entry,
}

/// What a certificate says: how many singles and how many series its calendar has, its groups of series, and an entry for each pair of series
/// that aren't both in one group.
#[derive(Drop)]
pub struct Certificate {
    singles: u64,
    series: u64,
    // none in version 1
    groups: Option<Vec<Group>>,
    // by the first series, and then by the second
    pairs: Vec<Pair>,
}

impl Model for Certificate {
    ghost use Rattle.profile.specs.checker.Certificates.{Claims, IsClaims};
    ghost use Rattle.clash_cert.specs.Texts.{claims_of_text};

    ghost Value = { Claims };

    ghost view = { λ c. claims_of_text c.singles c.series c.groups c.pairs.items };

    ghost invariant = { λ c. IsClaims (claims_of_text c.singles c.series c.groups c.pairs.items) };
}

impl Certificate {
    /// The certificate of that many singles and series, with these groups and these entries.
    pub(crate) fn of(
        singles: u64,
        series: u64,
        groups: Option<Vec<Group>>,
        pairs: Vec<Pair>,
    ) -> Certificate
        requires { IsClaims (claims_of_text singles series groups pairs.items) }
        ensures { result ≡ claims_of_text singles series groups pairs.items }
    {
        Certificate {
            singles,
            series,
            groups,
            pairs,
        }
    }

    /// The certificate that the octets spell; else the number of the first wrong or missing line. It takes the time of the lines up to that,
    /// and memory for the numbers of groups and for the entries read.
    pub fn read(alloc: Global, bytes: &[u8]) -> Result<Certificate, CertFault>
        ensures found { IfOk result (λ c. SpellsCertificate bytes.now c) }
        ensures only { IfOk result (λ c. (d : Claims) → SpellsCertificate bytes.now d → d ≡ c) }
        ensures fault { IfErr result (IsCertFault bytes.now) }
    {
        let Some((version, rest)) = after_version(bytes) else {
            return Err(CertFault::Line(1));
        };
        let Some((singles, rest)) = after_count(rest, b"SINGLES ") else {
            return Err(CertFault::Line(2));
        };
        let Some((series, rest)) = after_count(rest, b"SERIES ") else {
            return Err(CertFault::Line(3));
        };
        ical_values::stamp::one_stamp();
        one_certificate();
        match read_statements(alloc, rest, version, series) {
            Ok((groups, pairs)) => Ok(Certificate {
                singles,
                series,
                groups,
                pairs,
            }),
            Err(Stop::At(rest)) => Err(CertFault::Line(line_of(bytes, rest))),
            Err(Stop::Memory) => Err(CertFault::Memory),
        }
    }

    /// Appends the certificate's text. Fails only when out of memory, and then `out` is unchanged.
    pub fn write(&self, out: &mut Vec<u8>) -> Result<(), AllocError>
        ensures ok { OnOk result (Appends out.old.items out.new.items (λ text. SpellsCertificate text self.now)) }
        ensures err { OnErr result (out.new.items ≡ out.old.items) }
    {
        let before = out.len();
        let written = write_text(out, self.singles, self.series, &self.groups, &self.pairs);
        if written.is_err() {
            out.truncate(before);
        }
        written
    }

    /// How many singles it says there are.
    pub fn singles(&self) -> u64
        ensures { result ≡ self.now.singles }
    {
        self.singles
    }

    /// How many series it says there are.
    pub fn series(&self) -> u64
        ensures { result ≡ self.now.series }
    {
        self.series
    }

    /// Is it of version 2, which has groups, though there may be none?
    pub(crate) fn has_groups(&self) -> bool
        ensures { result ≡ is_some self.now.groups }
    {
        self.groups.is_some()
    }

    /// What it says is what a certificate may say: a law, as others see its value alone.
    pub(crate) fn says_claims(&self)
        ensures { IsClaims self.now }
    {
        let _ = &self.series;
    }

    /// Its groups of series, by their first ones. Version 1 has none.
    pub fn groups(&self) -> &[Group]
        ensures { map group_said result.now ≡ groups_of self.now }
    {
        match &self.groups {
            Some(groups) => groups.as_slice(),
            None => &[],
        }
    }

    /// The entries of the pairs of series that aren't both in one group, by the first series and then by the second.
    pub fn pairs(&self) -> &[Pair]
        ensures { map pair_said result.now ≡ self.now.pairs }
    {
        &self.pairs
    }

    /// What it says of a pair of its series, counted from 1, the one that comes first in the calendar first, or of one with itself. Of other numbers it
    /// says nothing of meaning.
    pub fn entry(&self, i: u64, j: u64) -> Entry
        ensures { IsPair self.now.series i j → IsEntryOf self.now i j (entry_said result) }
    {
        let pairs = self.pairs.as_slice();
        for (place, group) in self.groups().iter().enumerate() {
            if has_both(group, i, j) {
                return Entry::Group(place as u64 + 1);
            }
        }
        entry_at(pairs, i, j)
    }

    /// What it says of two of its series, the one that comes first in the calendar first or second, where it has no groups.
    pub(crate) fn between(&self, first: u64, second: u64) -> Entry
        ensures good { IsEntry (entry_said result) }
        ensures said { IsSaidOf self.now first second (entry_said result) }
    {
        if first <= second {
            entry_at(&self.pairs, first, second)
        } else {
            entry_at(&self.pairs, second, first)
        }
    }
}

/// Are both series of one group?
fn has_both(group: &Group, i: u64, j: u64) -> bool
    ensures { AllPairs ◌<◌ (group_said group.now).members → IsTrue result ↔ (Contains (group_said group.now).members i × Contains (group_said group.now).members j) }
{
    group.has(i) && group.has(j)
}

/// The entry of two series, END where they have none.
fn entry_at(pairs: &[Pair], first: u64, second: u64) -> Entry
    requires { ArePairsSorted (map pair_said pairs.now) }
    ensures { IsEntryAmong (map pair_said pairs.now) first second (entry_said result) }
{
    let place = pairs.partition_point(|pair| comes_before(pair, first, second));
    let Some(pair) = pairs.get(place) else {
        return Entry::End;
    };
    if is_of(pair, first, second) {
        pair.entry
    } else {
        Entry::End
    }
}

/// Does a pair come before these two series?
fn comes_before(pair: &Pair, first: u64, second: u64) -> bool
    ensures { result ≡ is_pair_before pair.now.first pair.now.second first second }
{
    pair.first < first || (pair.first == first && pair.second < second)
}

/// Is it the pair of these two series?
fn is_of(pair: &Pair, first: u64, second: u64) -> bool
    ensures { IsTrue result ↔ ((pair.now.first ≡ first) × (pair.now.second ≡ second)) }
{
    pair.first == first && pair.second == second
}

/// A text spells at most one certificate, and a certificate has one text. With the contracts of `read` and `write`: what was written is read as
/// the same certificate.
pub fn one_certificate()
    ensures reading { (text : List ℕ) (c d : Claims) → SpellsCertificate text c → SpellsCertificate text d → d ≡ c }
    ensures form { (x y : List ℕ) (c : Claims) → SpellsCertificate x c → SpellsCertificate y c → x ≡ y }
{
    ical_values::stamp::one_stamp();
}

/// A text has one first wrong line at most: the line that a fault names is the only one.
pub fn first_wrong_line_is_one()
    ensures { (text : List ℕ) (m n : ℕ) → FirstWrong text m → FirstWrong text n → m ≡ n }
{}
