//! A lenient look at an object: METHOD, UID and ORGANIZER by the first line of each name, whether the object is read or not.

use crate::shown::MOST_SHOWN;
use std::alloc::{AllocError, Global};

/// The values of the first line of each name, each as far as it is shown and one octet more; empty where there is none.
#[derive(Drop)]
pub(crate) struct Header {
    method: Vec<u8>,
    uid: Vec<u8>,
    organizer: Vec<u8>,
    /// Which of them a continuation goes on with.
    begun: Begun,
}

#[derive(Clone, Copy, PartialEq, Eq)]
enum Begun {
    Nothing,
    Method,
    Uid,
    Organizer,
}

impl Header {
    /// That of some octets. Each is looked at once.
    pub(crate) fn of(alloc: Global, octets: &[u8]) -> Result<Header, AllocError> {
        let mut header = Header {
            method: Vec::new(alloc),
            uid: Vec::new(alloc),
            organizer: Vec::new(alloc),
            begun: Begun::Nothing,
        };
        for line in octets.split(|octet| *octet == b'\n') {
            header.look_at(line.strip_suffix(b"\r").unwrap_or(line))?;
        }
        Ok(header)
    }

    pub(crate) fn method(&self) -> &[u8] {
        self.method.as_slice()
    }

    pub(crate) fn uid(&self) -> &[u8] {
        self.uid.as_slice()
    }

    pub(crate) fn organizer(&self) -> &[u8] {
        self.organizer.as_slice()
    }

    /// Looks at a physical line.
    fn look_at(&mut self, line: &[u8]) -> Result<(), AllocError> {
        if let [b' ' | b'\t', more @ ..] = line {
            return self.extend(more);
        }
        self.begun = Begun::Nothing;
        if let Some(value) = value_named(line, b"METHOD") {
            return self.begin(Begun::Method, value);
        }
        if let Some(value) = value_named(line, b"UID") {
            return self.begin(Begun::Uid, value);
        }
        if let Some(value) = value_named(line, b"ORGANIZER") {
            return self.begin(Begun::Organizer, value);
        }
        Ok(())
    }

    /// Begins a value, if it is the first of its name that isn't empty.
    fn begin(&mut self, begun: Begun, value: &[u8]) -> Result<(), AllocError> {
        if self.has(begun) {
            return Ok(());
        }
        self.begun = begun;
        self.extend(value)
    }

    /// Whether a value is known.
    fn has(&self, begun: Begun) -> bool {
        match begun {
            Begun::Nothing => true,
            Begun::Method => !self.method().is_empty(),
            Begun::Uid => !self.uid().is_empty(),
            Begun::Organizer => !self.organizer().is_empty(),
        }
    }

    /// Goes on with the value that has begun.
    fn extend(&mut self, more: &[u8]) -> Result<(), AllocError> {
        match self.begun {
            Begun::Nothing => Ok(()),
            Begun::Method => extend(&mut self.method, more),
            Begun::Uid => extend(&mut self.uid, more),
            Begun::Organizer => extend(&mut self.organizer, more),
        }
    }
}

/// Goes on with a value, as far as it is shown and one octet more.
fn extend(value: &mut Vec<u8>, more: &[u8]) -> Result<(), AllocError> {
    let room = (MOST_SHOWN + 1).saturating_sub(value.len());
    value.extend_from_slice(&more[..more.len().min(room)])
}

/// The value of a line of this name, behind its parameters.
fn value_named<'a>(line: &'a [u8], name: &[u8]) -> Option<&'a [u8]> {
    if line.len() <= name.len() {
        return None;
    }
    let (first, rest) = line.split_at(name.len());
    if !first.eq_ignore_ascii_case(name) {
        return None;
    }
    match rest {
        [b':', value @ ..] => Some(value),
        [b';', params @ ..] => value_behind(params),
        _ => None,
    }
}

/// What stands behind the first colon that isn't in quotes.
fn value_behind(params: &[u8]) -> Option<&[u8]> {
    let mut is_quoted = false;
    for (place, octet) in params.iter().enumerate() {
        if *octet == b'"' {
            is_quoted = !is_quoted;
        }
        if *octet == b':' && !is_quoted {
            return Some(&params[place + 1..]);
        }
    }
    None
}
