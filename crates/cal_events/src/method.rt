//! What an object asks for, by its METHOD (RFC 5546 1.4), and to whom it goes.
ghost use Rattle.std.specs.Prelude.{◌≡◌, option_map};
ghost use Rattle.profile.specs.events.Messages.{is_of_attendee, is_to_rooms, is_word_of, method_named, method_word};
ghost use Rattle.profile.specs.rooms.Messages.{is_add, is_cancel};
ghost use Rattle.cal_events.specs.Component.{method_said};

/// What an object asks for.
#[derive(Clone, Copy, PartialEq, Eq)]
pub enum Method {
    /// Without METHOD: that its organiser store a meeting (RFC 4791 4.1).
    Store,
    /// That an event take place (RFC 5546 3.2.2).
    Request,
    /// That instances be added to one (RFC 5546 3.2.4).
    Add,
    /// That it be cancelled (RFC 5546 3.2.5).
    Cancel,
    /// That an attendee's answer be noted (RFC 5546 3.2.3).
    Reply,
    /// That a meeting be sent to an attendee once more (RFC 5546 3.2.6).
    Refresh,
}

/// Those that a word names.
const NAMED: [Method; 5] = [
    Method::Request,
    Method::Add,
    Method::Cancel,
    Method::Reply,
    Method::Refresh,
];

impl Method {
    /// The word of METHOD, None of a store.
    pub fn word(self) -> Option<&'static str>
        ensures { option_map (λ word. word.now) result ≡ method_word (method_said self) }
    {
        match self {
            Method::Store => None,
            Method::Request => Some("REQUEST"),
            Method::Add => Some("ADD"),
            Method::Cancel => Some("CANCEL"),
            Method::Reply => Some("REPLY"),
            Method::Refresh => Some("REFRESH"),
        }
    }

    /// The one that a word names, caseless; None where it names none that is taken here.
    pub fn named(word: &str) -> Option<Method>
        ensures { option_map method_said result ≡ method_named word.now }
    {
        for method in NAMED {
            if method.is_word(word) {
                return Some(method);
            }
        }
        None
    }

    /// Whether a word names it.
    fn is_word(self, word: &str) -> bool
        ensures { result ≡ is_word_of word.now (method_said self) }
    {
        match self.word() {
            Some(own) => word.eq_ignore_ascii_case(own),
            None => false,
        }
    }

    /// Whether it is ADD.
    pub fn is_add(self) -> bool
        ensures { result ≡ is_add (method_said self) }
    {
        matches!(self, Method::Add)
    }

    /// Whether it is CANCEL.
    pub fn is_cancel(self) -> bool
        ensures { result ≡ is_cancel (method_said self) }
    {
        matches!(self, Method::Cancel)
    }

    /// Whether an organiser speaks to rooms.
    pub fn is_to_rooms(self) -> bool
        ensures { result ≡ is_to_rooms (method_said self) }
    {
        matches!(self, Method::Request | Method::Add | Method::Cancel)
    }

    /// Whether an attendee speaks to the organiser.
    pub fn is_of_attendee(self) -> bool
        ensures { result ≡ is_of_attendee (method_said self) }
    {
        matches!(self, Method::Reply | Method::Refresh)
    }
}
