//! What a room answers to a message.

ghost use Rattle.std.specs.Prelude.{◌≡◌, false, None};

use clash_cert::Clash;

/// Which limit of a room a request would pass.
#[derive(Clone, Copy, PartialEq, Eq)]
pub enum LimitKind {
    /// More than 64 confirmed series.
    Series,
    /// More than 10,000 confirmed single instances.
    Singles,
}

/// What became of a message.
#[derive(Drop)]
pub enum Kind {
    /// Its fresh parts are confirmed.
    Accepted,
    /// Its fresh parts are declined: these two instances share an instant.
    Declined(Clash),
    /// Its fresh parts are declined: the room would pass a limit.
    Limit(LimitKind),
    /// It has fresh parts, and none of them is to take place: they cancel something, or aren't for this room.
    Cancelled,
    /// None of its parts is fresh, and one is known already.
    Repeated,
    /// All its parts are older than what is known.
    Stale,
    /// It has no part for this room.
    NotAddressed,
}

/// A room's answer: what became of the message, and the objects that it sends, as octets.
#[derive(Drop)]
pub struct Answer {
    pub kind: Kind,
    /// The REPLY, None where there is nothing to reply.
    pub reply: Option<Vec<u8>>,
    /// The REFRESH that asks for a meeting (RFC 5546 3.2.6); None unless an ADD brought something new of one of which nothing of the whole was
    /// ever taken.
    pub refresh: Option<Vec<u8>>,
    /// Whether nothing was decided, and an instance that was confirmed isn't any more.
    pub frees: bool,
}

impl Answer {
    ghost use Rattle.room_books.specs.Taking.{refresh_octets, reply_octets};

    /// An answer that sends nothing, and frees nothing.
    pub fn silent(kind: Kind) -> Answer
        ensures kind { result.kind ≡ kind }
        ensures reply { reply_octets result ≡ None }
        ensures refresh { refresh_octets result ≡ None }
        ensures frees { result.frees ≡ false }
    {
        Answer {
            kind,
            reply: None,
            refresh: None,
            frees: false,
        }
    }
}
