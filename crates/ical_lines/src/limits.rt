//! The bounds on one message; this profile's choice.

/// Whether the bounds of a message hold for the octets that are read.
#[derive(Clone, Copy)]
pub enum Limits {
    /// One message: at most 1,048,576 octets, 65,536 lines and 200 VEVENTs.
    Message,
    /// No bounds on octets, lines and VEVENTs, as for a whole calendar.
    Open,
}

/// The most octets that a message has, its line breaks counted.
pub const MAX_OCTETS: usize = 1_048_576;

/// The most logical lines that a message has, empty ones not counted.
pub const MAX_LINES: usize = 65_536;

impl Limits {
    ghost use Rattle.std.specs.Prelude.{◌≡◌, ◌&&◌, nat_lt};
    ghost use Rattle.ical_lines.specs.Limits.{is_bounded};

    /// Whether this many octets are too many.
    pub fn exceeds_octets(self, count: usize) -> bool
        ensures { result ≡ (is_bounded self && nat_lt 1048576 count) }
    {
        match self {
            Limits::Message => count > MAX_OCTETS,
            Limits::Open => false,
        }
    }

    /// Whether this many lines are too many.
    pub fn exceeds_lines(self, count: usize) -> bool
        ensures { result ≡ (is_bounded self && nat_lt 65536 count) }
    {
        match self {
            Limits::Message => count > MAX_LINES,
            Limits::Open => false,
        }
    }
}
