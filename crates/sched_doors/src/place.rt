//! Where in its stream a door is.

ghost use Rattle.std.specs.Prelude.{◌≡◌, false};
ghost use Rattle.ical_lines.specs.Cut.{is_whole};
ghost use Rattle.ical_lines.specs.declared.object_end.Seen.TheVariants.{First};

use crate::preamble::LineSoFar;
use ical_lines::Cutter;

/// Where in its stream a door is.
#[derive(Clone, Copy)]
pub(crate) enum Place {
    /// Before the first octet.
    Start,
    /// In the preamble, in a line of it that has this.
    Preamble(LineSoFar),
    /// Between objects: no octet of the next one was read.
    Between,
    /// In an object, or in the empty lines before it. What was read of it is kept, and was handed on as it came: these lines, and its first
    /// octet at most.
    Front(FrontCutter),
    /// In an object that is too long.
    Long(Cutter),
}

/// A cutter that has seen of an object its first octet at most, and the empty lines before it: so the object hasn't ended.
#[derive(Clone, Copy)]
pub(crate) struct FrontCutter {
    pub(crate) cutter: Cutter,
    ghost goes_on: { is_whole cutter.seen ≡ false },
    ghost empty: { cutter.begun ≡ false → cutter.seen ≡ First 0 },
}
