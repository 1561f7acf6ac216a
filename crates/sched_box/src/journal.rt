//! What became of each object of a stream, and who is told of it.

ghost use Rattle.std.specs.Prelude.{◌≡◌, ◌≤◌, ◌||◌, ℕ, Bool, List, [], if◌then◌else◌};
ghost use Rattle.profile.specs.streams.Reports.{Fate as SaidFate, CancelsNothing, Taken as SaidTaken, is_change, is_repeat, is_stale, refusals};
ghost use Rattle.room_books.specs.Taking.{kind_view};
ghost use Rattle.sched_box.specs.Journal.{AddsEffect, AreEffects, InRoom, fate_in, fate_said, in_room_said};

use ical_lines::Refusal;
use room_books::Kind;

/// What became of an object.
#[derive(Clone, Copy, Debug, PartialEq, Eq)]
pub enum Fate {
    /// It is refused.
    Refused(Refusal),
    /// No room of the box has a part in it.
    Unreached,
    /// All that it says is older than what the rooms know.
    Stale,
    /// Nothing in it is new, and some of it is what a room knows already.
    Repeated,
    /// It is a CANCEL that a room took, and in each room each instance is still confirmed that was.
    CancelsNothing,
    /// A room decided or cancelled something, or an organiser took it.
    Taken,
}

impl Fate {
    /// How many refusals that is: 0 or 1.
    pub fn refusals(self) -> u64
        ensures value { result ≡ refusals (fate_said self) }
        ensures few { result ≤ 1 }
    {
        match self {
            Fate::Refused(_) => 1,
            Fate::Unreached | Fate::Stale | Fate::Repeated | Fate::CancelsNothing | Fate::Taken =>
                0,
        }
    }
}

/// One who is told of each object what became of it, after its answers are written, and which files of an inbox are left alone. A call can't fail: who keeps what it is told says later
/// whether that went well.
pub trait Journal {
    // One call leads from the value before to the value after: of the file of this name it is told that it is left alone,
    ghost passes: { Self → List ℕ → Self → Type 0 };

    // or whether it is new,
    ghost begins: { Self → List ℕ → Bool → Self → Type 0 };

    // or of the object of this number, which is these octets, what became of it.
    ghost tells: { Self → ℕ → List ℕ → SaidFate → Self → Type 0 };

    /// The file of this name is left alone: it ends as a message's does, in upper or lower case, and is none.
    fn pass_over(&mut self, name: &str)
        ensures { Self.passes self.old name.now self.new };

    /// The objects of the file of this name come next, counted from 1: those of one that wasn't answered before, or of one that was.
    fn begin(&mut self, name: &str, is_new: bool)
        ensures { Self.begins self.old name.now is_new self.new };

    /// What became of the object of this number, which is these octets: its first 1,048,577 at most.
    fn tell(&mut self, number: u64, octets: &[u8], fate: Fate)
        ensures { Self.tells self.old number octets.now (fate_said fate) self.new };
}

/// Nobody is told.
#[derive(Drop)]
pub struct Nobody;

impl Journal for Nobody {
    ghost passes = { λ _ _ _. Unit {0} };

    ghost begins = { λ _ _ _ _. Unit {0} };

    ghost tells = { λ _ _ _ _ _. Unit {0} };

    fn pass_over(&mut self, _name: &str) {}

    fn begin(&mut self, _name: &str, _is_new: bool) {}

    fn tell(&mut self, _number: u64, _octets: &[u8], _fate: Fate) {}
}

/// What became of a message in one room.
#[derive(Drop)]
pub(crate) struct Became {
    pub kind: Kind,
    /// Whether nothing was decided, and an instance that was confirmed isn't any more.
    pub frees: bool,
}

/// What became of a message in some rooms.
#[derive(Clone, Copy)]
pub(crate) struct Effects {
    /// One of them has decided or cancelled something.
    changed: bool,
    /// One knows some of it already, and nothing in it is new there.
    repeated: bool,
    /// To one all of it is older than what that knows.
    stale: bool,
    /// One decided nothing, and an instance that it had confirmed isn't any more.
    frees: bool,
}

impl Effects {
    ghost use Rattle.std.specs.Prelude.{◌≡◌, List, []};
    ghost use Rattle.sched_box.specs.Journal.{AddsEffect, AreEffects, InRoom, fate_in, fate_said, in_room_said};

    /// Those in no room.
    pub(crate) fn none() -> Effects
        ensures { AreEffects [] result }
    {
        Effects {
            changed: false,
            repeated: false,
            stale: false,
            frees: false,
        }
    }

    /// Those in one room more, where this became of it.
    pub(crate) fn with(self, became: &Became) -> Effects
        ensures { AddsEffect self (in_room_said became.now) result }
    {
        let changed = either(self.changed, is_change(&became.kind));
        let repeated = either(self.repeated, is_repeat(&became.kind));
        let stale = either(self.stale, is_stale(&became.kind));
        let frees = either(self.frees, became.frees);
        Effects {
            changed,
            repeated,
            stale,
            frees,
        }
    }

    /// What became of the message, which is a CANCEL or none.
    pub(crate) fn fate(self, is_cancel: bool) -> Fate
        ensures { (all : List InRoom) → AreEffects all self → fate_said result ≡ fate_in is_cancel all }
    {
        if self.changed {
            return taken(is_cancel && !self.frees);
        }
        if self.repeated {
            return Fate::Repeated;
        }
        if self.stale {
            return Fate::Stale;
        }
        Fate::Unreached
    }
}

/// What became of a message that a room took.
fn taken(cancels_nothing: bool) -> Fate
    ensures { fate_said result ≡ (if cancels_nothing then CancelsNothing else SaidTaken) }
{
    if cancels_nothing {
        return Fate::CancelsNothing;
    }
    Fate::Taken
}

fn either(a: bool, b: bool) -> bool
    ensures { result ≡ (a || b) }
{
    a || b
}

/// Whether a room has decided or cancelled something.
fn is_change(kind: &Kind) -> bool
    ensures { result ≡ is_change (kind_view kind.now) }
{
    match kind {
        Kind::Accepted | Kind::Declined(_) | Kind::Limit(_) | Kind::Cancelled => true,
        Kind::Repeated | Kind::Stale | Kind::NotAddressed => false,
    }
}

/// Whether a room knows some of the message already, and nothing in it is new there.
fn is_repeat(kind: &Kind) -> bool
    ensures { result ≡ is_repeat (kind_view kind.now) }
{
    match kind {
        Kind::Repeated => true,
        Kind::Accepted
        | Kind::Declined(_)
        | Kind::Limit(_)
        | Kind::Cancelled
        | Kind::Stale
        | Kind::NotAddressed => false,
    }
}

/// Whether all of the message is older than what a room knows.
fn is_stale(kind: &Kind) -> bool
    ensures { result ≡ is_stale (kind_view kind.now) }
{
    match kind {
        Kind::Stale => true,
        Kind::Accepted
        | Kind::Declined(_)
        | Kind::Limit(_)
        | Kind::Cancelled
        | Kind::Repeated
        | Kind::NotAddressed => false,
    }
}
