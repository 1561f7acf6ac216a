//! The SEQUENCE of what is sent (RFC 6638 3.2.8).

ghost use Rattle.std.specs.Prelude.{◌≡◌, ◌<◌, ◌≤◌, option_copied, IfSome, IfNone};
ghost use Rattle.profile.specs.organisers.Organisers.{most_sequence};
ghost use Rattle.organiser_books.specs.Storing.{own_in, sequence_then};

use crate::meeting::StoredMeeting;
use ical_values::Sequence;
use itip_messages::MessageComponent;

/// The components' own SEQUENCE at first, later greater than that of the last store (RFC 5546 2.1.4); None where none is left.
pub(crate) fn sequence_after(
    last: Option<&StoredMeeting>,
    components: &[MessageComponent],
) -> Option<Sequence>
    ensures is { IfSome result (λ sequence. sequence ≡ sequence_then (option_copied last.entry) components.now) }
    ensures fits { IfSome result (λ sequence. sequence ≤ most_sequence) }
    ensures none { IfNone result (most_sequence < sequence_then (option_copied last.entry) components.now) }
{
    let own = own_sequence(components);
    let Some(last) = last else {
        return Sequence::of_number(own);
    };
    let next = last.revision.sequence.number() + 1;
    Sequence::of_number(own.max(next))
}

/// The greatest SEQUENCE of these components, as a number.
fn own_sequence(components: &[MessageComponent]) -> u32
    ensures { result ≡ own_in components.now }
{
    let mut greatest: u32 = 0;
    for component in components {
        greatest = greatest.max(component.revision().sequence.number());
    }
    greatest
}
