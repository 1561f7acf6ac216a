//! What octets that read as lines hold, what lines that are written read back as (RFC 5545 3.1), and with which line an
//! object of a stream ends.
ghost use Rattle.std.specs.Prelude.{ℕ, Bool, List, ◌≡◌, true, false};
ghost use Rattle.std.specs.List.{flat_map, list_all};
ghost use Rattle.profile.specs.text.Lines.{is_content, folded, logical_lines, reads_as_lines, text_has};
ghost use Rattle.profile.specs.text.Objects.{after_object, EndsBefore};

/// Lines that were written one after another read back as those lines, and nothing is wrong with them (RFC 5545 3.1).
pub fn lines_read_back()
    ensures lines { (lines : List (List ℕ)) → list_all is_content lines ≡ true → logical_lines (flat_map folded lines) ≡ lines }
    ensures reads { (lines : List (List ℕ)) → list_all is_content lines ≡ true → reads_as_lines false (flat_map folded lines) ≡ true }
{}

/// The lines of octets that read as lines are content lines, and the octets have none of the faults 1 to 6.
pub fn read_lines_are_content()
    ensures content { (bounded : Bool) (octets : List ℕ) → reads_as_lines bounded octets ≡ true → list_all is_content (logical_lines octets) ≡ true }
    ensures fine { (bounded : Bool) (octets : List ℕ) (number : ℕ) → reads_as_lines bounded octets ≡ true → text_has bounded number octets ≡ false }
{}

/// The first object of a stream ends with the LF after its first logical line that is caselessly `END:VCALENDAR`, or with
/// the input where no line ends it, and nowhere else; so a cut breaks no line (RFC 5545 3.4; where an object ends is this
/// profile's choice).
pub fn object_ends_with_its_line()
    ensures ends { (octets : List ℕ) → EndsBefore octets (after_object octets) }
    ensures only { (octets rest : List ℕ) → EndsBefore octets rest → rest ≡ after_object octets }
{}
