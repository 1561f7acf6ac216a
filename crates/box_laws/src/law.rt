//! One box, or several that share its rooms and organisers.

ghost use Rattle.profile.specs.streams.Divisions.{AreOneByOne, FilesAreOneByOne, NewBoxesAreOne, SeveralActAsOne};
ghost use Rattle.box_laws.specs.Inboxes.{InboxesActAsOne};

use itip_messages::one_message;

/// Whatever several boxes, each with a part of the rooms and organisers, do with the same objects, one box with all of them may do together, for
/// every division and from whatever they keep: each room and each organiser keeps the same book, and each object is answered as the several do. A
/// message to rooms with what all rooms write, in another order; what comes to an organiser as by the box that hosts it, while each other one writes
/// 70; and what all refuse with one such line, once (RFC 5546 3.2). Which number of several, and which clash is named, stays free.
pub fn several_act_as_one()
    // What a stream or the files of an inbox are answered with is the answers to each object, one behind the other.
    ensures answers { AreOneByOne }
    ensures files { FilesAreOneByOne }
    // A division: boxes that have taken nothing keep what one box keeps that hosts all.
    ensures new_boxes { NewBoxesAreOne }
    ensures one { SeveralActAsOne }
    // Boxes of folders, from nothing: what their outboxes have for the files of an inbox, the outbox of the one may have, joined object by object.
    ensures inboxes { InboxesActAsOne }
{
    one_message();
}
