//! A box of folders: messages come as files of an inbox, and each of them is answered by a file of an outbox.

ghost use Rattle.std.specs.Prelude.{◌≡◌, ◌⊎◌, ◌↔◌, ◌≤◌, ◌+◌, ◌∷◌, [], ℕ, List, true, map, take, drop, length, None, Some, IsNone, Contains, IfOk, IfErr, OnOk, OnErr, IsErrOf, IsTrue, string_bytes};
ghost use Rattle.profile.specs.streams.Folders.{AreMessageFiles, AreNames, AreNamesSynced, Elapses, File, Image, IsMessageFile, LosesNamesAlone};
ghost use Rattle.sched_devices.specs.Folder.{HasCause, IsKept, StaysAsOpen};
ghost use Rattle.sched_devices.specs.declared.folder.FolderFault.TheVariants as folder;
ghost use Rattle.sched_box.specs.Boxes.{Compares, HasRisen, IsNoDifference, Runs};
ghost use Rattle.sched_box.specs.Config.{config_hosts};
ghost use Rattle.sched_box.specs.Running.{AnswersMessage, AnswersOctets, AreApart, AreMessagesOf, AreNamedApart, AreRising, GoesOn, HasBroken, HasCompared, HasFound, HasPublished, HasPublishedSome, Holds, IsGained, IsLast, IsStanding, IsWhole, LeavesHeld, MayGain, NoneAmong, RunsOver, answers_name, box_fault, file_in, file_of};
ghost use Rattle.sched_box.specs.Telling.{AllPassed, FilesTold, IsPassed, PassesOver, TellsFolder, TellsOctets};
ghost use Rattle.sched_box.specs.declared.folders.BoxFault.TheVariants.{Device, Differs, Memory};

use crate::books::Books;
use crate::config::Config;
use crate::fault::ServeFault;
use crate::file_names::{MessageName, is_left_alone};
use crate::journal::{Journal, Nobody};
use crate::objects::MOST_OCTETS;
use crate::serving::serve_objects;
use ical_values::Stamp;
use sched_devices::{Folder, FolderFault};
use std::alloc::{AllocError, AllocFailed, Global};
use thiserror::Error;

/// One octet more than a file may have: a stream of as many as may be read is too long.
const MOST_OF_FILE: u64 = MOST_OCTETS + 1;

/// How many files of the inbox were answered, and how many answers were published.
#[derive(Clone, Copy, Debug, PartialEq, Eq)]
pub struct BoxReport {
    pub files: u64,
    pub written: u64,
}

/// Why a run of the box ended before its end.
#[derive(Debug, PartialEq, Eq, Drop, Error)]
pub enum BoxFault {
    /// A folder failed.
    #[error("a folder can't be used")]
    Device,
    /// The file of this name in the outbox isn't the answer to its message.
    #[error("{0} differs from the answer to its message")]
    Differs(String),
    /// Out of memory.
    #[error("out of memory")]
    Memory,
}

impl From<FolderFault> for BoxFault {
    ghost from_gives = { λ fault e. e ≡ box_fault fault };

    // Missing and Exists don't come: a name that was listed is there, and one that wasn't isn't.
    fn from(fault: FolderFault) -> BoxFault {
        match fault {
            FolderFault::Memory => BoxFault::Memory,
            FolderFault::Device | FolderFault::Missing | FolderFault::Exists => BoxFault::Device,
        }
    }
}

impl From<AllocError> for BoxFault {
    ghost from_gives = { λ _ e. e ≡ Memory };

    fn from(_error: AllocError) -> BoxFault {
        BoxFault::Memory
    }
}

impl<T: Drop> From<AllocFailed<T>> for BoxFault {
    ghost from_gives = { λ _ e. e ≡ Memory };

    fn from(_error: AllocFailed<T>) -> BoxFault {
        BoxFault::Memory
    }
}

/// The names of a folder, each once, in the order of their octets.
fn sorted_names<F: Folder>(alloc: Global, place: &mut F) -> Result<Vec<String>, FolderFault>
    ensures names { IfOk result (λ names. F.is_known place.old ≡ true → AreNames (F.image place.old) (map string_bytes names.items)) }
    ensures rising { IfOk result (λ names. AreRising (map string_bytes names.items)) }
    ensures kept { IsKept F.is_known F.image F.temporary F.may_leave place.old place.new }
    ensures still { StaysAsOpen F.may_leave place.old place.new }
    ensures time { Elapses (F.moment place.old) (F.moment place.new) (F.left_since place.old) (F.left_since place.new) (F.may_leave place.new) }
    ensures not_missing { IsErrOf result folder.Missing → ⊥ }
    ensures not_existing { IsErrOf result folder.Exists → ⊥ }
    ensures cause { HasCause (F.failed place.old) (F.failed place.new) (IsErrOf result folder.Device) }
{
    let mut names = place.names(alloc)?;
    put_in_order(&mut names);
    Ok(names)
}

/// Syncs a folder: what an earlier run published in it may not be on the disk yet.
fn sync_names<F: Folder>(place: &mut F) -> Result<(), FolderFault>
    ensures synced { OnOk result (AreNamesSynced (F.image place.old) (F.may_leave place.old) (F.may_leave place.new)) }
    ensures kept { IsKept F.is_known F.image F.temporary F.may_leave place.old place.new }
    ensures time { Elapses (F.moment place.old) (F.moment place.new) (F.left_since place.old) (F.left_since place.new) (F.may_leave place.new) }
    ensures not_missing { IsErrOf result folder.Missing → ⊥ }
    ensures not_existing { IsErrOf result folder.Exists → ⊥ }
    ensures cause { HasCause (F.failed place.old) (F.failed place.new) (IsErrOf result folder.Device) }
{
    place.sync_dir()
}

/// Puts names in the order of their octets, each once: a folder that isn't known may list one twice.
fn put_in_order(names: &mut Vec<String>)
    ensures same { (name : List ℕ) → Contains (map string_bytes names.old.items) name ↔ Contains (map string_bytes names.new.items) name }
    ensures rising { AreRising (map string_bytes names.new.items) }
{
    names.sort_unstable();
    names.dedup();
}

/// Whether a name is among others, which are in order.
fn is_among(names: &[String], name: &str) -> bool
    requires { AreRising (map string_bytes names.now) }
    ensures { IsTrue result ↔ Contains (map string_bytes names.now) name.now }
{
    names
        .binary_search_by(|other| other.as_str().cmp(name))
        .is_ok()
}

/// The messages of the inbox, in the order of the octets of their names. Files of other names are left alone, and told where they end as
/// messages do.
fn message_files<I: Folder, J: Journal>(
    alloc: Global,
    inbox: &mut I,
    journal: &mut J,
) -> Result<Vec<MessageName>, FolderFault>
    ensures passes { OnOk result (I.is_known inbox.old ≡ true → PassesOver J.passes (I.image inbox.old) journal.old journal.new) }
    ensures messages { IfOk result (λ files. I.is_known inbox.old ≡ true → AreMessageFiles (I.image inbox.old) (map (file_of (I.image inbox.old)) files.items)) }
    ensures apart { IfOk result (λ files. AreApart files.items) }
    ensures kept { IsKept I.is_known I.image I.temporary I.may_leave inbox.old inbox.new }
    ensures still { StaysAsOpen I.may_leave inbox.old inbox.new }
    ensures not_missing { IsErrOf result folder.Missing → ⊥ }
    ensures not_existing { IsErrOf result folder.Exists → ⊥ }
    ensures cause { HasCause (I.failed inbox.old) (I.failed inbox.new) (IsErrOf result folder.Device) }
{
    let names = sorted_names(alloc, inbox)?;
    tell_left_alone(&names, journal);
    let files = messages_among(alloc, names)?;
    Ok(files)
}

/// Tells which of these names are left alone though they end as those of messages do, in their order.
fn tell_left_alone<J: Journal>(names: &[String], journal: &mut J)
    ensures { AllPassed J.passes journal.old (map string_bytes names.now) journal.new }
{
    for name in names {
        tell_if_left_alone(name.as_str(), journal);
    }
}

fn tell_if_left_alone<J: Journal>(name: &str, journal: &mut J)
    ensures { IsPassed J.passes journal.old name.now journal.new }
{
    if !is_left_alone(name) {
        return;
    }
    journal.pass_over(name);
}

/// Those of these names that are messages', in their order.
fn messages_among(alloc: Global, names: Vec<String>) -> Result<Vec<MessageName>, AllocError>
    ensures messages { IfOk result (λ files. (image : Image) → AreRising (map string_bytes names.items) → AreNames image (map string_bytes names.items) → AreMessageFiles image (map (file_of image) files.items)) }
    ensures apart { IfOk result (λ files. AreRising (map string_bytes names.items) → AreApart files.items) }
{
    let mut files = Vec::new(alloc);
    for name in names {
        let Some(file) = MessageName::read(name) else {
            continue;
        };
        files.push(file)?;
    }
    Ok(files)
}

/// The answers to a message of the inbox, by books that keep what they took of the earlier ones.
fn answers_of<I: Folder, J: Journal>(
    alloc: Global,
    inbox: &mut I,
    books: &mut Books,
    file: &MessageName,
    journal: &mut J,
) -> Result<Vec<u8>, BoxFault>
    requires { I.is_known inbox.old ≡ true → IsMessageFile (I.image inbox.old) (file_of (I.image inbox.old) file.now) }
    ensures answers { IfOk result (λ answers. I.is_known inbox.old ≡ true → AnswersMessage (I.image inbox.old) file.now books.old books.new answers.items) }
    ensures tells { IfOk result (λ answers. I.is_known inbox.old ≡ true → TellsOctets J.tells journal.old journal.new file.now.moment (file_of (I.image inbox.old) file.now).octets books.old books.new answers.items) }
    ensures no_difference { IfErr result IsNoDifference }
    ensures kept { IsKept I.is_known I.image I.temporary I.may_leave inbox.old inbox.new }
    ensures still { StaysAsOpen I.may_leave inbox.old inbox.new }
    ensures later { I.failed inbox.old ≤ I.failed inbox.new }
    ensures cause { IsErrOf result Device → HasRisen (I.failed inbox.old) (I.failed inbox.new) }
    ensures told { (IsErrOf result Device → ⊥) → I.failed inbox.new ≡ I.failed inbox.old }
{
    let octets = inbox.read(alloc, file.name())?;
    answers_to(alloc, books, &octets, file.moment(), journal)
}

/// The answers to the objects of a stream, which are counted from 1.
fn answers_to<J: Journal>(
    alloc: Global,
    books: &mut Books,
    octets: &[u8],
    moment: Stamp,
    journal: &mut J,
) -> Result<Vec<u8>, BoxFault>
    requires { length octets.now ≤ 1_073_741_824 }
    ensures answers { IfOk result (λ answers. AnswersOctets moment octets.now books.old books.new answers.items) }
    ensures tells { IfOk result (λ answers. TellsOctets J.tells journal.old journal.new moment octets.now books.old books.new answers.items) }
    ensures memory { IfErr result (λ fault. fault ≡ Memory) }
{
    let mut reader = octets;
    let mut answers = Vec::new(alloc);
    match serve_objects(
        alloc,
        books,
        &mut reader,
        &mut answers,
        moment,
        MOST_OF_FILE,
        journal,
    ) {
        Ok(_) => Ok(answers),
        Err(ServeFault::Memory) => Err(BoxFault::Memory),
        // Octets in memory don't fail, and a file has fewer than may be read.
        Err(ServeFault::Read | ServeFault::Write | ServeFault::TooLong) => unreachable!(),
    }
}

/// An answer to a message: the name of its file in the outbox, and its octets.
#[derive(Drop)]
struct Answer {
    name: String,
    octets: Vec<u8>,
}

/// What stands in the outbox under the name of an answer.
#[derive(Clone, Copy, PartialEq, Eq)]
enum Standing {
    /// Nothing.
    Missing,
    /// The answer.
    Equal,
    /// Something else.
    Other,
}

/// An answer, and what stands under its name.
#[derive(Drop)]
struct Compared {
    answer: Answer,
    standing: Standing,
}

/// Answers a message of the inbox, and looks what stands in the outbox under the name of the answers. The journal is told of it first.
fn compare_file<I: Folder, O: Folder, J: Journal>(
    alloc: Global,
    inbox: &mut I,
    outbox: &mut O,
    books: &mut Books,
    file: &MessageName,
    theirs: &[String],
    journal: &mut J,
) -> Result<Compared, BoxFault>
    requires message { I.is_known inbox.old ≡ true → IsMessageFile (I.image inbox.old) (file_of (I.image inbox.old) file.now) }
    requires rising { AreRising (map string_bytes theirs.now) }
    requires there { O.is_known outbox.old ≡ true → Contains (map string_bytes theirs.now) (answers_name file.now) → IsNone (O.image outbox.old (answers_name file.now)) → ⊥ }
    requires free { O.is_known outbox.old ≡ true → (Contains (map string_bytes theirs.now) (answers_name file.now) → ⊥) → O.image outbox.old (answers_name file.now) ≡ None }
    ensures answers { IfOk result (λ compared. I.is_known inbox.old ≡ true → AnswersMessage (I.image inbox.old) file.now books.old books.new (file_in compared.answer).octets) }
    ensures named { IfOk result (λ compared. (file_in compared.answer).name ≡ answers_name file.now) }
    ensures stands { IfOk result (λ compared. O.is_known outbox.old ≡ true → IsStanding (O.image outbox.old) (file_in compared.answer) compared.standing) }
    ensures tells { OnOk result (I.is_known inbox.old ≡ true → FilesTold J.begins J.tells (I.image inbox.old) (map string_bytes theirs.now) journal.old (file.now ∷ []) books.old books.new journal.new) }
    ensures no_difference { IfErr result IsNoDifference }
    ensures kept { IsKept I.is_known I.image I.temporary I.may_leave inbox.old inbox.new }
    ensures still { StaysAsOpen I.may_leave inbox.old inbox.new }
    ensures out_kept { IsKept O.is_known O.image O.temporary O.may_leave outbox.old outbox.new }
    ensures out_still { StaysAsOpen O.may_leave outbox.old outbox.new }
    ensures time { GoesOn (O.moment outbox.old) (O.moment outbox.new) (O.left_since outbox.old) (O.left_since outbox.new) (O.may_leave outbox.old) }
    ensures later { (I.failed inbox.old ≤ I.failed inbox.new) × (O.failed outbox.old ≤ O.failed outbox.new) }
    ensures cause { IsErrOf result Device → HasRisen (I.failed inbox.old) (I.failed inbox.new) ⊎ HasRisen (O.failed outbox.old) (O.failed outbox.new) }
    ensures told { (IsErrOf result Device → ⊥) → (I.failed inbox.new ≡ I.failed inbox.old) × (O.failed outbox.new ≡ O.failed outbox.old) }
{
    let name = file.answer_name(alloc)?;
    let is_there = is_among(theirs, name.as_str());
    journal.begin(file.name(), !is_there);
    let octets = answers_of(alloc, inbox, books, file, journal)?;
    let standing = standing_of(alloc, outbox, name.as_str(), &octets, is_there)?;
    Ok(Compared {
        answer: Answer { name, octets },
        standing,
    })
}

/// What the outbox holds under a name, which is among its names or isn't: nothing, these octets or others.
fn standing_of<O: Folder>(
    alloc: Global,
    outbox: &mut O,
    name: &str,
    octets: &[u8],
    is_there: bool,
) -> Result<Standing, FolderFault>
    requires there { O.is_known outbox.old ≡ true → IsTrue is_there → IsNone (O.image outbox.old name.now) → ⊥ }
    requires free { O.is_known outbox.old ≡ true → (IsTrue is_there → ⊥) → O.image outbox.old name.now ≡ None }
    ensures stands { IfOk result (λ standing. O.is_known outbox.old ≡ true → IsStanding (O.image outbox.old) (record { name = name.now; octets = octets.now }) standing) }
    ensures kept { IsKept O.is_known O.image O.temporary O.may_leave outbox.old outbox.new }
    ensures still { StaysAsOpen O.may_leave outbox.old outbox.new }
    ensures time { GoesOn (O.moment outbox.old) (O.moment outbox.new) (O.left_since outbox.old) (O.left_since outbox.new) (O.may_leave outbox.old) }
    ensures not_missing { IsErrOf result folder.Missing → ⊥ }
    ensures not_existing { IsErrOf result folder.Exists → ⊥ }
    ensures cause { HasCause (O.failed outbox.old) (O.failed outbox.new) (IsErrOf result folder.Device) }
{
    if !is_there {
        return Ok(Standing::Missing);
    }
    let held = outbox.read(alloc, name)?;
    if held.as_slice() == octets {
        Ok(Standing::Equal)
    } else {
        Ok(Standing::Other)
    }
}

/// Holds an answer that is missing behind the others. One that stands is let go; `Differs` where something else stands.
fn hold(held: &mut Vec<Answer>, compared: Compared) -> Result<(), BoxFault>
    ensures few { length held.new.items ≤ length held.old.items + 1 }
    ensures no_device { IsErrOf result Device → ⊥ }
    ensures holds { (image : Image) → IsStanding image (file_in compared.answer) compared.standing
        → Holds image (file_in compared.answer) (map file_in held.old.items) (map file_in held.new.items) result }
{
    let answer = compared.answer;
    match compared.standing {
        Standing::Missing => {
            held.push(answer)?;
            Ok(())
        }
        Standing::Equal => Ok(()),
        Standing::Other => Err(BoxFault::Differs(answer.name)),
    }
}

/// Writes the temporary file, and syncs it.
fn write_synced<O: Folder>(outbox: &mut O, octets: &[u8]) -> Result<(), FolderFault>
    ensures there { OnOk result ((O.temporary outbox.new).is_there ≡ true) }
    ensures octets { OnOk result (O.is_known outbox.old ≡ true → (O.temporary outbox.new).octets ≡ octets.now) }
    ensures synced { OnOk result (O.is_known outbox.old ≡ true → (O.temporary outbox.new).is_synced ≡ true) }
    ensures known { O.is_known outbox.new ≡ O.is_known outbox.old }
    ensures image { O.image outbox.new ≡ O.image outbox.old }
    ensures stop { (left : Image) → O.may_leave outbox.new left → O.may_leave outbox.old left }
    ensures time { GoesOn (O.moment outbox.old) (O.moment outbox.new) (O.left_since outbox.old) (O.left_since outbox.new) (O.may_leave outbox.old) }
    ensures not_missing { IsErrOf result folder.Missing → ⊥ }
    ensures not_existing { IsErrOf result folder.Exists → ⊥ }
    ensures later { O.failed outbox.old ≤ O.failed outbox.new }
    ensures cause { IsErrOf result folder.Device → HasRisen (O.failed outbox.old) (O.failed outbox.new) }
    ensures told { (IsErrOf result folder.Device → ⊥) → O.failed outbox.new ≡ O.failed outbox.old }
{
    outbox.write_temp(octets)?;
    outbox.sync_temp()
}

/// Publishes answers under a name under which nothing stands. At Ok no stop takes them away.
fn publish_answers<O: Folder>(outbox: &mut O, name: &str, answers: &[u8]) -> Result<(), FolderFault>
    requires { O.is_known outbox.old ≡ true → O.image outbox.old name.now ≡ None }
    ensures published { OnOk result (O.is_known outbox.old ≡ true → IsGained (record { name = name.now; octets = answers.now }) (O.image outbox.old) (O.image outbox.new) (O.may_leave outbox.old) (O.may_leave outbox.new)) }
    ensures whole { OnErr result (O.is_known outbox.old ≡ true → IsWhole (record { name = name.now; octets = answers.now }) (O.image outbox.old) (O.image outbox.new)) }
    ensures known { O.is_known outbox.new ≡ O.is_known outbox.old }
    ensures time { O.is_known outbox.old ≡ true → GoesOn (O.moment outbox.old) (O.moment outbox.new) (O.left_since outbox.old) (O.left_since outbox.new)
        (MayGain (record { name = name.now; octets = answers.now }) (O.may_leave outbox.old)) }
    ensures goes_on { O.is_known outbox.old ≡ true → LosesNamesAlone (O.image outbox.old) (O.may_leave outbox.old) → LosesNamesAlone (O.image outbox.new) (O.may_leave outbox.new) }
    ensures not_missing { IsErrOf result folder.Missing → ⊥ }
    ensures not_existing { IsErrOf result folder.Exists → ⊥ }
    ensures later { O.failed outbox.old ≤ O.failed outbox.new }
    ensures cause { IsErrOf result folder.Device → HasRisen (O.failed outbox.old) (O.failed outbox.new) }
    ensures told { (IsErrOf result folder.Device → ⊥) → O.failed outbox.new ≡ O.failed outbox.old }
{
    write_synced(outbox, answers)?;
    outbox.publish(name)?;
    outbox.sync_dir()
}

/// Compares the answers to these messages with what stands of them in the outbox, and holds those that are missing. `Differs` at the first that differs.
fn hold_missing<I: Folder, O: Folder, J: Journal>(
    alloc: Global,
    inbox: &mut I,
    outbox: &mut O,
    books: &mut Books,
    files: &[MessageName],
    theirs: &[String],
    journal: &mut J,
) -> Result<Vec<Answer>, BoxFault>
    requires messages { I.is_known inbox.old ≡ true → AreMessagesOf (I.image inbox.old) files.now }
    requires rising { AreRising (map string_bytes theirs.now) }
    requires names { O.is_known outbox.old ≡ true → AreNames (O.image outbox.old) (map string_bytes theirs.now) }
    ensures compares { O.is_known outbox.old ≡ true → IfOk result (λ held.
        HasCompared (record { known = I.is_known inbox.old; inbox = I.image inbox.old; books = books.old; start = O.image outbox.old; first = O.moment outbox.old }) files.now books.new (map file_in held.items)) }
    ensures breaks { O.is_known outbox.old ≡ true → IfErr result (HasBroken (record { known = I.is_known inbox.old; inbox = I.image inbox.old; books = books.old; start = O.image outbox.old; first = O.moment outbox.old }) files.now) }
    ensures few { IfOk result (λ held. length held.items ≤ length files.now) }
    ensures kept { IsKept I.is_known I.image I.temporary I.may_leave inbox.old inbox.new }
    ensures out_kept { IsKept O.is_known O.image O.temporary O.may_leave outbox.old outbox.new }
    ensures time { GoesOn (O.moment outbox.old) (O.moment outbox.new) (O.left_since outbox.old) (O.left_since outbox.new) (O.may_leave outbox.old) }
    ensures later { (I.failed inbox.old ≤ I.failed inbox.new) × (O.failed outbox.old ≤ O.failed outbox.new) }
    ensures cause { IsErrOf result Device → HasRisen (I.failed inbox.old) (I.failed inbox.new) ⊎ HasRisen (O.failed outbox.old) (O.failed outbox.new) }
    ensures told { (IsErrOf result Device → ⊥) → (I.failed inbox.new ≡ I.failed inbox.old) × (O.failed outbox.new ≡ O.failed outbox.old) }
    ensures tells { OnOk result (I.is_known inbox.old ≡ true → FilesTold J.begins J.tells (I.image inbox.old) (map string_bytes theirs.now) journal.old files.now books.old books.new journal.new) }
{
    let mut held = Vec::new(alloc);
    for file in files {
        let compared = compare_file(alloc, inbox, outbox, books, file, theirs, journal)?;
        hold(&mut held, compared)?;
    }
    Ok(held)
}

/// Publishes answers of which nothing stands yet, in turn.
fn publish_all<O: Folder>(outbox: &mut O, answers: &[Answer]) -> Result<(), FolderFault>
    requires free { O.is_known outbox.old ≡ true → (file : File) → Contains (map file_in answers.now) file → O.image outbox.old file.name ≡ None }
    requires apart { O.is_known outbox.old ≡ true → AreNamedApart answers.now }
    ensures published { OnOk result (O.is_known outbox.old ≡ true → HasPublished (O.image outbox.old) (map file_in answers.now) (O.moment outbox.old) (O.image outbox.new) (O.moment outbox.new)
        (LeavesHeld (O.image outbox.old) (O.may_leave outbox.old)) (O.left_since outbox.old) (O.left_since outbox.new) (O.may_leave outbox.new)) }
    ensures ended { OnErr result (O.is_known outbox.old ≡ true → HasPublishedSome (O.image outbox.old) (map file_in answers.now) (O.moment outbox.old) (O.image outbox.new) (O.moment outbox.new)
        (LeavesHeld (O.image outbox.old) (O.may_leave outbox.old)) (O.left_since outbox.old) (O.left_since outbox.new)) }
    ensures goes_on { O.is_known outbox.old ≡ true → LosesNamesAlone (O.image outbox.old) (O.may_leave outbox.old) → LosesNamesAlone (O.image outbox.new) (O.may_leave outbox.new) }
    ensures known { O.is_known outbox.new ≡ O.is_known outbox.old }
    ensures not_missing { IsErrOf result folder.Missing → ⊥ }
    ensures not_existing { IsErrOf result folder.Exists → ⊥ }
    ensures later { O.failed outbox.old ≤ O.failed outbox.new }
    ensures cause { IsErrOf result folder.Device → HasRisen (O.failed outbox.old) (O.failed outbox.new) }
    ensures told { (IsErrOf result folder.Device → ⊥) → O.failed outbox.new ≡ O.failed outbox.old }
{
    for answer in answers {
        publish_answers(outbox, answer.name.as_str(), &answer.octets)?;
    }
    Ok(())
}

/// Whether answers to a message stand in the outbox.
fn is_answered(alloc: Global, theirs: &[String], file: &MessageName) -> Result<bool, AllocError>
    requires { AreRising (map string_bytes theirs.now) }
    ensures { IfOk result (λ stands. IsTrue stands ↔ Contains (map string_bytes theirs.now) (answers_name file.now)) }
{
    let name = file.answer_name(alloc)?;
    let stands = is_among(theirs, name.as_str());
    Ok(stands)
}

/// How many files there are up to the last one whose answers stand in the outbox: to those behind it nothing stands.
fn place_behind_last(
    alloc: Global,
    files: &[MessageName],
    theirs: &[String],
) -> Result<usize, AllocError>
    requires { AreRising (map string_bytes theirs.now) }
    ensures within { IfOk result (λ place. place ≤ length files.now) }
    ensures behind { IfOk result (λ place. NoneAmong (map string_bytes theirs.now) (drop place files.now)) }
    ensures last { IfOk result (λ place. (place ≡ 0) ⊎ IsLast (map string_bytes theirs.now) (take place files.now)) }
{
    let mut place = files.len();
    while place > 0 {
        if is_answered(alloc, theirs, &files[place - 1])? {
            return Ok(place);
        }
        place -= 1;
    }
    Ok(place)
}

/// Answers these messages of the inbox. Up to the last one whose answers stand in the outbox all are compared, and those that are missing are held,
/// before one is published; from there on each is published before the next message is read.
fn answer_all<I: Folder, O: Folder, J: Journal>(
    alloc: Global,
    inbox: &mut I,
    outbox: &mut O,
    books: &mut Books,
    files: &[MessageName],
    theirs: &[String],
    journal: &mut J,
) -> Result<BoxReport, BoxFault>
    requires messages { I.is_known inbox.old ≡ true → AreMessageFiles (I.image inbox.old) (map (file_of (I.image inbox.old)) files.now) }
    requires apart { AreApart files.now }
    requires rising { AreRising (map string_bytes theirs.now) }
    requires names { O.is_known outbox.old ≡ true → AreNames (O.image outbox.old) (map string_bytes theirs.now) }
    ensures runs { O.is_known outbox.old ≡ true → RunsOver (record { known = I.is_known inbox.old; inbox = I.image inbox.old; books = books.old; start = O.image outbox.old; first = O.moment outbox.old })
        files.now books.new (O.image outbox.new) (O.moment outbox.new) (O.may_leave outbox.old) (O.left_since outbox.old) (O.left_since outbox.new) (O.may_leave outbox.new) result }
    ensures goes_on { O.is_known outbox.old ≡ true → LosesNamesAlone (O.image outbox.old) (O.may_leave outbox.old) → LosesNamesAlone (O.image outbox.new) (O.may_leave outbox.new) }
    ensures kept { IsKept I.is_known I.image I.temporary I.may_leave inbox.old inbox.new }
    ensures later { (I.failed inbox.old ≤ I.failed inbox.new) × (O.failed outbox.old ≤ O.failed outbox.new) }
    ensures cause { IsErrOf result Device → HasRisen (I.failed inbox.old) (I.failed inbox.new) ⊎ HasRisen (O.failed outbox.old) (O.failed outbox.new) }
    ensures told { (IsErrOf result Device → ⊥) → (I.failed inbox.new ≡ I.failed inbox.old) × (O.failed outbox.new ≡ O.failed outbox.old) }
    ensures tells { OnOk result (I.is_known inbox.old ≡ true → FilesTold J.begins J.tells (I.image inbox.old) (map string_bytes theirs.now) journal.old files.now books.old books.new journal.new) }
{
    let place = place_behind_last(alloc, files, theirs)?;
    let (first, rest) = files.split_at(place);
    let held = hold_missing(alloc, inbox, outbox, books, first, theirs, journal)?;
    publish_all(outbox, &held)?;
    let mut report = BoxReport::of(first, &held);
    for file in rest {
        let compared = compare_file(alloc, inbox, outbox, books, file, theirs, journal)?;
        let answer = compared.answer;
        publish_answers(outbox, answer.name.as_str(), &answer.octets)?;
        report = report.with_file();
    }
    Ok(report)
}

impl BoxReport {
    ghost use Rattle.std.specs.Prelude.{◌≡◌, ◌+◌, ◌<◌, ◌^◌, length};

    /// These files were answered, and these of their answers published.
    fn of(files: &[MessageName], published: &[Answer]) -> BoxReport
        ensures files { result.files ≡ length files.now }
        ensures written { result.written ≡ length published.now }
    {
        BoxReport {
            files: files.len() as u64,
            written: published.len() as u64,
        }
    }

    /// One more file was answered, and its answers published.
    fn with_file(self) -> BoxReport
        requires files { self.files + 1 < 2 ^ 64 }
        requires written { self.written + 1 < 2 ^ 64 }
        ensures files { result.files ≡ self.files + 1 }
        ensures written { result.written ≡ self.written + 1 }
    {
        BoxReport {
            files: self.files + 1,
            written: self.written + 1,
        }
    }
}

/// Answers each file of the inbox, in the byte order of their names, by a file of the same stem in the outbox. Files of other names are left alone. All
/// books are kept over all files, from empty ones. An answer that is there is compared, and left as it is. One that isn't is written, synced and
/// published, and the folder synced, before the next file is read; but as long as an answer to a file of the inbox stands there that wasn't compared
/// yet, it is held in memory, and published behind the last of those. So no answer goes out beside one that differs. A stop at any moment leaves whole
/// files, the answers to the first of the files, and a later run goes on from there, whether the machine stopped or a call failed. `Device` comes only
/// where a folder has failed, and wherever one has. `Differs` comes at the first answer that differs from what the outbox holds under its name: the
/// outbox is as it was found then. The inbox stays as it is.
pub fn run_box<I: Folder, O: Folder>(
    alloc: Global,
    inbox: &mut I,
    outbox: &mut O,
    config: &Config,
) -> Result<BoxReport, BoxFault>
    ensures cause { IsErrOf result Device → HasRisen (I.failed inbox.old) (I.failed inbox.new) ⊎ HasRisen (O.failed outbox.old) (O.failed outbox.new) }
    ensures told { (IsErrOf result Device → ⊥) → (I.failed inbox.new ≡ I.failed inbox.old) × (O.failed outbox.new ≡ O.failed outbox.old) }
    ensures later { (I.failed inbox.old ≤ I.failed inbox.new) × (O.failed outbox.old ≤ O.failed outbox.new) }
    ensures kept { IsKept I.is_known I.image I.temporary I.may_leave inbox.old inbox.new }
    ensures goes_on { O.is_known outbox.old ≡ true → LosesNamesAlone (O.image outbox.old) (O.may_leave outbox.old) → LosesNamesAlone (O.image outbox.new) (O.may_leave outbox.new) }
    ensures runs { I.is_known inbox.old ≡ true → O.is_known outbox.old ≡ true → LosesNamesAlone (O.image outbox.old) (O.may_leave outbox.old)
        → Runs (I.image inbox.old) (config_hosts config.now) (record { start = O.image outbox.old; now = O.image outbox.new; first = O.moment outbox.old; last = O.moment outbox.new })
        (O.may_leave outbox.old) (O.may_leave outbox.new) (O.left_since outbox.new) result }
{
    run_box_telling(alloc, inbox, outbox, config, &mut Nobody)
}

/// Runs a box as `run_box` does, and tells which files are left alone though they end as messages do, and then of each object of each file what
/// became of it, before the answers to the file are published.
pub fn run_box_telling<I: Folder, O: Folder, J: Journal>(
    alloc: Global,
    inbox: &mut I,
    outbox: &mut O,
    config: &Config,
    journal: &mut J,
) -> Result<BoxReport, BoxFault>
    ensures cause { IsErrOf result Device → HasRisen (I.failed inbox.old) (I.failed inbox.new) ⊎ HasRisen (O.failed outbox.old) (O.failed outbox.new) }
    ensures told { (IsErrOf result Device → ⊥) → (I.failed inbox.new ≡ I.failed inbox.old) × (O.failed outbox.new ≡ O.failed outbox.old) }
    ensures later { (I.failed inbox.old ≤ I.failed inbox.new) × (O.failed outbox.old ≤ O.failed outbox.new) }
    ensures kept { IsKept I.is_known I.image I.temporary I.may_leave inbox.old inbox.new }
    ensures goes_on { O.is_known outbox.old ≡ true → LosesNamesAlone (O.image outbox.old) (O.may_leave outbox.old) → LosesNamesAlone (O.image outbox.new) (O.may_leave outbox.new) }
    ensures runs { I.is_known inbox.old ≡ true → O.is_known outbox.old ≡ true → LosesNamesAlone (O.image outbox.old) (O.may_leave outbox.old)
        → Runs (I.image inbox.old) (config_hosts config.now) (record { start = O.image outbox.old; now = O.image outbox.new; first = O.moment outbox.old; last = O.moment outbox.new })
        (O.may_leave outbox.old) (O.may_leave outbox.new) (O.left_since outbox.new) result }
    ensures tells { I.is_known inbox.old ≡ true → O.is_known outbox.old ≡ true
        → OnOk result (TellsFolder J.passes J.begins J.tells journal.old journal.new (I.image inbox.old) (O.image outbox.old) (config_hosts config.now)) }
{
    sync_names(outbox)?;
    let files = message_files(alloc, inbox, journal)?;
    let theirs = sorted_names(alloc, outbox)?;
    let mut books = Books::new(alloc, config)?;
    answer_all(alloc, inbox, outbox, &mut books, &files, &theirs, journal)
}

/// What a comparison of a box's folders found: how many files there are, how many answers are missing, and the names of those that differ.
#[derive(Drop)]
pub struct Comparison {
    pub files: u64,
    pub missing: u64,
    pub differing: Vec<String>,
}

/// Compares the answer to each file of the inbox with what the outbox holds under its name, as `run_box` would, and goes on behind one that differs.
/// It only lists and reads both folders, so it runs over folders that may not be written. It never ends with `Differs`.
pub fn compare_box<I: Folder, O: Folder>(
    alloc: Global,
    inbox: &mut I,
    outbox: &mut O,
    config: &Config,
) -> Result<Comparison, BoxFault>
    ensures cause { IsErrOf result Device → HasRisen (I.failed inbox.old) (I.failed inbox.new) ⊎ HasRisen (O.failed outbox.old) (O.failed outbox.new) }
    ensures told { (IsErrOf result Device → ⊥) → (I.failed inbox.new ≡ I.failed inbox.old) × (O.failed outbox.new ≡ O.failed outbox.old) }
    ensures later { (I.failed inbox.old ≤ I.failed inbox.new) × (O.failed outbox.old ≤ O.failed outbox.new) }
    ensures kept { IsKept I.is_known I.image I.temporary I.may_leave inbox.old inbox.new }
    ensures still { StaysAsOpen I.may_leave inbox.old inbox.new }
    ensures out_kept { IsKept O.is_known O.image O.temporary O.may_leave outbox.old outbox.new }
    ensures out_still { StaysAsOpen O.may_leave outbox.old outbox.new }
    ensures compares { I.is_known inbox.old ≡ true → O.is_known outbox.old ≡ true → Compares (I.image inbox.old) (config_hosts config.now) (O.image outbox.old) result }
{
    let files = message_files(alloc, inbox, &mut Nobody)?;
    let theirs = sorted_names(alloc, outbox)?;
    let mut books = Books::new(alloc, config)?;
    compare_all(alloc, inbox, outbox, &mut books, &files, &theirs)
}

/// Compares the answers to these messages with what stands of them in the outbox.
fn compare_all<I: Folder, O: Folder>(
    alloc: Global,
    inbox: &mut I,
    outbox: &mut O,
    books: &mut Books,
    files: &[MessageName],
    theirs: &[String],
) -> Result<Comparison, BoxFault>
    requires messages { I.is_known inbox.old ≡ true → AreMessageFiles (I.image inbox.old) (map (file_of (I.image inbox.old)) files.now) }
    requires rising { AreRising (map string_bytes theirs.now) }
    requires names { O.is_known outbox.old ≡ true → AreNames (O.image outbox.old) (map string_bytes theirs.now) }
    ensures compares { O.is_known outbox.old ≡ true → IfOk result (λ found.
        HasFound (record { known = I.is_known inbox.old; inbox = I.image inbox.old; books = books.old; start = O.image outbox.old; first = O.moment outbox.old }) files.now books.new found) }
    ensures no_difference { IfErr result IsNoDifference }
    ensures kept { IsKept I.is_known I.image I.temporary I.may_leave inbox.old inbox.new }
    ensures still { StaysAsOpen I.may_leave inbox.old inbox.new }
    ensures out_kept { IsKept O.is_known O.image O.temporary O.may_leave outbox.old outbox.new }
    ensures out_still { StaysAsOpen O.may_leave outbox.old outbox.new }
    ensures later { (I.failed inbox.old ≤ I.failed inbox.new) × (O.failed outbox.old ≤ O.failed outbox.new) }
    ensures cause { IsErrOf result Device → HasRisen (I.failed inbox.old) (I.failed inbox.new) ⊎ HasRisen (O.failed outbox.old) (O.failed outbox.new) }
    ensures told { (IsErrOf result Device → ⊥) → (I.failed inbox.new ≡ I.failed inbox.old) × (O.failed outbox.new ≡ O.failed outbox.old) }
{
    let mut found = Comparison {
        files: 0,
        missing: 0,
        differing: Vec::new(alloc),
    };
    for file in files {
        let compared = compare_file(alloc, inbox, outbox, books, file, theirs, &mut Nobody)?;
        found.add(compared)?;
    }
    Ok(found)
}

impl Comparison {
    ghost use Rattle.std.specs.Prelude.{◌≡◌, ◌+◌, ◌<◌, ◌≤◌, ◌^◌, OnOk};
    ghost use Rattle.profile.specs.streams.Folders.{Image};
    ghost use Rattle.sched_box.specs.Running.{FindsMore, IsStanding, file_in};

    /// One more file was compared.
    fn add(&mut self, compared: Compared) -> Result<(), AllocError>
        requires files { self.old.files + 1 < 2 ^ 64 }
        requires missing { self.old.missing + 1 < 2 ^ 64 }
        ensures counted { OnOk result (self.new.files ≡ self.old.files + 1) }
        ensures few { OnOk result (self.new.missing ≤ self.old.missing + 1) }
        ensures finds { OnOk result ((image : Image) → IsStanding image (file_in compared.answer) compared.standing → FindsMore image (file_in compared.answer) self.old self.new) }
    {
        let answer = compared.answer;
        self.files += 1;
        match compared.standing {
            Standing::Missing => self.missing += 1,
            Standing::Equal => {}
            Standing::Other => self.differing.push(answer.name)?,
        }
        Ok(())
    }
}
