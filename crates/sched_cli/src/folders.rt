//! `box`: answers the files of one folder by files of another, or compares those that are there.

ghost use Rattle.std.specs.Prelude.{◌≡◌, ◌⊎◌, ◌≤◌, Some, None, true};
ghost use Rattle.profile.specs.streams.Folders.{LosesNamesAlone};
ghost use Rattle.sched_devices.specs.Folder.{IsKept, StaysAsOpen};
ghost use Rattle.sched_box.specs.Boxes.{Compares, HasRisen, Runs};
ghost use Rattle.sched_devices.specs.declared.output.WriteFault.TheVariants as write;
ghost use Rattle.sched_cli.specs.Logging.{LogBegins, LogPasses, LogTells};
ghost use Rattle.sched_cli.specs.Running.{ComparesWith, EndsLogged, RunsLogged, RunsNone, RunsWith, TellsBox};

use crate::log::Log;
use crate::status::{DONE, report_box, report_comparison, report_read, report_write};
use sched_box::{
    Config, Folder, Journal, Nobody, Output, WriteFault, compare_box, run_box_telling,
};
use std::alloc::Global;

/// `box`: reads a configuration, and answers each file of the inbox by one of the outbox. Gives 0 where all are answered, 3 where the
/// configuration is refused or an answer that is there differs, 4 where a folder failed, and 5 where memory was refused.
pub fn run_folders<I: Folder, O: Folder, E: Output>(
    alloc: Global,
    config: &[u8],
    inbox: &mut I,
    outbox: &mut O,
    errors: &mut E,
) -> u8
    ensures status { (result ≡ 0) ⊎ (result ≡ 3) ⊎ (result ≡ 4) ⊎ (result ≡ 5) }
    ensures device { result ≡ 4 → HasRisen (I.failed inbox.old) (I.failed inbox.new) ⊎ HasRisen (O.failed outbox.old) (O.failed outbox.new) }
    ensures told { (result ≡ 4 → ⊥) → (I.failed inbox.new ≡ I.failed inbox.old) × (O.failed outbox.new ≡ O.failed outbox.old) }
    ensures later { (I.failed inbox.old ≤ I.failed inbox.new) × (O.failed outbox.old ≤ O.failed outbox.new) }
    ensures kept { IsKept I.is_known I.image I.temporary I.may_leave inbox.old inbox.new }
    ensures runs { (RunsNone result config.now (E.contents errors.old) (E.contents errors.new) (E.may_lose errors.new) × (inbox.new ≡ inbox.old) × (outbox.new ≡ outbox.old))
        ⊎ RunsWith result config.now
        (λ hosts ended. I.is_known inbox.old ≡ true → O.is_known outbox.old ≡ true → LosesNamesAlone (O.image outbox.old) (O.may_leave outbox.old)
        → Runs (I.image inbox.old) hosts (record { start = O.image outbox.old; now = O.image outbox.new; first = O.moment outbox.old; last = O.moment outbox.new })
        (O.may_leave outbox.old) (O.may_leave outbox.new) (O.left_since outbox.new) ended)
        (E.contents errors.old) (E.contents errors.new) (E.may_lose errors.new) }
{
    run_folders_telling(alloc, config, inbox, outbox, &mut Nobody, errors)
}

/// Runs a box over its folders, and tells of each object what became of it.
fn run_folders_telling<I: Folder, O: Folder, J: Journal, E: Output>(
    alloc: Global,
    config: &[u8],
    inbox: &mut I,
    outbox: &mut O,
    journal: &mut J,
    errors: &mut E,
) -> u8
    ensures status { (result ≡ 0) ⊎ (result ≡ 3) ⊎ (result ≡ 4) ⊎ (result ≡ 5) }
    ensures device { result ≡ 4 → HasRisen (I.failed inbox.old) (I.failed inbox.new) ⊎ HasRisen (O.failed outbox.old) (O.failed outbox.new) }
    ensures told { (result ≡ 4 → ⊥) → (I.failed inbox.new ≡ I.failed inbox.old) × (O.failed outbox.new ≡ O.failed outbox.old) }
    ensures later { (I.failed inbox.old ≤ I.failed inbox.new) × (O.failed outbox.old ≤ O.failed outbox.new) }
    ensures kept { IsKept I.is_known I.image I.temporary I.may_leave inbox.old inbox.new }
    ensures runs { (RunsNone result config.now (E.contents errors.old) (E.contents errors.new) (E.may_lose errors.new) × (inbox.new ≡ inbox.old) × (outbox.new ≡ outbox.old))
        ⊎ RunsWith result config.now
        (λ hosts ended. I.is_known inbox.old ≡ true → O.is_known outbox.old ≡ true → LosesNamesAlone (O.image outbox.old) (O.may_leave outbox.old)
        → Runs (I.image inbox.old) hosts (record { start = O.image outbox.old; now = O.image outbox.new; first = O.moment outbox.old; last = O.moment outbox.new })
        (O.may_leave outbox.old) (O.may_leave outbox.new) (O.left_since outbox.new) ended)
        (E.contents errors.old) (E.contents errors.new) (E.may_lose errors.new) }
    ensures tells { result ≡ 0 → I.is_known inbox.old ≡ true → O.is_known outbox.old ≡ true → TellsBox J.passes J.begins J.tells journal.old journal.new config.now (I.image inbox.old) (O.image outbox.old) }
{
    let config = match Config::read(alloc, config) {
        Ok(config) => config,
        Err(fault) => return report_read(errors, fault),
    };
    match run_box_telling(alloc, inbox, outbox, &config, journal) {
        Ok(_) => DONE,
        Err(fault) => report_box(errors, fault),
    }
}

/// `box --report`: answers each file as `box` does, and says which files are left alone though they end as messages do, and of each object
/// that came to nothing, in a file that wasn't answered before, what became of it. Gives 4 where such a line wasn't written whole, and 5 where
/// memory for one is refused; all is answered then.
pub fn run_folders_report<I: Folder, O: Folder, L: Output, E: Output>(
    alloc: Global,
    config: &[u8],
    inbox: &mut I,
    outbox: &mut O,
    log: &mut Log<L>,
    errors: &mut E,
) -> u8
    ensures status { (result ≡ 0) ⊎ (result ≡ 3) ⊎ (result ≡ 4) ⊎ (result ≡ 5) }
    ensures device { result ≡ 4 → HasRisen (I.failed inbox.old) (I.failed inbox.new) ⊎ HasRisen (O.failed outbox.old) (O.failed outbox.new) ⊎ (log.new.fault ≡ Some write.Failed) }
    ensures told { (result ≡ 4 → ⊥) → (I.failed inbox.new ≡ I.failed inbox.old) × (O.failed outbox.new ≡ O.failed outbox.old) }
    ensures later { (I.failed inbox.old ≤ I.failed inbox.new) × (O.failed outbox.old ≤ O.failed outbox.new) }
    ensures whole { result ≡ 0 → log.new.fault ≡ None }
    ensures kept { IsKept I.is_known I.image I.temporary I.may_leave inbox.old inbox.new }
    ensures runs { (RunsNone result config.now (E.contents errors.old) (E.contents errors.new) (E.may_lose errors.new) × (inbox.new ≡ inbox.old) × (outbox.new ≡ outbox.old))
        ⊎ RunsLogged log.new.fault result config.now
        (λ hosts ended. I.is_known inbox.old ≡ true → O.is_known outbox.old ≡ true → LosesNamesAlone (O.image outbox.old) (O.may_leave outbox.old)
        → Runs (I.image inbox.old) hosts (record { start = O.image outbox.old; now = O.image outbox.new; first = O.moment outbox.old; last = O.moment outbox.new })
        (O.may_leave outbox.old) (O.may_leave outbox.new) (O.left_since outbox.new) ended)
        (E.contents errors.old) (E.contents errors.new) (E.may_lose errors.new) }
    ensures tells { result ≡ 0 → I.is_known inbox.old ≡ true → O.is_known outbox.old ≡ true → TellsBox
        (λ old name new. LogPasses (record { file = old.file.items; is_quiet = old.is_quiet; fault = old.fault; written = L.contents old.to; has_failed = L.has_failed old.to }) name
        (record { file = new.file.items; is_quiet = new.is_quiet; fault = new.fault; written = L.contents new.to; has_failed = L.has_failed new.to }))
        (λ old name is_new new. LogBegins (record { file = old.file.items; is_quiet = old.is_quiet; fault = old.fault; written = L.contents old.to; has_failed = L.has_failed old.to }) name is_new
        (record { file = new.file.items; is_quiet = new.is_quiet; fault = new.fault; written = L.contents new.to; has_failed = L.has_failed new.to }))
        (λ old k _ fate new. LogTells (record { file = old.file.items; is_quiet = old.is_quiet; fault = old.fault; written = L.contents old.to; has_failed = L.has_failed old.to }) k fate
        (record { file = new.file.items; is_quiet = new.is_quiet; fault = new.fault; written = L.contents new.to; has_failed = L.has_failed new.to }))
        log.old log.new config.now (I.image inbox.old) (O.image outbox.old) }
{
    let status = run_folders_telling(alloc, config, inbox, outbox, log, errors);
    end_folders(errors, status, log.fault())
}

/// The status at the end of a run that was reported: where all is answered and a line of the report wasn't written whole, that is said.
fn end_folders<E: Output>(errors: &mut E, status: u8, fault: Option<WriteFault>) -> u8
    ensures { EndsLogged fault status result (E.contents errors.old) (E.contents errors.new) (E.may_lose errors.old) (E.may_lose errors.new) }
{
    let Some(fault) = fault else {
        return status;
    };
    if status != DONE {
        return status;
    }
    report_write(errors, fault)
}

/// `box --compare`: reads a configuration, and compares the answer to each file of the inbox with what the outbox holds, without a change of either.
/// Says which differ, and how many are missing. Gives 0 where none differs, 3 where one does or the configuration is refused, 4 where a folder
/// failed, and 5 where memory was refused.
pub fn run_compare<I: Folder, O: Folder, E: Output>(
    alloc: Global,
    config: &[u8],
    inbox: &mut I,
    outbox: &mut O,
    errors: &mut E,
) -> u8
    ensures status { (result ≡ 0) ⊎ (result ≡ 3) ⊎ (result ≡ 4) ⊎ (result ≡ 5) }
    ensures device { result ≡ 4 → HasRisen (I.failed inbox.old) (I.failed inbox.new) ⊎ HasRisen (O.failed outbox.old) (O.failed outbox.new) }
    ensures told { (result ≡ 4 → ⊥) → (I.failed inbox.new ≡ I.failed inbox.old) × (O.failed outbox.new ≡ O.failed outbox.old) }
    ensures later { (I.failed inbox.old ≤ I.failed inbox.new) × (O.failed outbox.old ≤ O.failed outbox.new) }
    ensures kept { IsKept I.is_known I.image I.temporary I.may_leave inbox.old inbox.new }
    ensures still { StaysAsOpen I.may_leave inbox.old inbox.new }
    ensures out_kept { IsKept O.is_known O.image O.temporary O.may_leave outbox.old outbox.new }
    ensures out_still { StaysAsOpen O.may_leave outbox.old outbox.new }
    ensures compares { (RunsNone result config.now (E.contents errors.old) (E.contents errors.new) (E.may_lose errors.new) × (inbox.new ≡ inbox.old) × (outbox.new ≡ outbox.old))
        ⊎ ComparesWith result config.now
        (λ hosts ended. I.is_known inbox.old ≡ true → O.is_known outbox.old ≡ true → Compares (I.image inbox.old) hosts (O.image outbox.old) ended)
        (E.contents errors.old) (E.contents errors.new) (E.may_lose errors.new) }
{
    let config = match Config::read(alloc, config) {
        Ok(config) => config,
        Err(fault) => return report_read(errors, fault),
    };
    match compare_box(alloc, inbox, outbox, &config) {
        Ok(found) => report_comparison(errors, &found),
        Err(fault) => report_box(errors, fault),
    }
}
