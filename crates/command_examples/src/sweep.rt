//! One case for each call of a folder: the steps before are taken anew, the call fails or the machine stops at it, and the next run is to end with the
//! files of a run that met nothing.
//!
//! `each-fail in`, `each-fail out`, `each-half out`; `each-stop in`, `each-stop out`, with what a restart is told (`kept FILES` or `lost FILES`) after it.

use crate::scene::Scene;
use example_cases::{Answers, NoAnswer};
use sched_box::{BoxFault, BoxReport};
use std::rt::Files;

/// More calls than any case has.
const MOST_CALLS: u64 = 1_000;

/// What happens at a call.
#[derive(Clone, Copy, PartialEq, Eq)]
enum Mishap {
    Fail,
    Half,
    Stop,
}

/// A mishap at each call of one of the folders.
#[derive(Clone, Copy)]
pub struct Sweep<'a> {
    mishap: Mishap,
    at_inbox: bool,
    restart: &'a str,
}

/// The sweep that a step names, if it names one.
pub fn of(step: &str) -> Option<Sweep<'_>> {
    let (word, rest) = step.split_once(' ')?;
    let mishap = match word {
        "each-fail" => Mishap::Fail,
        "each-half" => Mishap::Half,
        "each-stop" => Mishap::Stop,
        _ => return None,
    };
    let (folder, restart) = rest.split_once(' ').unwrap_or((rest, ""));
    Some(Sweep {
        mishap,
        at_inbox: folder == "in",
        restart,
    })
}

impl Sweep<'_> {
    /// How many calls there are, or at which one something else came out.
    pub fn answer<R: Files + AllocGlobal>(
        self,
        rt: &R,
        steps: &[&str],
    ) -> Result<String, NoAnswer> {
        let alloc = rt.alloc();
        let mut whole = scene_of(rt, steps)?;
        let Ok(report) = whole.run()? else {
            return Err(NoAnswer::Unreadable);
        };
        for call in 1..MOST_CALLS {
            match self.try_call(rt, steps, call, &mut whole, report.files)? {
                Tried::Same => {}
                Tried::Past => return Ok(format!(in alloc; "{} calls, all the same", call - 1)?),
                Tried::Else(what) => return Ok(format!(in alloc; "call {call}: {what}")?),
            }
        }
        Err(NoAnswer::Unreadable)
    }

    /// What comes of the mishap at a call.
    fn try_call<R: Files + AllocGlobal>(
        self,
        rt: &R,
        steps: &[&str],
        call: u64,
        whole: &mut Scene,
        files: u64,
    ) -> Result<Tried, NoAnswer> {
        let mut scene = scene_of(rt, steps)?;
        self.plan(&mut scene, call);
        match scene.run()? {
            Ok(_) => return Ok(Tried::Past),
            Err(BoxFault::Device) => {}
            Err(BoxFault::Differs(_)) => return Ok(Tried::Else("differs")),
            Err(BoxFault::Memory) => return Err(NoAnswer::Memory),
        }
        if self.mishap == Mishap::Stop {
            scene.restart(rt, self.restart)?;
        }
        if !are_within(&mut scene, whole)? {
            return Ok(Tried::Else("other files were left"));
        }
        match scene.run()? {
            Ok(report) if is_counted(report, files) && is_same(&mut scene, whole)? => Ok(
                Tried::Same,
            ),
            Ok(_) => Ok(Tried::Else("other files at the end")),
            Err(_) => Ok(Tried::Else("the next run ended early")),
        }
    }

    fn plan(self, scene: &mut Scene, call: u64) {
        let folder = if self.at_inbox {
            &mut scene.inbox
        } else {
            &mut scene.outbox
        };
        match self.mishap {
            Mishap::Fail => folder.fail_at(call),
            Mishap::Half => folder.fail_after(call),
            Mishap::Stop => folder.stop_at(call),
        }
    }
}

/// What was seen.
enum Tried {
    Same,
    /// There is no such call.
    Past,
    Else(&'static str),
}

/// The scene after the steps.
fn scene_of<R: Files + AllocGlobal>(rt: &R, steps: &[&str]) -> Result<Scene, NoAnswer> {
    let mut scene = Scene::new(rt.alloc());
    let mut answers = Answers::new(rt.alloc());
    for step in steps {
        scene.take(rt, step, &mut answers)?;
    }
    Ok(scene)
}

/// Whether each file of the outbox is one of the other's, whole.
fn are_within(scene: &mut Scene, whole: &Scene) -> Result<bool, NoAnswer> {
    for name in &scene.listed()? {
        if scene.outbox.file(name.as_str()) != whole.outbox.file(name.as_str()) {
            return Ok(false);
        }
    }
    Ok(true)
}

/// Whether both outboxes hold the same.
fn is_same(scene: &mut Scene, whole: &mut Scene) -> Result<bool, NoAnswer> {
    Ok(are_within(scene, whole)? && are_within(whole, scene)?)
}

/// Whether all files are answered.
fn is_counted(report: BoxReport, files: u64) -> bool {
    report.files == files && report.written <= files
}
