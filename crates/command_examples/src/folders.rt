//! Cases of a box that runs over folders in memory: what its steps answer, one after another.

use crate::scene::Scene;
use crate::sweep;
use example_cases::{Answers, Case, NoAnswer};
use std::rt::Files;

/// What the steps of a case answer.
pub fn answer<R: Files + AllocGlobal>(rt: &R, case: Case<'_>) -> Result<String, NoAnswer> {
    let alloc = rt.alloc();
    let steps = case.columns_from(alloc, 1)?;
    let mut answers = Answers::new(alloc);
    let mut scene = Scene::new(alloc);
    for (place, step) in steps.iter().enumerate() {
        match sweep::of(step) {
            Some(sweep) => answers.add(sweep.answer(rt, &steps[..place])?.as_str())?,
            None => scene.take(rt, step, &mut answers)?,
        }
    }
    Ok(answers.finish())
}
