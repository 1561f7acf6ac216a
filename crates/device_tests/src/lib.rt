//! Readers that give an octet a call, and readers and writers that fail at their first, second, .. call: what `sched_box` then writes and
//! answers. A program reads whole files, so these are `#[test]` functions with a fake reader and a fake writer, the only ones of the
//! repository. Nothing depends on this crate.
#![tactic(auto)]

#[cfg(test)]
mod tests;
