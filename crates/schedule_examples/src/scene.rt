//! A schedule as far as it goes, with the columns that a case takes in turn. A name stands for the address `mailto:NAME@example.com`.
//!
//! - `rooms NAMES`, `organisers NAMES`: whom the world hosts; `zone NAME WORDS`: the zone of the rooms of that name among them;
//! - `now STAMP`: the moment of the steps after it;
//! - `store NAME FILE`: the organiser of that name is given the octets of a file to store; `octets NAME TEXT`: those that a text spells;
//! - `deliver NUMBER NAME`: a sent message is delivered to an address;
//! - anything else is a question about the world that these steps lead to (`questions`).

use crate::names::{address_of, addresses_of, rooms_of};
use crate::questions;
use cal_zones::RoomZone;
use example_cases::spelled::octets_of;
use example_cases::words::{count, first_word};
use example_cases::{Answers, NoAnswer};
use ical_values::{Address, Stamp};
use sched_box::{Step, World, ZonedRoom, play};
use std::alloc::Global;
use std::fs;
use std::rt::Files;

/// The moment of the first steps.
const NOW: &str = "20250102T000000Z";

/// Who is hosted, the steps so far, and the world that they lead to once it was asked about.
#[derive(Drop)]
pub struct Scene {
    alloc: Global,
    rooms: Vec<ZonedRoom>,
    organisers: Vec<Address>,
    now: Stamp,
    steps: Vec<Step>,
    world: Option<World>,
}

impl Scene {
    /// Nobody is hosted, and nothing happened.
    pub fn new(alloc: Global) -> Result<Scene, NoAnswer> {
        let now = Stamp::read(NOW)?;
        Ok(Scene {
            alloc,
            rooms: Vec::new(alloc),
            organisers: Vec::new(alloc),
            now,
            steps: Vec::new(alloc),
            world: None,
        })
    }

    /// Takes a column of a case, and adds what it answers.
    pub fn take<R: Files + AllocGlobal>(
        &mut self,
        rt: &R,
        column: &str,
        answers: &mut Answers,
    ) -> Result<(), NoAnswer> {
        let (word, rest) = first_word(column);
        match word {
            "rooms" => self.rooms = rooms_of(self.alloc, rest)?,
            "zone" => self.put_in_zone(rest)?,
            "organisers" => self.organisers = addresses_of(self.alloc, rest)?,
            "now" => self.now = Stamp::read(rest)?,
            "store" | "octets" | "deliver" => self.add(rt, word, rest)?,
            _ => self.ask(column, answers)?,
        }
        Ok(())
    }

    /// Gives the rooms of a name a zone, by its words.
    fn put_in_zone(&mut self, text: &str) -> Result<(), NoAnswer> {
        let (name, words) = first_word(text);
        let address = address_of(self.alloc, name)?;
        let zone = RoomZone::read(self.alloc, words)?;
        for room in self.rooms.iter_mut() {
            if room.address == address {
                room.zone = zone;
            }
        }
        self.world = None;
        Ok(())
    }

    /// Adds a step.
    fn add<R: Files + AllocGlobal>(
        &mut self,
        rt: &R,
        word: &str,
        rest: &str,
    ) -> Result<(), NoAnswer> {
        let (first, second) = first_word(rest);
        let step = match word {
            "store" => self.storing(first, fs::read(rt, second)?)?,
            "octets" => self.storing(first, octets_of(self.alloc, second)?)?,
            _ => self.delivering(first, second)?,
        };
        self.steps.push(step)?;
        self.world = None;
        Ok(())
    }

    /// The step of giving an organiser an object to store.
    fn storing(&self, name: &str, object: Vec<u8>) -> Result<Step, NoAnswer> {
        let organiser = address_of(self.alloc, name)?;
        Ok(Step::Store {
            organiser,
            object,
            now: self.now,
        })
    }

    /// The step of delivering a message.
    fn delivering(&self, number: &str, name: &str) -> Result<Step, NoAnswer> {
        let message = count(number)?;
        let to = address_of(self.alloc, name)?;
        Ok(Step::Deliver {
            message,
            to,
            now: self.now,
        })
    }

    /// Adds what the world answers to a question.
    fn ask(&mut self, question: &str, answers: &mut Answers) -> Result<(), NoAnswer> {
        if self.world.is_none() {
            let world = play(
                self.alloc,
                self.rooms.as_slice(),
                self.organisers.as_slice(),
                self.steps.as_slice(),
            )?;
            self.world = Some(world);
        }
        match &self.world {
            Some(world) => {
                let answer = questions::answer(self.alloc, world, question)?;
                answers.add(answer.as_str())?;
                Ok(())
            }
            None => Err(NoAnswer::Unreadable),
        }
    }
}
