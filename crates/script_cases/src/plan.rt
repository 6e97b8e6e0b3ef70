//! What a case asks for beside its script.
use crate::objects::{copy_objects, cut, put_object, remove};
use mvcc_keys::{Blob, Memory, Text};
use std::alloc::Global;

/// The words of the program, what fails, and the objects that are there at first.
#[derive(Drop)]
pub struct Plan {
    pub words: Vec<Text>,
    /// The most bytes that a read gives.
    pub piece: usize,
    pub reads: Vec<u64>,
    pub room: usize,
    pub writes: Vec<u64>,
    pub calls: Vec<u64>,
    pub stop: Option<u64>,
    /// The limits of events and of tables, where a case has some.
    pub limits: Vec<u64>,
    /// The wall and the counter of the clock at first, where a case has some.
    pub clock: Vec<u64>,
    pub objects: Vec<(Text, Blob)>,
    left: Vec<(Text, Blob)>,
    /// The names of objects are shown without this front.
    pub front: String,
    pub shows_calls: bool,
    pub shows_objects: bool,
    pub tries_stops: bool,
}

fn set_numbers(numbers: &mut Vec<u64>, text: &str) -> Result<(), Memory> {
    for number in text.split(' ') {
        numbers.push(number.parse::<u64>().unwrap_or(0))?;
    }
    Ok(())
}

fn size_of(text: &str) -> usize {
    text.parse::<usize>().unwrap_or(0)
}

impl Plan {
    pub fn new(alloc: Global) -> Plan {
        Plan {
            words: Vec::new(alloc),
            piece: 65_536,
            reads: Vec::new(alloc),
            room: 65_536,
            writes: Vec::new(alloc),
            calls: Vec::new(alloc),
            stop: None,
            limits: Vec::new(alloc),
            clock: Vec::new(alloc),
            objects: Vec::new(alloc),
            left: Vec::new(alloc),
            front: String::new(alloc),
            shows_calls: false,
            shows_objects: false,
            tries_stops: false,
        }
    }

    /// Forgets what the last case asked for, and keeps the objects that it left.
    pub fn begin(&mut self, alloc: Global, left: &[(Text, Blob)]) -> Result<(), Memory> {
        self.words.clear();
        self.piece = 65_536;
        self.reads.clear();
        self.room = 65_536;
        self.writes.clear();
        self.calls.clear();
        self.stop = None;
        self.limits.clear();
        self.clock.clear();
        self.objects.clear();
        self.shows_calls = false;
        self.shows_objects = false;
        self.tries_stops = false;
        self.left.clear();
        copy_objects(alloc, left, &mut self.left)
    }

    fn set_front(&mut self, front: &str) -> Result<(), Memory> {
        self.front.clear();
        Ok(self.front.push_str(front)?)
    }

    fn set_show(&mut self, what: &str) {
        match what {
            "calls" => self.shows_calls = true,
            "objects" => self.shows_objects = true,
            _ => self.tries_stops = true,
        }
    }

    pub fn set(&mut self, alloc: Global, setting: &str) -> Result<(), Memory> {
        let (word, rest) = setting.split_once(' ').unwrap_or((setting, ""));
        match word {
            "word" => Ok(self.words.push(Text::copy_of(alloc, rest)?)?),
            "piece" => Ok(self.piece = size_of(rest)),
            "reads" => set_numbers(&mut self.reads, rest),
            "room" => Ok(self.room = size_of(rest)),
            "writes" => set_numbers(&mut self.writes, rest),
            "calls" => set_numbers(&mut self.calls, rest),
            "stop" => Ok(self.stop = Some(rest.parse::<u64>().unwrap_or(0))),
            "limits" => set_numbers(&mut self.limits, rest),
            "clock" => set_numbers(&mut self.clock, rest),
            "front" => self.set_front(rest),
            "show" => Ok(self.set_show(rest)),
            "left" => copy_objects(alloc, &self.left, &mut self.objects),
            "put" => put_object(alloc, &self.front, rest, &mut self.objects),
            "remove" => Ok(remove(&self.front, rest, &mut self.objects)),
            "cut" => cut(alloc, &self.front, rest, &mut self.objects),
            _ => Err(Memory),
        }
    }
}
