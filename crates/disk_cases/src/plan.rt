//! What a case asks for beside its calls.
use crate::spelling::{name_of, number, word};
use layer_model::{LayerName, read_name};
use mvcc_keys::{Blob, Memory, Text};
use std::alloc::Global;

/// What the calls of a case are made on.
#[derive(Clone, Copy)]
pub enum Subject {
    Memory,
    All,
    Folder,
    Streams,
}

/// The subject, the front of the layer's names and its manifest, which stay until others come;
/// and of one case the objects that are there at first, what fails, and what is shown.
#[derive(Drop)]
pub struct Plan {
    pub subject: Subject,
    pub front: String,
    pub manifest: Vec<u8>,
    pub objects: Vec<(Text, Blob)>,
    pub fails: Vec<u64>,
    pub stop: Option<u64>,
    pub shows_objects: bool,
    pub shows_touched: bool,
    pub shows_calls: bool,
    pub shows_gets: bool,
    pub tries_stops: bool,
}

fn subject_of(text: &str) -> Subject {
    match text {
        "all" => Subject::All,
        "folder" => Subject::Folder,
        "streams" => Subject::Streams,
        _ => Subject::Memory,
    }
}

fn set_text(text: &mut String, to: &str) -> Result<(), Memory> {
    text.clear();
    Ok(text.push_str(to)?)
}

fn set_hex(alloc: Global, bytes: &mut Vec<u8>, digits: &str) -> Result<(), Memory> {
    match hex::decode(alloc, digits) {
        Ok(decoded) => Ok(*bytes = decoded),
        Err(_) => Err(Memory),
    }
}

fn set_numbers(numbers: &mut Vec<u64>, text: &str) -> Result<(), Memory> {
    for digits in text.split(' ') {
        numbers.push(number(digits))?;
    }
    Ok(())
}

impl Plan {
    pub fn new(alloc: Global) -> Plan {
        Plan {
            subject: Subject::Memory,
            front: String::new(alloc),
            manifest: Vec::new(alloc),
            objects: Vec::new(alloc),
            fails: Vec::new(alloc),
            stop: None,
            shows_objects: false,
            shows_touched: false,
            shows_calls: false,
            shows_gets: false,
            tries_stops: false,
        }
    }

    /// Forgets what is asked for one case alone.
    pub fn begin(&mut self) {
        self.objects.clear();
        self.fails.clear();
        self.stop = None;
        self.shows_objects = false;
        self.shows_touched = false;
        self.shows_calls = false;
        self.shows_gets = false;
        self.tries_stops = false;
    }

    /// Adds an object: its name, and its bytes in hex.
    fn add_object(&mut self, alloc: Global, text: &str) -> Result<(), Memory> {
        let Ok(bytes) = hex::decode(alloc, word(text, 1)) else {
            return Err(Memory);
        };
        let name = name_of(alloc, self.front.as_str(), word(text, 0))?;
        Ok(self.objects.push((name, Blob::from_vec(bytes)))?)
    }

    fn show(&mut self, what: &str) {
        match what {
            "objects" => self.shows_objects = true,
            "touched" => self.shows_touched = true,
            "calls" => self.shows_calls = true,
            "gets" => self.shows_gets = true,
            _ => self.tries_stops = true,
        }
    }

    pub fn set(&mut self, alloc: Global, setting: &str) -> Result<(), Memory> {
        let (name, rest) = setting.split_once(' ').unwrap_or((setting, ""));
        match name {
            "on" => Ok(self.subject = subject_of(rest)),
            "front" => set_text(&mut self.front, rest),
            "manifest" => set_hex(alloc, &mut self.manifest, rest),
            "object" => self.add_object(alloc, rest),
            "fails" => set_numbers(&mut self.fails, rest),
            "stop" => Ok(self.stop = Some(number(rest))),
            "show" => Ok(self.show(rest)),
            _ => Err(Memory),
        }
    }

    /// The layer whose names begin with the front.
    pub fn layer(&self, alloc: Global) -> Result<LayerName, Memory> {
        let gate = name_of(alloc, self.front.as_str(), "~gate")?;
        match read_name(alloc, &gate)? {
            Some(name) => Ok(name.layer),
            None => Err(Memory),
        }
    }
}
