//! A disk over a folder, with a file for each object. It tells nothing of its content.
ghost use Rattle.std.specs.Prelude.{◌≡◌, false, [], IfErr, Ok, Err, MatchResult};
ghost use Rattle.std.specs.FinMap.{empty};
ghost use Rattle.outside_world.specs.Disk.{DiskHasCause};

use crate::traits::count_failure;
use crate::{Disk, DiskFault};
use mvcc_keys::Text;
use std::alloc::Global;
use std::fs::{DirEntry, OpenFile};
use std::io::{ErrorKind, Read, Write};
use std::path::AsPath;
use std::rt::Files;
use std::{fs, io};

const FOLDER: &str = "backup-store";

/// The most bytes of an object, and the most names of a listing.
const MOST: u64 = 4_294_967_295;

/// The folder `backup-store`. The first put makes it; making the disk touches no file. A put
/// that is cut off may leave any bytes in its file, and harms no other.
#[derive(Drop)]
pub struct FolderDisk<'a, R> {
    alloc: Global,
    rt: &'a R,
    /// The names put since the last sync that was Ok.
    written: Vec<Text>,
    /// Whether the folder, or files that an earlier run left in it, may not be on the disk yet.
    fresh: bool,
    faults: u64,
}

/// The answer, once a failure is counted.
fn counted<T>(faults: &mut u64, answer: Result<T, DiskFault>) -> Result<T, DiskFault>
    ensures same { result ≡ answer }
    ensures cause { DiskHasCause faults.old faults.new result }
{
    if let Err(DiskFault::Failed) = answer {
        count_failure(faults);
    }
    answer
}

/// What a call that writes answers. Where the system had no memory for it, it failed.
fn written<T>(done: io::Result<T>) -> Result<T, DiskFault>
    ensures { MatchResult done (λ x. result ≡ Ok x) (λ _. result ≡ Err DiskFault.Failed) }
{
    match done {
        Ok(value) => Ok(value),
        Err(_) => Err(DiskFault::Failed),
    }
}

/// What a call that only reads answers.
fn read<T>(done: io::Result<T>) -> Result<T, DiskFault> {
    match done {
        Ok(value) => Ok(value),
        Err(fault) if fault.kind() == ErrorKind::OutOfMemory => Err(DiskFault::Memory),
        Err(_) => Err(DiskFault::Failed),
    }
}

/// What a call on something that may be absent answers.
fn present<T>(done: io::Result<T>) -> io::Result<Option<T>> {
    match done {
        Ok(value) => Ok(Some(value)),
        Err(fault) if fault.kind() == ErrorKind::NotFound => Ok(None),
        Err(fault) => Err(fault),
    }
}

/// The path of an object's file. A slash would lead out of the folder.
fn path_of(alloc: Global, name: &Text) -> Result<String, DiskFault> {
    if name.as_bytes().contains(&b'/') {
        return Err(DiskFault::Failed);
    }
    let mut path = String::from_str(alloc, FOLDER)?;
    path.push('/')?;
    path.push_str(name.as_str())?;
    Ok(path)
}

fn read_file<R: Files>(rt: &R, alloc: Global, path: &str) -> io::Result<Option<Vec<u8>>> {
    let Some(file) = present(fs::open(rt, path))? else {
        return Ok(None);
    };
    let mut bytes = Vec::new(alloc);
    file.take(MOST + 1).read_to_end(&mut bytes)?;
    if bytes.len() as u64 > MOST {
        return Err(ErrorKind::FileTooLarge.into());
    }
    Ok(Some(bytes))
}

/// Opens a file to write it anew, and makes the folder where it is absent.
fn create_file<R: Files>(rt: &R, path: &str, fresh: &mut bool) -> io::Result<R::File> {
    if let Some(file) = present(fs::create(rt, path))? {
        return Ok(file);
    }
    fs::create_dir(rt, FOLDER)?;
    *fresh = true;
    fs::create(rt, path)
}

fn write_file<R: Files>(rt: &R, path: &str, bytes: &[u8], fresh: &mut bool) -> io::Result<()> {
    if bytes.len() as u64 > MOST {
        return Err(ErrorKind::FileTooLarge.into());
    }
    create_file(rt, path, fresh)?.write_all(bytes)
}

/// Waits until a file or a folder is on the disk. One that is gone has nothing to wait for.
fn sync_path<R: Files, P: AsPath>(rt: &R, path: P) -> io::Result<()> {
    match present(fs::open(rt, path))? {
        Some(file) => file.sync_all(),
        None => Ok(()),
    }
}

fn sync_names<R: Files>(rt: &R, alloc: Global, names: &[Text]) -> Result<(), DiskFault> {
    for name in names {
        let path = path_of(alloc, name)?;
        written(sync_path(rt, path.as_str()))?;
    }
    Ok(())
}

fn sync_entry<R: Files + Alloc + Clone + Drop>(
    rt: &R,
    entry: io::Result<DirEntry<R, R::A>>,
) -> io::Result<()> {
    match entry {
        Ok(entry) if entry.file_type()?.is_file() => sync_path(rt, entry.path()),
        Ok(_) => Ok(()),
        // No object has a name that isn't text.
        Err(fault) if fault.kind() == ErrorKind::InvalidFilename => Ok(()),
        Err(fault) => Err(fault),
    }
}

/// Waits for every file of the folder, also those that an earlier run left in it.
fn sync_all_files<R: Files + Alloc + Clone + Drop>(rt: &R) -> io::Result<()> {
    let Some(entries) = present(fs::read_dir(rt, FOLDER))? else {
        return Ok(());
    };
    for entry in entries {
        sync_entry(rt, entry)?;
    }
    Ok(())
}

/// The name of an entry, unless it is a folder.
fn entry_name<R: Files + Alloc + Clone + Drop>(
    alloc: Global,
    entry: &DirEntry<R, R::A>,
) -> io::Result<Option<String>> {
    if entry.file_type()?.is_dir() {
        return Ok(None);
    }
    Ok(Some(String::from_str(alloc, entry.file_name())?))
}

fn list_names<R: Files + Alloc + Clone + Drop>(rt: &R, alloc: Global) -> io::Result<Vec<Text>> {
    let mut names: Vec<String> = Vec::new(alloc);
    let Some(entries) = present(fs::read_dir(rt, FOLDER))? else {
        return Ok(Vec::new(alloc));
    };
    for entry in entries {
        if names.len() as u64 >= MOST {
            return Err(ErrorKind::FileTooLarge.into());
        }
        if let Some(name) = entry_name(alloc, &entry?)? {
            names.push(name)?;
        }
    }
    names.sort()?;
    texts_of(alloc, names)
}

fn texts_of(alloc: Global, names: Vec<String>) -> io::Result<Vec<Text>> {
    let mut texts = Vec::with_capacity(alloc, names.len())?;
    for name in names {
        texts.push(Text::from_string(name))?;
    }
    Ok(texts)
}

impl<'a, R: Files + Alloc + Clone + Drop> FolderDisk<'a, R> {
    pub fn new(alloc: Global, rt: &'a R) -> FolderDisk<'a, R>
        ensures tells { (⟦<FolderDisk<'a, R> as Disk>⟧.view result).tells ≡ false }
        ensures faults { (⟦<FolderDisk<'a, R> as Disk>⟧.view result).faults ≡ 0 }
    {
        FolderDisk {
            alloc,
            rt,
            written: Vec::new(alloc),
            fresh: true,
            faults: 0,
        }
    }

    /// Notes that the name is being written.
    fn note(&mut self, name: &Text) -> Result<(), DiskFault>
        ensures faults { self.new.faults ≡ self.old.faults }
        ensures memory { IfErr result (λ e. e ≡ DiskFault.Memory) }
    {
        if self
            .written
            .iter()
            .any(|other| other.as_str() == name.as_str())
        {
            return Ok(());
        }
        self.written.push(name.copy(self.alloc)?)?;
        Ok(())
    }

    /// Each file that isn't on the disk yet, and then the names.
    fn settle(&self) -> Result<(), DiskFault> {
        if self.fresh {
            written(sync_all_files(self.rt))?;
        } else {
            sync_names(self.rt, self.alloc, &self.written)?;
        }
        written(sync_path(self.rt, FOLDER))?;
        if self.fresh {
            written(sync_path(self.rt, "."))?;
        }
        Ok(())
    }
}

impl<'a, R: Files + Alloc + Clone + Drop> Disk for FolderDisk<'a, R> {
    ghost use Rattle.outside_world.specs.Disk.{View, never_known};

    ghost view = { λ d. record { tells = false; honest = false; objects = empty; touched = λ _. false; calls = []; moment = 0; left_since = λ _ _. Unit {0}; faults = d.faults } };

    ghost counts_now = { λ d t image known. absurd (never_known known.tells) };

    ghost only_now = { λ d known. absurd (never_known known.tells) };

    fn names(&mut self, alloc: Global) -> Result<Vec<Text>, DiskFault> {
        let names = read(list_names(self.rt, alloc));
        counted(&mut self.faults, names)
    }

    fn get(&mut self, alloc: Global, name: &Text) -> Result<Option<Vec<u8>>, DiskFault> {
        let path = counted(&mut self.faults, path_of(alloc, name))?;
        let found = read(read_file(self.rt, alloc, path.as_str()));
        counted(&mut self.faults, found)
    }

    fn put(&mut self, name: &Text, bytes: &[u8]) -> Result<(), DiskFault> {
        let path = counted(&mut self.faults, path_of(self.alloc, name))?;
        self.note(name)?;
        let done = written(write_file(self.rt, path.as_str(), bytes, &mut self.fresh));
        counted(&mut self.faults, done)
    }

    fn remove(&mut self, name: &Text) -> Result<(), DiskFault> {
        let path = counted(&mut self.faults, path_of(self.alloc, name))?;
        let done = written(present(fs::remove_file(self.rt, path.as_str())).map(|_| ()));
        counted(&mut self.faults, done)
    }

    fn sync(&mut self) -> Result<(), DiskFault> {
        let done = self.settle();
        counted(&mut self.faults, done)?;
        self.written.clear();
        self.fresh = false;
        Ok(())
    }
}
