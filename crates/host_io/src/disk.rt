//! Clips as files. What the system does with their bytes is taken on trust, and nothing is told of them.
ghost use Rattle.std.specs.Prelude.{◌≡◌, None, IfOk};
ghost use Rattle.std.specs.Io.{ReadsAtMost};

use crate::standard::read_some;
use crate::{ClipStore, Failed};
use arrayvec::ArrayString;
use std::fs;
use std::io::{ErrorKind, Seek, SeekFrom};
use std::rt::Files;

// The folder that the clips are in, below the current one.
const FOLDER: &str = "clips/";

// Room for a path: the folder's, and the longest name that a system has for a file.
type ClipPath = ArrayString<261>;

/// The files of the folder `clips` below the current one, by name. A file that is missing, or of which the folder is
/// missing, is no clip; one that cannot be read, or that is no plain file, is a fault.
///
/// The file that was last asked for stays open until its last byte is read or another one is asked for.
#[derive(Drop)]
pub struct FolderClips<R: Files> {
    files: R,
    open: Option<OpenClip<R>>,
    faults: u64,
}

// An open file: how long it was when it was opened, and the place that is read next.
#[derive(Drop)]
struct OpenClip<R: Files> {
    path: ClipPath,
    file: R::File,
    length: u64,
    at: u64,
}

// The path of the name's file. None: no file has such a name.
fn path_of(name: &str) -> Option<ClipPath> {
    if name.contains('/') {
        return None;
    }
    let mut path = ClipPath::new();
    path.try_push_str(FOLDER).ok()?;
    path.try_push_str(name).ok()?;
    Some(path)
}

impl<R: Files + Drop> OpenClip<R> {
    // Opens the file, where there is one.
    fn open(files: &R, path: ClipPath) -> Result<Option<OpenClip<R>>, Failed> {
        let length = match fs::metadata(files, path.as_str()) {
            Ok(about) if about.is_file() => about.len(),
            Ok(_) => return Err(Failed),
            Err(error) if error.kind() == ErrorKind::NotFound => return Ok(None),
            Err(_) => return Err(Failed),
        };
        let file = fs::open(files, path.as_str()).map_err(|_| Failed)?;
        Ok(Some(OpenClip {
            path,
            file,
            length,
            at: 0,
        }))
    }

    // Reads from the place on.
    fn read_at(&mut self, place: u64, into: &mut [u8]) -> Result<usize, Failed>
        ensures bound { ReadsAtMost result into.new }
    {
        if place >= self.length {
            return Ok(0);
        }
        if place != self.at {
            self.at = self.file.seek(SeekFrom::Start(place)).map_err(|_| Failed)?;
        }
        let count = read_some(&mut self.file, into)?;
        self.at = place.saturating_add(count as u64);
        Ok(count)
    }
}

impl<R: Files + Drop> FolderClips<R> {
    /// The files, with none open and no fault counted yet.
    pub fn new(files: R) -> FolderClips<R>
        ensures faults { result.faults ≡ 0 }
    {
        FolderClips {
            files,
            open: None,
            faults: 0,
        }
    }

    // Opens the name's file in place of the one that is open, and answers its length.
    fn open(&mut self, name: &str) -> Result<Option<u64>, Failed>
        ensures { self.new.faults ≡ self.old.faults }
    {
        self.open = None;
        let Some(path) = path_of(name) else {
            return Ok(None);
        };
        self.open = OpenClip::open(&self.files, path)?;
        Ok(self.open.as_ref().map(|clip| clip.length))
    }

    // Opens the name's file, unless it is the one that is open.
    fn keep_open(&mut self, name: &str) -> Result<(), Failed>
        ensures { self.new.faults ≡ self.old.faults }
    {
        let Some(path) = path_of(name) else {
            self.open = None;
            return Ok(());
        };
        if let Some(clip) = &self.open {
            if clip.path.as_str() == path.as_str() {
                return Ok(());
            }
        }
        self.open = None;
        self.open = OpenClip::open(&self.files, path)?;
        Ok(())
    }

    // Reads from a place of the name's file on, and closes it behind its last byte.
    fn read_from(&mut self, name: &str, place: u64, into: &mut [u8]) -> Result<usize, Failed>
        ensures bound { ReadsAtMost result into.new }
        ensures faults { self.new.faults ≡ self.old.faults }
    {
        self.keep_open(name)?;
        let Some(clip) = &mut self.open else {
            return Ok(0);
        };
        let count = clip.read_at(place, into)?;
        if count == 0 || clip.at >= clip.length {
            self.open = None;
        }
        Ok(count)
    }
}

impl<R: Files + Drop> ClipStore for FolderClips<R> {
    ghost clips = { λ _. None };

    ghost faults = { λ s. s.faults };

    fn length(&mut self, name: &str) -> Result<Option<u64>, Failed> {
        let outcome = self.open(name);
        if outcome.is_err() {
            self.faults = self.faults.saturating_add(1);
        }
        outcome
    }

    fn read_at(&mut self, name: &str, place: u64, into: &mut [u8]) -> Result<usize, Failed> {
        let outcome = self.read_from(name, place, into);
        if outcome.is_err() {
            self.faults = self.faults.saturating_add(1);
        }
        outcome
    }
}

/// The files of the folder `clips` of the system.
pub type DiskClips = FolderClips<HostRuntime>;
