// The file of a flash, and its lock. It is a part of the trusted edge.
use crate::BLOCK;
use std::fs::{self, File, OpenOptions, Permissions};
use std::io::{self, ErrorKind, Seek, SeekFrom, Write};
use std::mem;
use std::os::unix::fs::{FileExt, MetadataExt, OpenOptionsExt, PermissionsExt};
use std::path::Path;
use std::rt::Files;

// The file of this name. It holds the cells from position 0 on, and what lies past its end reads FF.
//
// It is opened for reading alone, under a shared lock, and only a write opens it for writing, under
// a lock that excludes all others. A lock is held to the end of the run, and nothing waits for one.
#[derive(Drop)]
pub(crate) struct FlashFile<'r, R> {
    rt: &'r R,
    name: &'r str,
    stage: Stage,
}

#[derive(Drop)]
enum Stage {
    // No call has asked for it yet.
    Unasked,
    // It wasn't there when the first call asked for it.
    Absent,
    Reading(Opened),
    // The first holds the lock, and the second is open for reading and writing.
    Writing(File, Opened),
    // Opening, locking or writing failed. What stands there isn't known, so each later call fails.
    Failed,
}

// An open file, and how it stood when its length was last known.
#[derive(Drop)]
struct Opened {
    file: File,
    standing: Standing,
}

// Which file it is, its octets, and when it was last written, in seconds and nanoseconds.
#[derive(Clone, Copy, PartialEq, Eq)]
struct Standing {
    device: u64,
    node: u64,
    length: u64,
    written: (i64, i64),
}

impl<'r, R: Files<File = File>> FlashFile<'r, R> {
    pub(crate) fn new(rt: &'r R, name: &'r str) -> FlashFile<'r, R> {
        FlashFile {
            rt,
            name,
            stage: Stage::Unasked,
        }
    }

    pub(crate) fn read(&mut self, at: u32, into: &mut [u8]) -> io::Result<()> {
        self.ask()?;
        match &self.stage {
            Stage::Reading(opened) | Stage::Writing(_, opened) => opened.read(at, into),
            Stage::Absent => {
                into.fill(0xff);
                Ok(())
            }
            Stage::Unasked | Stage::Failed => Err(failed()),
        }
    }

    pub(crate) fn sync(&mut self) -> io::Result<()> {
        self.ask()?;
        match &self.stage {
            Stage::Reading(opened) | Stage::Writing(_, opened) => opened.file.sync_all(),
            Stage::Absent => Ok(()),
            Stage::Unasked | Stage::Failed => Err(failed()),
        }
    }

    pub(crate) fn write(&mut self, at: u32, bytes: &[u8]) -> io::Result<()> {
        self.ask()?;
        // The stage is `Failed` until all is done.
        let (lock, mut opened) = match mem::replace(&mut self.stage, Stage::Failed) {
            Stage::Writing(lock, opened) => (lock, opened),
            Stage::Reading(opened) => take_over(self.rt, self.name, opened)?,
            Stage::Absent => take_over(self.rt, self.name, make(self.rt, self.name)?)?,
            Stage::Unasked | Stage::Failed => return Err(failed()),
        };
        opened.write(at, bytes)?;
        self.stage = Stage::Writing(lock, opened);
        Ok(())
    }

    // Opens the file for reading, where no call has yet.
    fn ask(&mut self) -> io::Result<()> {
        if let Stage::Unasked = self.stage {
            self.stage = Stage::Failed;
            self.stage = match open_shared(self.rt, self.name)? {
                Some(opened) => Stage::Reading(opened),
                None => Stage::Absent,
            };
        }
        Ok(())
    }
}

impl Opened {
    fn read(&self, at: u32, into: &mut [u8]) -> io::Result<()> {
        let at = u64::from(at);
        let present = self
            .standing
            .length
            .saturating_sub(at)
            .min(into.len() as u64);
        let (front, rest) = into.split_at_mut(present as usize);
        rest.fill(0xff);
        self.file.read_exact_at(front, at)
    }

    fn write(&mut self, at: u32, bytes: &[u8]) -> io::Result<()> {
        let at = u64::from(at);
        let length = self.standing.length;
        if let Some(gap @ 1..) = at.checked_sub(length) {
            fill_gap(&mut self.file, length, gap)?;
        }
        self.file.write_all_at(bytes, at)?;
        self.standing.length = length.max(at.saturating_add(bytes.len() as u64));
        Ok(())
    }
}

fn failed() -> io::Error {
    io::Error::from(ErrorKind::Other)
}

// Opens a file at a descriptor above those of the standard streams: where one of these is closed,
// the system would give the file its number, and the clone's is above them all.
fn open_above<R: Files<File = File>>(rt: &R, how: &OpenOptions, name: &str) -> io::Result<File> {
    how.open(rt, name)?.try_clone()
}

fn stands(file: &File) -> io::Result<Standing> {
    let known = file.metadata()?;
    Ok(Standing {
        device: known.dev(),
        node: known.ino(),
        length: known.len(),
        written: (known.mtime(), known.mtime_nsec()),
    })
}

// Opens the file for reading under a shared lock, or answers that it isn't there. A thing that is no
// plain file is an error: to open a pipe would wait.
fn open_shared<R: Files<File = File>>(rt: &R, name: &str) -> io::Result<Option<Opened>> {
    match fs::metadata(rt, name) {
        Ok(found) if found.is_file() => {
            let file = open_above(rt, OpenOptions::new().read(true), name)?;
            file.try_lock_shared()?;
            let standing = stands(&file)?;
            Ok(Some(Opened { file, standing }))
        }
        Ok(_) => Err(failed()),
        Err(error) if error.kind() == ErrorKind::NotFound => {
            open_folder(rt, name)?;
            Ok(None)
        }
        Err(error) => Err(error),
    }
}

// Makes the file, which its owner alone may read and write, whatever the umask: it may hold a key.
// It is an error where another has made it since, and where another has written it.
fn make<R: Files<File = File>>(rt: &R, name: &str) -> io::Result<Opened> {
    OpenOptions::new()
        .write(true)
        .create_new(true)
        .mode(0o600)
        .open(rt, name)?
        .set_permissions(Permissions::from_mode(0o600))?;
    match open_shared(rt, name)? {
        Some(opened) if opened.standing.length == 0 => Ok(opened),
        _ => Err(failed()),
    }
}

// Takes the lock that excludes all others, and opens the file for writing.
//
// The cells that were read must be those that stand there now: two runs that read one leaf as unspent
// must not both sign with it. While the shared lock is held nobody writes; and since a system may let
// go of it before it gives the other, the file must stand as it stood under the shared one.
// What the folder names is made to last before the first write.
fn take_over<R: Files<File = File>>(
    rt: &R,
    name: &str,
    read: Opened,
) -> io::Result<(File, Opened)> {
    read.file.try_lock()?;
    let file = open_above(rt, OpenOptions::new().read(true).write(true), name)?;
    let standing = stands(&file)?;
    if standing != read.standing {
        return Err(failed());
    }
    open_folder(rt, name)?.sync_all()?;
    Ok((read.file, Opened { file, standing }))
}

fn open_folder<R: Files<File = File>>(rt: &R, name: &str) -> io::Result<File> {
    let folder = match Path::new(name).parent() {
        Some(folder) if !folder.as_str().is_empty() => folder.as_str(),
        _ => ".",
    };
    open_above(rt, OpenOptions::new().read(true), folder)
}

// Writes so many octets FF from the file's end on, a block at a time, and makes them last: no
// position of the gap is pending.
fn fill_gap(file: &mut File, end: u64, gap: u64) -> io::Result<()> {
    let erased = [0xff; BLOCK as usize];
    file.seek(SeekFrom::Start(end))?;
    for _ in 0..gap / u64::from(BLOCK) {
        file.write_all(&erased)?;
    }
    file.write_all(&erased[..(gap % u64::from(BLOCK)) as usize])?;
    file.sync_all()
}
