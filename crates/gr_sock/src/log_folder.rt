//! The folder of the logs, as the operating system has it.

ghost use Rattle.std.specs.Prelude.{◌≡◌, ◌<◌, false, [], OnOk, string_bytes, vec_len};
ghost use Rattle.gr_sock.specs.LogFolder.{lane_path};

use crate::folder::Folder;
use gr_out::Memory;
use std::alloc::Global;
use std::fs::{DirBuilder, File, OpenOptions, TryLockError};
use std::io::ErrorKind;
use std::os::fd::AsRawFd;
use std::os::unix::fs::{DirBuilderExt, FileExt, MetadataExt, OpenOptionsExt};
use std::rt::Files;
use std::{fs, io};

/// The folder of the logs.
pub const FOLDER: &str = "gryphon-log";

// The folder that it is in.

const PARENT: &str = ".";

// No path of a lane is longer.
const PATH_LEN: usize = 32;

// What the owner of a folder or of a file may do, and nobody else anything.
const FOLDER_MODE: u32 = 0o700;

const FILE_MODE: u32 = 0o600;

/// The folder `gryphon-log` below the current one, in which the file `lane-n` is that of lane n. It tells nothing of
/// what its files hold.
///
/// The folder is locked before its first file is opened, until the process ends: while it is, an `open` of another
/// process is an error. What is made is for its owner alone. Neither the folder nor a file may be a link.
#[derive(Drop)]
pub struct LogFolder<R: Files<File = File>> {
    system: R,
    // The folder, once it is locked.
    folder: Option<File>,
    // The last path that was written, so that its memory is taken once.
    path: String,
    // The files by lane.
    opened: Vec<Option<File>>,
}

impl<R: Files<File = File>> LogFolder<R> {
    /// The folder, of which no file is open. It is made once a file is opened.
    pub fn new(alloc: Global, files: R) -> LogFolder<R> {
        LogFolder {
            system: files,
            folder: None,
            path: String::new(alloc),
            opened: Vec::new(alloc),
        }
    }
}

/// Adds places until the lane has one.
fn extend(opened: &mut Vec<Option<File>>, lane: u16) -> Result<(), Memory>
    ensures { OnOk result (lane < vec_len opened.new) }
{
    'places: while opened.len() <= usize::from(lane) {
        opened.push(None)?;
    }
    Ok(())
}

/// Writes the path of the file of a lane.
fn write_path(path: &mut String, lane: u16) -> Result<(), Memory>
    ensures { OnOk result (string_bytes path.new ≡ lane_path lane) }
{
    path.clear();
    write!(path, "{FOLDER}/lane-{lane}")
}

/// The open file of a lane.
fn file_of(opened: &[Option<File>], lane: u16) -> io::Result<&File> {
    match opened.get(usize::from(lane)) {
        Some(Some(file)) => Ok(file),
        _ => Err(ErrorKind::NotFound.into()),
    }
}

/// Refuses a path that is a link to what was opened by it.
fn refuse_link<R: Files<File = File>>(files: &R, path: &str, opened: &File) -> io::Result<()> {
    let named = fs::symlink_metadata(files, path)?;
    let found = opened.metadata()?;
    if named.dev() != found.dev() || named.ino() != found.ino() {
        return Err(ErrorKind::FilesystemLoop.into());
    }
    Ok(())
}

/// Makes the folder, unless it is there.
fn make_folder<R: Files<File = File>>(files: &R) -> io::Result<()> {
    let mut how = DirBuilder::new();
    how.mode(FOLDER_MODE);
    match how.create(files, FOLDER) {
        Err(error) if error.kind() == ErrorKind::AlreadyExists => Ok(()),
        made => made,
    }
}

/// Locks the folder, until it is closed.
fn locked_folder<R: Files<File = File>>(files: &R) -> io::Result<File> {
    make_folder(files)?;
    let folder = File::open(files, FOLDER)?;
    refuse_link(files, FOLDER, &folder)?;
    match folder.try_lock() {
        Ok(()) => Ok(folder),
        Err(TryLockError::WouldBlock) => Err(io::Error::new(
            ErrorKind::ResourceBusy,
            "another process keeps its logs in this folder",
        )),
        Err(TryLockError::Error(error)) => Err(error),
    }
}

/// Opens the file of a lane. Where there is none it is made.
fn lane_file<R: Files<File = File>>(files: &R, path: &str) -> io::Result<File> {
    let mut how = OpenOptions::new();
    how.read(true).write(true).mode(FILE_MODE);
    let file = match how.open(files, path) {
        // This follows no link either, where `create` would.
        Err(error) if error.kind() == ErrorKind::NotFound => how
            .create_new(true)
            .open(files, path)?,
        opened => opened?,
    };
    refuse_link(files, path, &file)?;
    Ok(file)
}

/// Brings a file that was just opened to the device, and has it read from there from now on. An earlier run may have
/// failed to, and the system then still gives what it wrote.
fn sync_opened(file: &File) -> io::Result<()> {
    file.sync_all()?;
    let advised = libc::posix_fadvise(file.as_raw_fd(), 0, 0, libc::POSIX_FADV_DONTNEED);
    if advised != 0 {
        return Err(io::Error::from_raw_os_error(advised));
    }
    Ok(())
}

impl<R: Files<File = File>> Folder for LogFolder<R> {
    ghost tells = { ⊥ };

    ghost file_of = { λ _ _. record { bytes = []; is_kept = false; is_named = false } };

    fn reserve(&mut self, lane: u16) -> Result<(), Memory> {
        self.path.reserve(PATH_LEN)?;
        extend(&mut self.opened, lane)
    }

    fn open(&mut self, lane: u16) -> io::Result<()> {
        if file_of(&self.opened, lane).is_ok() {
            return Ok(());
        }
        extend(&mut self.opened, lane)?;
        if self.folder.is_none() {
            self.folder = Some(locked_folder(&self.system)?);
        }
        write_path(&mut self.path, lane)?;
        let file = lane_file(&self.system, self.path.as_str())?;
        sync_opened(&file)?;
        self.opened[usize::from(lane)] = Some(file);
        Ok(())
    }

    fn size(&mut self, lane: u16) -> io::Result<u64> {
        Ok(file_of(&self.opened, lane)?.metadata()?.len())
    }

    fn read_some(&mut self, lane: u16, at: u64, into: &mut [u8]) -> io::Result<usize> {
        file_of(&self.opened, lane)?.read_at(into, at)
    }

    fn write_some(&mut self, lane: u16, at: u64, bytes: &[u8]) -> io::Result<usize> {
        file_of(&self.opened, lane)?.write_at(bytes, at)
    }

    fn cut(&mut self, lane: u16, len: u64) -> io::Result<()> {
        file_of(&self.opened, lane)?.set_len(len)
    }

    fn sync(&mut self, lane: u16) -> io::Result<()> {
        file_of(&self.opened, lane)?.sync_data()
    }

    fn sync_name(&mut self, lane: u16) -> io::Result<()> {
        file_of(&self.opened, lane)?;
        match &self.folder {
            Some(folder) => folder.sync_all()?,
            None => return Err(ErrorKind::NotFound.into()),
        }
        File::open(&self.system, PARENT)?.sync_all()
    }
}
