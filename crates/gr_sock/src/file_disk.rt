//! A disk of which each lane is a file.

ghost use Rattle.std.specs.Prelude.{◌≡◌, ℕ, ◌<◌, ◌≤◌, ◌+◌, true, false, get_or, length, take, drop, IfOk, OnOk, OnErr};
ghost use Rattle.std.specs.Prelude.{IsErr, Ok, None, vec_len};
ghost use Rattle.gr_out.specs.Lane.{over, blank};
ghost use Rattle.gr_sock.specs.Counts.{CountsFault};
ghost use Rattle.gr_sock.specs.Folder.{AllSame, OthersSame, Remains, AllRemain, OthersRemain, AllNamed, HasFront};

use crate::count::raised;
use crate::folder::Folder;
use crate::trouble::LaneError;
use gr_out::{Disk, Failed, Memory};
use std::alloc::Global;
use std::io;
use std::io::ErrorKind;

/// A disk of which each lane is a file in a folder. To `Disk` it tells nothing of what a lane holds; each call says
/// what it makes of the files, where the folder tells that.
///
/// The first call on a lane opens its file and brings it and its name to the device, so that nothing is read that a
/// power cut could still take. From then on the file stays open, and a `sync` that answers `Ok` leaves all of it on the
/// device. A lane that was reserved takes no more memory.
#[derive(Drop)]
pub struct FileDisk<D: Folder> {
    folder: D,
    // Of each lane, whether its file is open, and it and its name have reached the device since.
    ready: Vec<bool>,
    faults: u64,
    said: Option<LaneError>,
    ghost named: { D.tells → AllNamed (D.file_of folder) ready.items },
}

impl<D: Folder> FileDisk<D> {
    ghost use Rattle.gr_sock.specs.FileDisk.{folder_of, has_place, is_ready, disk_faults, disk_said};

    /// The files of a folder, with no fault so far.
    pub fn new(alloc: Global, folder: D) -> FileDisk<D>
        ensures folder { folder_of result ≡ folder }
        ensures ready { (n : ℕ) → is_ready result n ≡ false }
        ensures faults { disk_faults result ≡ 0 }
        ensures said { disk_said result ≡ None }
    {
        FileDisk {
            folder,
            ready: Vec::new(alloc),
            faults: 0,
            said: None,
        }
    }

    /// The folder, for looking at it.
    pub fn folder(&self) -> &D
        ensures { result.now ≡ folder_of self.now }
    {
        &self.folder
    }

    /// What the system said at the last failure, where there was one.
    pub fn last_error(&self) -> Option<LaneError>
        ensures { result ≡ disk_said self.now }
    {
        self.said
    }
}

/// The answer for what the system answered at a lane. An error is counted, and kept.
fn counted<T: Drop>(
    faults: &mut u64,
    said: &mut Option<LaneError>,
    lane: u16,
    outcome: io::Result<T>,
) -> Result<T, Failed>
    ensures ok { IfOk outcome (λ x. result ≡ Ok x) }
    ensures err { OnErr outcome (IsErr result) }
    ensures counts { CountsFault lane faults.old faults.new said.old said.new result }
{
    match outcome {
        Ok(answer) => Ok(answer),
        Err(error) => {
            *faults = raised(*faults);
            *said = Some(LaneError { lane, error });
            Err(Failed)
        }
    }
}

/// Adds places until the lane has one.
fn extend(ready: &mut Vec<bool>, lane: u16) -> Result<(), Memory>
    ensures same { (n : ℕ) → get_or ready.new.items n false ≡ get_or ready.old.items n false }
    ensures long { OnOk result (lane < vec_len ready.new) }
{
    'places: while ready.len() <= usize::from(lane) {
        match ready.push(false) {
            Ok(()) => {}
            Err(refused) => return Err(refused.into()),
        }
    }
    Ok(())
}

/// Opens the file of a lane, unless that was done, and brings it and its name to the device.
fn make_ready<D: Folder>(folder: &mut D, ready: &mut Vec<bool>, lane: u16) -> io::Result<()>
    requires named { D.tells → AllNamed (D.file_of folder.old) ready.old.items }
    ensures named { D.tells → AllNamed (D.file_of folder.new) ready.new.items }
    ensures remains { D.tells → AllRemain (D.file_of folder.old) (D.file_of folder.new) }
    ensures here { D.tells → OnOk result ((D.file_of folder.new lane).is_named ≡ true) }
    ensures first { D.tells → get_or ready.old.items lane false ≡ false
        → OnOk result ((D.file_of folder.new lane).is_kept ≡ true) }
{
    extend(ready, lane)?;
    let place = usize::from(lane);
    if ready[place] {
        return Ok(());
    }
    folder.open(lane)?;
    folder.sync(lane)?;
    folder.sync_name(lane)?;
    ready[place] = true;
    Ok(())
}

/// Fills a piece from a file, from a place on.
fn read_whole<D: Folder>(folder: &mut D, lane: u16, at: u64, into: &mut [u8]) -> io::Result<()>
    ensures bytes { D.tells → OnOk result
        (into.new ≡ take (length into.old) (drop at (D.file_of folder.old lane).bytes)) }
    ensures len { length into.new ≡ length into.old }
    ensures same { D.tells → AllSame (D.file_of folder.old) (D.file_of folder.new) }
{
    if at.checked_add(into.len() as u64).is_none() {
        return Err(ErrorKind::InvalidInput.into());
    }
    let mut done = 0;
    'pieces: while done < into.len() {
        let n = match folder.read_some(lane, at + done as u64, &mut into[done..]) {
            Ok(n) => n,
            Err(error) => return Err(error),
        };
        if n == 0 {
            return Err(ErrorKind::UnexpectedEof.into());
        }
        done += n;
    }
    Ok(())
}

/// Writes all of the bytes over a file, from a place on. After an error a front of them stands there.
fn write_whole<D: Folder>(folder: &mut D, lane: u16, at: u64, bytes: &[u8]) -> io::Result<()>
    ensures ok { D.tells → at ≤ length (D.file_of folder.old lane).bytes → OnOk result
        ((D.file_of folder.new lane).bytes ≡ over at bytes.now (D.file_of folder.old lane).bytes) }
    ensures err { D.tells → at ≤ length (D.file_of folder.old lane).bytes → OnErr result
        (HasFront at bytes.now (D.file_of folder.old lane).bytes (D.file_of folder.new lane).bytes) }
    ensures named { D.tells → (D.file_of folder.new lane).is_named ≡ (D.file_of folder.old lane).is_named }
    ensures others { D.tells → OthersSame lane (D.file_of folder.old) (D.file_of folder.new) }
{
    if at.checked_add(bytes.len() as u64).is_none() {
        return Err(ErrorKind::InvalidInput.into());
    }
    let mut done = 0;
    'pieces: while done < bytes.len() {
        let n = match folder.write_some(lane, at + done as u64, &bytes[done..]) {
            Ok(n) => n,
            Err(error) => return Err(error),
        };
        if n == 0 {
            return Err(ErrorKind::WriteZero.into());
        }
        done += n;
    }
    Ok(())
}

/// Cuts a file to a length. A shorter one stays as it is.
fn cut_to<D: Folder>(folder: &mut D, lane: u16, len: u64) -> io::Result<()>
    ensures ok { D.tells → OnOk result
        ((D.file_of folder.new lane).bytes ≡ take len (D.file_of folder.old lane).bytes) }
    ensures err { D.tells → OnErr result (D.file_of folder.new lane ≡ D.file_of folder.old lane) }
    ensures named { D.tells → (D.file_of folder.new lane).is_named ≡ (D.file_of folder.old lane).is_named }
    ensures others { D.tells → OthersSame lane (D.file_of folder.old) (D.file_of folder.new) }
{
    let size = folder.size(lane)?;
    if size <= len {
        return Ok(());
    }
    folder.cut(lane, len)
}

impl<D: Folder> FileDisk<D> {
    ghost use Rattle.gr_sock.specs.FileDisk.{folder_of, has_place, is_ready, disk_faults, disk_said};

    /// Makes the file of a lane ready.
    fn open(&mut self, lane: u16) -> Result<(), Failed>
        ensures remains { D.tells → AllRemain (D.file_of (folder_of self.old)) (D.file_of (folder_of self.new)) }
        ensures here { D.tells → OnOk result ((D.file_of (folder_of self.new) lane).is_named ≡ true) }
        ensures first { D.tells → is_ready self.old lane ≡ false
            → OnOk result ((D.file_of (folder_of self.new) lane).is_kept ≡ true) }
        ensures counts { CountsFault lane (disk_faults self.old) (disk_faults self.new)
            (disk_said self.old) (disk_said self.new) result }
    {
        let outcome = make_ready(&mut self.folder, &mut self.ready, lane);
        counted(&mut self.faults, &mut self.said, lane, outcome)
    }
}

impl<D: Folder> Disk for FileDisk<D> {
    ghost use Rattle.gr_sock.specs.FileDisk.{folder_of, has_place, is_ready, disk_faults, disk_said};

    ghost tells = { ⊥ };

    ghost faultless = { λ _. ⊥ };

    ghost lane_of = { λ _ _. blank };

    ghost faults = { λ d. disk_faults d };

    ghost stops = { λ _. 0 };

    /// Takes the memory that the later calls on a lane need.
    fn reserve(&mut self, lane: u16, _size: u64) -> Result<(), Memory>
        ensures room { OnOk result (has_place self.new lane ≡ true) }
        ensures same { D.tells → AllSame (D.file_of (folder_of self.old)) (D.file_of (folder_of self.new)) }
        ensures faults { disk_faults self.new ≡ disk_faults self.old }
        ensures said { disk_said self.new ≡ disk_said self.old }
    {
        extend(&mut self.ready, lane)?;
        self.folder.reserve(lane)
    }

    fn size(&mut self, lane: u16) -> Result<u64, Failed>
        ensures size { D.tells → IfOk result (λ n. n ≡ length (D.file_of (folder_of self.old) lane).bytes) }
        ensures remains { D.tells → AllRemain (D.file_of (folder_of self.old)) (D.file_of (folder_of self.new)) }
        ensures first { D.tells → is_ready self.old lane ≡ false
            → OnOk result ((D.file_of (folder_of self.new) lane).is_kept ≡ true) }
        ensures counts { CountsFault lane (disk_faults self.old) (disk_faults self.new)
            (disk_said self.old) (disk_said self.new) result }
    {
        self.open(lane)?;
        let outcome = self.folder.size(lane);
        counted(&mut self.faults, &mut self.said, lane, outcome)
    }

    /// Reads as much at a time as the system gives. Fewer bytes than `into` has are a failure.
    fn read(&mut self, lane: u16, at: u64, into: &mut [u8]) -> Result<(), Failed>
        ensures bytes { D.tells → OnOk result
            (into.new ≡ take (length into.old) (drop at (D.file_of (folder_of self.old) lane).bytes)) }
        ensures len { length into.new ≡ length into.old }
        ensures remains { D.tells → AllRemain (D.file_of (folder_of self.old)) (D.file_of (folder_of self.new)) }
        ensures first { D.tells → is_ready self.old lane ≡ false
            → OnOk result ((D.file_of (folder_of self.new) lane).is_kept ≡ true) }
        ensures counts { CountsFault lane (disk_faults self.old) (disk_faults self.new)
            (disk_said self.old) (disk_said self.new) result }
    {
        self.open(lane)?;
        let outcome = read_whole(&mut self.folder, lane, at, into);
        counted(&mut self.faults, &mut self.said, lane, outcome)
    }

    /// Writes as much at a time as the system takes. After `Failed` a front of the bytes stands there.
    fn write_at(&mut self, lane: u16, at: u64, bytes: &[u8]) -> Result<(), Failed>
        ensures ok { D.tells → at ≤ length (D.file_of (folder_of self.old) lane).bytes → OnOk result
            ((D.file_of (folder_of self.new) lane).bytes
            ≡ over at bytes.now (D.file_of (folder_of self.old) lane).bytes) }
        ensures err { D.tells → at ≤ length (D.file_of (folder_of self.old) lane).bytes → OnErr result
            (HasFront at bytes.now (D.file_of (folder_of self.old) lane).bytes
            (D.file_of (folder_of self.new) lane).bytes) }
        ensures others { D.tells → OthersRemain lane (D.file_of (folder_of self.old)) (D.file_of (folder_of self.new)) }
        ensures counts { CountsFault lane (disk_faults self.old) (disk_faults self.new)
            (disk_said self.old) (disk_said self.new) result }
    {
        self.open(lane)?;
        let outcome = write_whole(&mut self.folder, lane, at, bytes);
        counted(&mut self.faults, &mut self.said, lane, outcome)
    }

    fn cut(&mut self, lane: u16, len: u64) -> Result<(), Failed>
        ensures ok { D.tells → OnOk result
            ((D.file_of (folder_of self.new) lane).bytes ≡ take len (D.file_of (folder_of self.old) lane).bytes) }
        ensures err { D.tells → OnErr result
            (Remains (D.file_of (folder_of self.old) lane) (D.file_of (folder_of self.new) lane)) }
        ensures others { D.tells → OthersRemain lane (D.file_of (folder_of self.old)) (D.file_of (folder_of self.new)) }
        ensures counts { CountsFault lane (disk_faults self.old) (disk_faults self.new)
            (disk_said self.old) (disk_said self.new) result }
    {
        self.open(lane)?;
        let outcome = cut_to(&mut self.folder, lane, len);
        counted(&mut self.faults, &mut self.said, lane, outcome)
    }

    /// After `Ok` all that the file holds, its name and that of the folder have reached the device.
    fn sync(&mut self, lane: u16) -> Result<(), Failed>
        ensures kept { D.tells → OnOk result ((D.file_of (folder_of self.new) lane).is_kept ≡ true) }
        ensures named { D.tells → OnOk result ((D.file_of (folder_of self.new) lane).is_named ≡ true) }
        ensures remains { D.tells → AllRemain (D.file_of (folder_of self.old)) (D.file_of (folder_of self.new)) }
        ensures counts { CountsFault lane (disk_faults self.old) (disk_faults self.new)
            (disk_said self.old) (disk_said self.new) result }
    {
        self.open(lane)?;
        let outcome = self.folder.sync(lane);
        counted(&mut self.faults, &mut self.said, lane, outcome)
    }
}
