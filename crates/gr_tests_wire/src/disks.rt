//! Disks in memory, as scripts.

use crate::script::{
    NEXT, Script, cut_number, first_word, numbers, perform, put_quoted, short, two_bytes,
    two_numbers,
};
use gr_out::{Disk, Failed, MemDisk, SimDisk};
use gr_tests_rows::{Page, Stop, number};
use std::alloc::Global;

/// Answers a script of calls: `failing CALLS ; put LANE TEXT ; write LANE AT TEXT ; ..`.
pub fn calls(alloc: Global, row: &str, page: &mut Page) -> Result<(), Stop> {
    let Some((made, ops)) = row.split_once(NEXT) else {
        return Err(Stop::NoRow);
    };
    let mut disk = disk_of(alloc, made)?;
    perform(alloc, &mut disk, ops, page)
}

/// A new disk, with the numbers of the calls that are to fail.
pub fn disk_of(alloc: Global, made: &str) -> Result<MemDisk, Stop> {
    let Some(list) = made.strip_prefix("failing ") else {
        return Err(Stop::NoRow);
    };
    let fails = numbers(alloc, list)?;
    disk_with(alloc, &fails)
}

/// A new disk, with the numbers of the calls that are to fail.
fn disk_with(alloc: Global, fails: &[u64]) -> Result<MemDisk, Stop> {
    Ok(MemDisk::new(alloc, fails)?)
}

impl Script for MemDisk {
    /// Does an op on a lane.
    fn op(&mut self, _: Global, op: &str, page: &mut Page) -> Result<(), Stop> {
        let Some((call, rest)) = op.split_once(' ') else {
            return Err(Stop::NoRow);
        };
        let (lane, rest) = first_word(rest);
        let Some(lane) = short(lane) else {
            return Err(Stop::NoRow);
        };
        match call {
            "read" => read(self, lane, rest, page),
            "write" => write_at(self, lane, rest, page),
            "cut" => cut(self, lane, rest, page),
            "stop" => stop(self, lane, rest, page),
            _ => lane_op(self, call, lane, rest, page),
        }
    }
}

/// Does an op whose words are no numbers.
fn lane_op(
    disk: &mut MemDisk,
    call: &str,
    lane: u16,
    text: &str,
    page: &mut Page,
) -> Result<(), Stop> {
    match call {
        "put" => put(disk, lane, text, page),
        "size" => put_size(disk, lane, page),
        "sync" => sync(disk, lane, page),
        "stopped" => put_stopped(disk, lane, page),
        "crash" => {
            disk.crash(lane);
            put_quoted(page, disk.lane(lane));
        }
        "lane" => put_quoted(page, disk.lane(lane)),
        _ => return Err(Stop::NoRow),
    }
    Ok(())
}

/// Prints what a call without a result answers.
fn put_done(page: &mut Page, answer: Result<(), Failed>) {
    match answer {
        Ok(()) => page.push_str("done"),
        Err(Failed) => page.push_str("failed"),
    }
}

/// Puts a text on a lane.
fn put(disk: &mut MemDisk, lane: u16, text: &str, page: &mut Page) {
    match disk.put(lane, text.as_bytes()) {
        Ok(()) => page.push_str("done"),
        Err(_) => page.tear(),
    }
}

/// Prints how many bytes a lane has.
fn put_size(disk: &mut MemDisk, lane: u16, page: &mut Page) {
    match disk.size(lane) {
        Ok(size) => write!(page, "{size}"),
        Err(Failed) => page.push_str("failed"),
    }
}

/// Reads so many bytes of a lane, at most 64, over dashes; they are printed after a failure too.
fn read(disk: &mut MemDisk, lane: u16, rest: &str, page: &mut Page) -> Result<(), Stop> {
    let Some((at, count)) = two_numbers(rest) else {
        return Err(Stop::NoRow);
    };
    let len = disk.lane(lane).len() as u64;
    if at > len || count > len - at || count > 64 {
        return Err(Stop::NoRow);
    }
    let mut piece = [b'-'; 64];
    let answer = disk.read(lane, at, &mut piece[..count as usize]);
    put_done(page, answer);
    page.push(' ');
    put_quoted(page, &piece[..count as usize]);
    Ok(())
}

/// Writes to a lane from a place on, which is none past its end.
fn write_at(disk: &mut MemDisk, lane: u16, rest: &str, page: &mut Page) -> Result<(), Stop> {
    let Some((at, text)) = cut_number(rest) else {
        return Err(Stop::NoRow);
    };
    let bytes = text.as_bytes();
    if at > disk.lane(lane).len() as u64 {
        return Err(Stop::NoRow);
    }
    let Some(end) = at.checked_add(bytes.len() as u64) else {
        return Err(Stop::NoRow);
    };
    match disk.reserve(lane, end) {
        Ok(()) => put_done(page, disk.write_at(lane, at, bytes)),
        Err(_) => page.tear(),
    }
    Ok(())
}

/// Cuts a lane to a length.
fn cut(disk: &mut MemDisk, lane: u16, len: &str, page: &mut Page) -> Result<(), Stop> {
    let Ok(len) = number(len) else {
        return Err(Stop::NoRow);
    };
    match disk.reserve(lane, 0) {
        Ok(()) => put_done(page, disk.cut(lane, len)),
        Err(_) => page.tear(),
    }
    Ok(())
}

/// Syncs a lane.
fn sync(disk: &mut MemDisk, lane: u16, page: &mut Page) {
    match disk.reserve(lane, 0) {
        Ok(()) => put_done(page, disk.sync(lane)),
        Err(_) => page.tear(),
    }
}

/// Orders a stop: `CALLS PICK`.
pub fn stop(disk: &mut MemDisk, lane: u16, rest: &str, page: &mut Page) -> Result<(), Stop> {
    let Some((calls, pick)) = two_bytes(rest) else {
        return Err(Stop::NoRow);
    };
    match disk.reserve(lane, 0) {
        Ok(()) => {
            disk.stop_after(lane, calls, pick);
            page.push_str("ordered");
        }
        Err(_) => page.tear(),
    }
    Ok(())
}

/// Prints whether a stop has broken a call on a lane.
pub fn put_stopped(disk: &MemDisk, lane: u16, page: &mut Page) {
    write!(page, "{}", disk.stopped(lane));
}
