//! The lines that a client prints.

ghost use Rattle.std.specs.Prelude.{◌≡◌, ◌<◌, ◌≤◌, ◌++◌, length, IfOk, OnOk};
ghost use Rattle.std.specs.Fmt.{decimal};
ghost use Rattle.gr_note.specs.declared.TheConstants.{MAX_NUMBER};
ghost use Rattle.gr_client.specs.Run.{next_line, next_of_line, spent_line, ahead_line, last_line};

use crate::client::Progress;
use gr_event::{Memory, Text};
use gr_topo::Topology;
use itoa::Buffer;
use std::alloc::Global;

/// Puts a number at the end, in decimal.
fn put_number(line: &mut Text, number: u64) -> Result<(), Memory>
    ensures { OnOk result (line.new ≡ line.old ++ decimal number) }
{
    let mut digits = Buffer::new();
    line.append(digits.format(number).as_bytes())
}

/// The line `next P N`, with its end: which number comes next.
pub(crate) fn next_line(alloc: Global, topo: &Topology, p: u16, next: u64) -> Result<Text, Memory>
    requires { p < length topo.now.publishers }
    ensures { IfOk result (λ line. line ≡ next_line topo.now p next) }
{
    let mut line = Text::from_slice(alloc, b"next ")?;
    line.append(topo.publisher_name(p).as_slice())?;
    line.push(b' ')?;
    put_number(&mut line, next)?;
    line.push(b'\n')?;
    Ok(line)
}

/// The line `client P next N of M`, with its end.
fn next_of_line(
    alloc: Global,
    topo: &Topology,
    p: u16,
    count: u64,
    next: u64,
) -> Result<Text, Memory>
    requires { p < length topo.now.publishers }
    ensures { IfOk result (λ line. line ≡ next_of_line topo.now p count next) }
{
    let mut line = Text::from_slice(alloc, b"client ")?;
    line.append(topo.publisher_name(p).as_slice())?;
    line.append(b" next ")?;
    put_number(&mut line, next)?;
    line.append(b" of ")?;
    put_number(&mut line, count)?;
    line.push(b'\n')?;
    Ok(line)
}

/// The line `client P spent`, with its end.
fn spent_line(alloc: Global, topo: &Topology, p: u16) -> Result<Text, Memory>
    requires { p < length topo.now.publishers }
    ensures { IfOk result (λ line. line ≡ spent_line topo.now p) }
{
    let mut line = Text::from_slice(alloc, b"client ")?;
    line.append(topo.publisher_name(p).as_slice())?;
    line.append(b" spent\n")?;
    Ok(line)
}

/// The line `client P ahead N`, with its end.
fn ahead_line(alloc: Global, topo: &Topology, p: u16, next: u64) -> Result<Text, Memory>
    requires { p < length topo.now.publishers }
    ensures { IfOk result (λ line. line ≡ ahead_line topo.now p next) }
{
    let mut line = Text::from_slice(alloc, b"client ")?;
    line.append(topo.publisher_name(p).as_slice())?;
    line.append(b" ahead ")?;
    put_number(&mut line, next)?;
    line.push(b'\n')?;
    Ok(line)
}

/// The last line of a client of so many events, with its end: how far it is.
pub(crate) fn last_line(
    alloc: Global,
    topo: &Topology,
    p: u16,
    count: u64,
    progress: Progress,
) -> Result<Text, Memory>
    requires publisher { p < length topo.now.publishers }
    requires few { count ≤ MAX_NUMBER }
    ensures { IfOk result (λ line. line ≡ last_line topo.now p count progress) }
{
    match progress {
        Progress::Running { next } => next_of_line(alloc, topo, p, count, next),
        Progress::Done => next_of_line(alloc, topo, p, count, count + 1),
        Progress::Spent => spent_line(alloc, topo, p),
        Progress::Ahead { next } => ahead_line(alloc, topo, p, next),
    }
}
