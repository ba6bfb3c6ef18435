//! The command `gryphon`: `gryphon replay` reads a scenario from standard input, carries it out and prints its report;
//! `gryphon serve TURNS BROKER...` reads one too, and runs the named brokers of its topology over datagrams, and so does
//! `gryphon trace TURNS BROKER...`, which prints their journal; `gryphon audit` reads a scenario and journals, and says
//! whether these are one honest run; `gryphon publish P TURNS` reads a scenario, and submits the events of a publisher
//! of it to its host, over datagrams; `gryphon match` reads filters and events, and prints for each event the filters
//! that match it; `gryphon cover` reads filters, and prints for each two of them whether the one covers the other;
//! `gryphon soak N` makes a scenario, carries it out and prints counts over its report.
#![tactic(auto)]

mod top;

use gr_sock::{FileDisk, Folder, LogFolder, Network, StdSink, StdSource, UdpNetwork, UdpPost};
use std::env;
use std::io::ErrorKind;
use std::process::ExitCode;
use std::rt::Clock;

/// Tells the operator, on standard error, what the system said where a status comes of it, and how many offers were
/// lost. A word that cannot be written is left out.
fn tell<D: Folder, N: Network, C: Clock>(
    rt: &HostRuntime,
    status: u8,
    disk: &FileDisk<D>,
    post: &UdpPost<N, C>,
) {
    if status == 5
        && let Some(said) = disk.last_error()
    {
        let _ = eprintln!(rt; "gryphon: {said}");
    }
    if status == 8
        && let Some(said) = post.last_error()
    {
        let _ = eprintln!(rt; "gryphon: {said}");
    }
    if let Some(said) = post.last_loss() {
        let _ = eprintln!(rt; "gryphon: offers lost: {}, the last {said}", post.lost());
    }
}

/// Carries out the command that the words name, from standard input to standard output. Brokers that serve keep their
/// logs in a folder of files; they send and get datagrams, and so does a client that submits. A word that is no text
/// names no command. Want of memory for the words ends with status 7. Standard error has a word for the operator where
/// the disk or the network failed, or offers were lost.
fn main(rt: HostRuntime) -> ExitCode {
    let mut texts = Vec::new(rt.alloc());
    match env::args(&rt) {
        Ok(args) => {
            for text in args.skip(1) {
                if texts.push(text).is_err() {
                    return ExitCode::from(7);
                }
            }
        }
        Err(error) if error.kind() == ErrorKind::InvalidData => {}
        Err(_) => return ExitCode::from(7),
    }
    let mut words = Vec::new(rt.alloc());
    for text in &texts {
        if words.push(text.as_str()).is_err() {
            return ExitCode::from(7);
        }
    }
    let mut source = StdSource::new(rt.stdin());
    let mut sink = StdSink::new(rt.stdout());
    let mut disk = FileDisk::new(rt.alloc(), LogFolder::new(rt.alloc(), &rt));
    let mut post = UdpPost::new(rt.alloc(), UdpNetwork::new(rt.alloc(), &rt), &rt);
    let status = top::gryphon(
        rt.alloc(),
        words.as_slice(),
        &mut source,
        &mut sink,
        &mut disk,
        &mut post,
    );
    tell(&rt, status, &disk, &post);
    ExitCode::from(status)
}
