//! What a step of a world answers, in short: numbers stand in place of names.

use crate::words::put_counted;
use gr_model::{Report, Reports};
use gr_tests_rows::Page;
use gr_world::WorldFault;

/// Prints what a step answered.
pub fn tell(answer: &Result<Reports, WorldFault>, page: &mut Page) {
    match answer {
        Ok(lines) => put_all(lines.as_slice(), page),
        Err(fault) => put_fault(*fault, page),
    }
}

/// Prints lines of a report.
pub fn put_all(lines: &[Report], page: &mut Page) {
    for line in lines {
        put_line(line, page);
    }
}

/// Prints why a step was refused.
pub fn put_fault(fault: WorldFault, page: &mut Page) {
    match fault {
        WorldFault::Memory => page.push_str(" memory"),
        WorldFault::Disk => page.push_str(" disk"),
        WorldFault::Reopen => page.push_str(" reopen"),
        WorldFault::Damaged { publisher, at } => put_pair(" damaged ", publisher, at, page),
        WorldFault::HostsSubscriber { broker } => {
            put_counted(" hosts-subscriber ", u64::from(broker), page);
        }
        WorldFault::NoFrame { sent } => put_counted(" no-frame ", sent, page),
        WorldFault::ClockRange { at } => put_counted(" clock-range ", at, page),
    }
}

/// Prints a line of a report.
fn put_line(line: &Report, page: &mut Page) {
    match line {
        Report::Opened { last, settled, .. } => put_two(" opened ", *last, *settled, page),
        Report::Logged { number, tick, .. } => put_two(" logged ", *number, *tick, page),
        Report::Joined {
            subscriber,
            tick,
            ..
        } => put_pair(" joined ", *subscriber, *tick, page),
        Report::AlreadyJoined { subscriber, .. } => {
            put_counted(" already-joined ", u64::from(*subscriber), page);
        }
        Report::ExhaustedJoin { subscriber, .. } => {
            put_counted(" exhausted-join ", u64::from(*subscriber), page);
        }
        Report::Kept { number, tick, .. } => put_two(" kept ", *number, *tick, page),
        Report::Lost { number, tick, .. } => put_two(" lost ", *number, *tick, page),
        Report::Mark { tick, .. } => put_counted(" mark ", *tick, page),
        Report::Cut { tick, .. } => put_counted(" cut ", *tick, page),
        Report::Reclaimed { generation, .. } => put_counted(" reclaimed ", *generation, page),
        Report::Got {
            subscriber,
            tick,
            ..
        } => put_pair(" got ", *subscriber, *tick, page),
        Report::Horizon {
            subscriber,
            tick,
            ..
        } => put_pair(" horizon ", *subscriber, *tick, page),
        Report::SentKnow { number, .. } => put_counted(" know ", *number, page),
        Report::SentWant { number, .. } => put_counted(" want ", *number, page),
        Report::SentExpect { number, .. } => put_counted(" expect ", *number, page),
        Report::Crashed { broker } => put_counted(" crashed ", u64::from(*broker), page),
        Report::Swept { moment } => put_counted(" swept ", *moment, page),
        Report::Frames { count } => put_counted(" frames ", *count, page),
        Report::LogOf { last, settled, .. } => put_two(" log ", *last, *settled, page),
        Report::Doubt { broker, tick, .. } => put_pair(" doubt ", *broker, *tick, page),
        Report::BytesOf { frame, .. } => put_counted(" bytes ", *frame, page),
        _ => page.push_str(" another line"),
    }
}

/// Prints a number of 16 bits behind a word, and another number.
fn put_pair(word: &str, one: u16, other: u64, page: &mut Page) {
    put_two(word, u64::from(one), other, page);
}

/// Prints a number behind a word, and another behind a blank.
fn put_two(word: &str, one: u64, other: u64, page: &mut Page) {
    put_counted(word, one, page);
    put_counted(" ", other, page);
}
