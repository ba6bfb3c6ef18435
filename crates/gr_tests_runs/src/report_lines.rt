//! The lines of a report that words spell, over the blank topology.

ghost use Rattle.std.specs.Prelude.{◌≤◌, ◌<◌, IfOk};
ghost use Rattle.gr_topo.specs.Topology.{blank};
ghost use Rattle.gr_model.specs.Text.{IsNamed};

use crate::known::{curiosity, event, join_of, joins, knowledge, known};
use crate::words::{line_number, short_number, small_number};
use gr_event::Bytes;
use gr_know::K;
use gr_model::Report;
use gr_tests_rows::{Stop, Words, bytes, first_word, number, parted};
use std::alloc::Global;

/// The line that a word and the numbers of its fields spell.
pub fn report(alloc: Global, line: &str) -> Result<Report, Stop>
    ensures { IfOk result (λ r. IsNamed blank r) }
{
    let (word, rest) = first_word(line);
    match word {
        "logged" | "already" | "gap" | "exhausted" => publish_line(word, rest),
        "joined" | "already-joined" | "exhausted-join" => join_line(word, rest),
        "kept" | "lost" | "mark" | "cut" | "reclaimed" => stop_line(word, rest),
        "opened" | "log" | "damaged" => log_line(word, rest),
        "sent-know" | "sent-want" | "sent-expect" => sent_line(alloc, word, sent_frame(rest)?),
        "got" | "horizon" | "doubt" => got_line(alloc, word, rest),
        "crashed" | "swept" | "frames" | "bytes" => done_line(alloc, word, rest),
        "refused-hosts" | "refused-frame" | "refused-clock" => refused_line(word, rest),
        "dropped-clash" => clash_line(alloc, rest),
        "dropped-split" => split_line(rest),
        _ => dropped_line(word, rest),
    }
}

/// The number of a broker.
fn broker(word: &str) -> Result<u16, Stop>
    ensures { IfOk result (λ b. b < 2) }
{
    match word {
        "0" => Ok(0),
        "1" => Ok(1),
        _ => Err(Stop::NoRow),
    }
}

/// The number of a fault, from 1 to so many.
fn fault(most: u8, word: &str) -> Result<u8, Stop>
    ensures { IfOk result (λ n. (1 ≤ n) × (n ≤ most)) }
{
    let n = small_number(word)?;
    if n < 1 || n > most {
        return Err(Stop::NoRow);
    }
    Ok(n)
}

/// What stands behind the numbers of a subscriber and a publisher, or one of them, which are 0.
fn behind<'a>(zeros: &str, words: &'a str) -> Result<&'a str, Stop> {
    match words.strip_prefix(zeros) {
        Some(rest) => Ok(rest),
        None => Err(Stop::NoRow),
    }
}

/// The number behind that of the publisher.
fn single(words: &str) -> Result<u64, Stop> {
    number(behind("0 ", words)?)
}

/// The two numbers behind that of the publisher.
fn pair(words: &str) -> Result<(u64, u64), Stop> {
    let mut words = Words::new(behind("0 ", words)?);
    let one = words.number_upto(" ");
    let other = words.number();
    words.check()?;
    Ok((one, other))
}

/// What became of a publish.
fn publish_line(word: &str, rest: &str) -> Result<Report, Stop>
    ensures { IfOk result (λ r. IsNamed blank r) }
{
    match word {
        "logged" => logged(rest),
        "already" => Ok(Report::Already {
            publisher: 0,
            number: single(rest)?,
        }),
        "gap" => gap(rest),
        _ => Ok(Report::Exhausted {
            publisher: 0,
            number: single(rest)?,
        }),
    }
}

/// An event that was logged.
fn logged(words: &str) -> Result<Report, Stop>
    ensures { IfOk result (λ r. IsNamed blank r) }
{
    let (number, tick) = pair(words)?;
    Ok(Report::Logged {
        publisher: 0,
        number,
        tick,
    })
}

/// A publish past the next number.
fn gap(words: &str) -> Result<Report, Stop>
    ensures { IfOk result (λ r. IsNamed blank r) }
{
    let (number, next) = pair(words)?;
    Ok(Report::Gap {
        publisher: 0,
        number,
        next,
    })
}

/// What became of a join.
fn join_line(word: &str, rest: &str) -> Result<Report, Stop>
    ensures { IfOk result (λ r. IsNamed blank r) }
{
    if word == "joined" {
        return Ok(Report::Joined {
            subscriber: 0,
            publisher: 0,
            tick: number(behind("0 0 ", rest)?)?,
        });
    }
    if rest != "0 0" {
        return Err(Stop::NoRow);
    }
    if word == "already-joined" {
        Ok(Report::AlreadyJoined {
            subscriber: 0,
            publisher: 0,
        })
    } else {
        Ok(Report::ExhaustedJoin {
            subscriber: 0,
            publisher: 0,
        })
    }
}

/// What became of a publish that was stopped, and how a log moved on.
fn stop_line(word: &str, rest: &str) -> Result<Report, Stop>
    ensures { IfOk result (λ r. IsNamed blank r) }
{
    match word {
        "kept" => kept(rest),
        "lost" => lost(rest),
        "mark" => Ok(Report::Mark {
            publisher: 0,
            tick: single(rest)?,
        }),
        "reclaimed" => Ok(Report::Reclaimed {
            publisher: 0,
            generation: single(rest)?,
        }),
        _ => Ok(Report::Cut {
            publisher: 0,
            tick: single(rest)?,
        }),
    }
}

/// A stopped publish that is in the log.
fn kept(words: &str) -> Result<Report, Stop>
    ensures { IfOk result (λ r. IsNamed blank r) }
{
    let (number, tick) = pair(words)?;
    Ok(Report::Kept {
        publisher: 0,
        number,
        tick,
    })
}

/// A stopped publish that is not in the log.
fn lost(words: &str) -> Result<Report, Stop>
    ensures { IfOk result (λ r. IsNamed blank r) }
{
    let (number, tick) = pair(words)?;
    Ok(Report::Lost {
        publisher: 0,
        number,
        tick,
    })
}

/// What a log holds.
fn log_line(word: &str, rest: &str) -> Result<Report, Stop>
    ensures { IfOk result (λ r. IsNamed blank r) }
{
    match word {
        "opened" => opened(rest),
        "log" => log(rest),
        _ => Ok(Report::Damaged {
            publisher: 0,
            at: single(rest)?,
        }),
    }
}

/// A log that was opened.
fn opened(words: &str) -> Result<Report, Stop>
    ensures { IfOk result (λ r. IsNamed blank r) }
{
    let mut words = Words::new(behind("0 ", words)?);
    let last = words.number_upto(" ");
    let settled = words.number_upto(" ");
    let cut = words.number();
    words.check()?;
    Ok(Report::Opened {
        publisher: 0,
        last,
        settled,
        cut,
    })
}

/// A log that is shown.
fn log(words: &str) -> Result<Report, Stop>
    ensures { IfOk result (λ r. IsNamed blank r) }
{
    let mut words = Words::new(behind("0 ", words)?);
    let last = words.number_upto(" ");
    let settled = words.number_upto(" ");
    let cut = words.number_upto(" ");
    let kept = words.number();
    words.check()?;
    Ok(Report::LogOf {
        publisher: 0,
        last,
        settled,
        cut,
        kept,
    })
}

/// A frame that was sent: its number, from whom and to whom, and the words behind the publisher.
#[derive(Clone, Copy)]
struct Sent<'a> {
    number: u64,
    from: u16,
    to: u16,
    rest: &'a str,
    ghost from_broker: { from < 2 },
    ghost to_broker: { to < 2 },
}

/// The frame that words spell.
fn sent_frame(words: &str) -> Result<Sent<'_>, Stop> {
    let (n, rest) = first_word(words);
    let (from, rest) = first_word(rest);
    let (to, rest) = first_word(rest);
    Ok(Sent {
        number: number(n)?,
        from: broker(from)?,
        to: broker(to)?,
        rest: behind("0 ", rest)?,
    })
}

/// The runs of a frame of knowledge, behind the joins that stand before them, if any do.
fn behind_joins(words: &str) -> &str {
    let (word, rest) = first_word(words);
    if word == "joins" {
        let (_, runs) = first_word(rest);
        runs
    } else {
        words
    }
}

/// A frame that was sent.
fn sent_line(alloc: Global, word: &str, sent: Sent<'_>) -> Result<Report, Stop>
    ensures { IfOk result (λ r. IsNamed blank r) }
{
    let Sent {
        number: n,
        from,
        to,
        rest,
        ..
    } = sent;
    match word {
        "sent-know" => Ok(Report::SentKnow {
            number: n,
            from,
            to,
            publisher: 0,
            runs: knowledge(alloc, behind_joins(rest))?,
            joins: joins(alloc, rest)?,
        }),
        "sent-want" => Ok(Report::SentWant {
            number: n,
            from,
            to,
            publisher: 0,
            runs: curiosity(alloc, rest)?,
        }),
        _ => Ok(Report::SentExpect {
            number: n,
            from,
            to,
            publisher: 0,
            tick: number(rest)?,
        }),
    }
}

/// How far subscribers and brokers are.
fn got_line(alloc: Global, word: &str, rest: &str) -> Result<Report, Stop>
    ensures { IfOk result (λ r. IsNamed blank r) }
{
    match word {
        "got" => got(alloc, behind("0 0 ", rest)?),
        "horizon" => Ok(Report::Horizon {
            subscriber: 0,
            publisher: 0,
            tick: number(behind("0 0 ", rest)?)?,
        }),
        _ => doubt(rest),
    }
}

/// An event that a subscriber got.
fn got(alloc: Global, words: &str) -> Result<Report, Stop>
    ensures { IfOk result (λ r. IsNamed blank r) }
{
    let (tick, text) = parted(words, " ")?;
    Ok(Report::Got {
        subscriber: 0,
        publisher: 0,
        tick: number(tick)?,
        event: event(alloc, text)?,
    })
}

/// A broker that is in doubt.
fn doubt(words: &str) -> Result<Report, Stop>
    ensures { IfOk result (λ r. IsNamed blank r) }
{
    let (b, rest) = first_word(words);
    Ok(Report::Doubt {
        broker: broker(b)?,
        publisher: 0,
        tick: single(rest)?,
    })
}

/// What was done.
fn done_line(alloc: Global, word: &str, rest: &str) -> Result<Report, Stop>
    ensures { IfOk result (λ r. IsNamed blank r) }
{
    match word {
        "crashed" => Ok(Report::Crashed {
            broker: broker(rest)?,
        }),
        "swept" => Ok(Report::Swept {
            moment: number(rest)?,
        }),
        "frames" => Ok(Report::Frames {
            count: number(rest)?,
        }),
        _ => bytes_of(alloc, rest),
    }
}

/// The bytes of a frame.
fn bytes_of(alloc: Global, words: &str) -> Result<Report, Stop>
    ensures { IfOk result (λ r. IsNamed blank r) }
{
    let (frame, digits) = parted(words, " ")?;
    Ok(Report::BytesOf {
        frame: number(frame)?,
        bytes: Bytes::from_vec(bytes(alloc, digits)?),
    })
}

/// A step that was refused.
fn refused_line(word: &str, rest: &str) -> Result<Report, Stop>
    ensures { IfOk result (λ r. IsNamed blank r) }
{
    let (line, rest) = first_word(rest);
    let line = line_number(line)?;
    match word {
        "refused-hosts" => Ok(Report::RefusedHosts {
            line,
            broker: broker(rest)?,
        }),
        "refused-frame" => refused_frame(line, rest),
        _ => Ok(Report::RefusedClock {
            line,
            moment: number(rest)?,
        }),
    }
}

/// A step that names a frame which was not sent.
fn refused_frame(line: u32, words: &str) -> Result<Report, Stop>
    ensures { IfOk result (λ r. IsNamed blank r) }
{
    let (frame, sent) = first_word(words);
    Ok(Report::RefusedFrame {
        line,
        frame: number(frame)?,
        sent: number(sent)?,
    })
}

/// A datagram that clashes with what is known.
fn clash_line(alloc: Global, words: &str) -> Result<Report, Stop>
    ensures { IfOk result (λ r. IsNamed blank r) }
{
    let (b, rest) = first_word(words);
    let (tick, rest) = first_word(rest);
    let (kept, came) = first_word(rest);
    let broker = broker(b)?;
    let tick = number(tick)?;
    let kept = known(alloc, kept)?;
    clash(alloc, broker, tick, kept, came)
}

/// A datagram with a value that clashes with the value that is kept.
fn clash(alloc: Global, broker: u16, tick: u64, kept: K, came: &str) -> Result<Report, Stop>
    requires { broker < 2 }
    ensures { IfOk result (λ r. IsNamed blank r) }
{
    let came = known(alloc, came)?;
    Ok(Report::DroppedClash {
        broker,
        tick,
        kept,
        came,
    })
}

/// A datagram whose joins split from those that are held.
fn split_line(words: &str) -> Result<Report, Stop>
    ensures { IfOk result (λ r. IsNamed blank r) }
{
    let (b, rest) = first_word(words);
    let (at, rest) = first_word(rest);
    let (kept, came) = first_word(rest);
    Ok(Report::DroppedSplit {
        broker: broker(b)?,
        at: short_number(at)?,
        kept: join_of(kept)?,
        came: join_of(came)?,
    })
}

/// A datagram that was dropped.
fn dropped_line(word: &str, rest: &str) -> Result<Report, Stop>
    ensures { IfOk result (λ r. IsNamed blank r) }
{
    let (b, rest) = first_word(rest);
    match word {
        "dropped-not-frame" => not_frame(broker(b)?, rest),
        "dropped-stray" => stray(broker(b)?, rest),
        "dropped-bad-note" => bad_note(broker(b)?, rest),
        "dropped-stray-note" => Ok(Report::DroppedStrayNote {
            broker: broker(b)?,
            publisher: short_number(rest)?,
        }),
        _ => Err(Stop::NoRow),
    }
}

/// A datagram that is no frame.
fn not_frame(broker: u16, words: &str) -> Result<Report, Stop>
    requires { broker < 2 }
    ensures { IfOk result (λ r. IsNamed blank r) }
{
    let (n, at) = first_word(words);
    Ok(Report::DroppedNotFrame {
        broker,
        fault: fault(10, n)?,
        at: number(at)?,
    })
}

/// A frame between others.
fn stray(broker: u16, words: &str) -> Result<Report, Stop>
    requires { broker < 2 }
    ensures { IfOk result (λ r. IsNamed blank r) }
{
    let (from, rest) = first_word(words);
    let (to, publisher) = first_word(rest);
    Ok(Report::DroppedStray {
        broker,
        from: short_number(from)?,
        to: short_number(to)?,
        publisher: short_number(publisher)?,
    })
}

/// A datagram that is no note.
fn bad_note(broker: u16, words: &str) -> Result<Report, Stop>
    requires { broker < 2 }
    ensures { IfOk result (λ r. IsNamed blank r) }
{
    let (n, at) = first_word(words);
    Ok(Report::DroppedBadNote {
        broker,
        fault: fault(7, n)?,
        at: number(at)?,
    })
}
