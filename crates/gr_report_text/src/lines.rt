//! The words of each line of a report.

ghost use Rattle.std.specs.Prelude.{◌≡◌, ◌<◌, ◌≤◌, ◌++◌, [], ◌∷◌, length, map, codes, OnOk};
ghost use Rattle.std.specs.Fmt.{decimal};
ghost use Rattle.std.specs.List.{flat_map};
ghost use Rattle.gr_topo.specs.Topology.{name_at};
ghost use Rattle.gr_model.specs.Text.{labels_of, know_letter, want_letter, run_word, frame_fault_word, note_fault_word};
ghost use Rattle.gr_model.specs.Text.{hex_pair, log_words, sent_words, joins_words, behind_blanks, row_of};
ghost use Rattle.gr_model.specs.Text.{AreNamed, IsSentNamed, IsNamed};
ghost use Rattle.gr_report_text.specs.Families.{IsOfPublish, IsOfJoin, IsOfLog, IsOfHorizon, IsOfFrame, IsOfDrop};
ghost use Rattle.gr_report_text.specs.Families.{IsOfRefusal, IsOfShow};

use crate::words::{push_event, push_hex, push_name, push_number, push_word};
use gr_curio::Q3;
use gr_event::{Bytes, Join, Joins, Text};
use gr_frame::FrameKind;
use gr_know::K;
use gr_model::Report;
use gr_note::NoteKind;
use gr_tick::{Lattice, Piece, Run};
use gr_topo::Topology;
use std::alloc::AllocError;

/// The name of a broker.
fn push_broker(words: &mut Text, topo: &Topology, broker: u16) -> Result<(), AllocError>
    requires { broker < length topo.now.brokers }
    ensures { OnOk result (words.new ≡ words.old ++ 32 ∷ name_at topo.now.brokers broker) }
{
    push_name(words, topo.broker_name(broker).as_slice())
}

/// The name of a publisher.
fn push_publisher(words: &mut Text, topo: &Topology, publisher: u16) -> Result<(), AllocError>
    requires { publisher < length topo.now.publishers }
    ensures { OnOk result (words.new ≡ words.old ++ 32 ∷ name_at topo.now.publishers publisher) }
{
    push_name(words, topo.publisher_name(publisher).as_slice())
}

/// The name of a subscriber.
fn push_subscriber(words: &mut Text, topo: &Topology, subscriber: u16) -> Result<(), AllocError>
    requires { subscriber < length topo.now.subscribers }
    ensures { OnOk result (words.new ≡ words.old ++ 32 ∷ name_at topo.now.subscribers subscriber) }
{
    push_name(words, topo.subscriber_name(subscriber).as_slice())
}

/// A word and a number.
#[inline(always)]
fn push_pair(words: &mut Text, word: &[u8], number: u64) -> Result<(), AllocError>
    ensures { OnOk result (words.new ≡ words.old ++ behind_blanks (word.now ∷ decimal number ∷ [])) }
{
    push_word(words, word)?;
    push_number(words, number)
}

/// A word and the name of a publisher.
#[inline(always)]
fn push_named(
    words: &mut Text,
    topo: &Topology,
    word: &[u8],
    publisher: u16,
) -> Result<(), AllocError>
    requires { publisher < length topo.now.publishers }
    ensures { OnOk result (words.new ≡ words.old ++ behind_blanks
        (word.now ∷ name_at topo.now.publishers publisher ∷ [])) }
{
    push_word(words, word)?;
    push_publisher(words, topo, publisher)
}

/// A line of a publisher and numbers. The first word comes with the blank before it.
#[inline(always)]
fn push_publisher_line(
    words: &mut Text,
    topo: &Topology,
    first: &[u8],
    publisher: u16,
    numbers: &[u64],
) -> Result<(), AllocError>
    requires { publisher < length topo.now.publishers }
    ensures { OnOk result (words.new ≡ words.old ++ (first.now
        ++ behind_blanks (name_at topo.now.publishers publisher ∷ map decimal numbers.now))) }
{
    words.append(first)?;
    push_publisher(words, topo, publisher)?;
    push_numbers(words, numbers)
}

/// Numbers, one word each.
fn push_numbers(words: &mut Text, numbers: &[u64]) -> Result<(), AllocError>
    ensures { OnOk result (words.new ≡ words.old ++ behind_blanks (map decimal numbers.now)) }
{
    for number in numbers {
        push_number(words, *number)?;
    }
    Ok(())
}

/// The line of a log.
#[inline(always)]
fn push_log(
    words: &mut Text,
    topo: &Topology,
    first: &[u8],
    publisher: u16,
    last: u64,
    settled: u64,
    cut: u64,
) -> Result<(), AllocError>
    requires { publisher < length topo.now.publishers }
    ensures { OnOk result (words.new ≡ words.old ++ behind_blanks
        (log_words (labels_of topo.now) first.now publisher last settled cut)) }
{
    push_named(words, topo, first, publisher)?;
    push_log_numbers(words, last, settled, cut)
}

/// The numbers of a log.
fn push_log_numbers(words: &mut Text, last: u64, settled: u64, cut: u64) -> Result<(), AllocError>
    ensures { OnOk result (words.new ≡ words.old ++ behind_blanks
        (codes "last" ∷ decimal last ∷ codes "settled" ∷ decimal settled ∷ codes "cut" ∷ decimal cut ∷ [])) }
{
    push_pair(words, b"last", last)?;
    push_pair(words, b"settled", settled)?;
    push_pair(words, b"cut", cut)
}

/// The line of a log that is shown.
fn push_shown_log(
    words: &mut Text,
    topo: &Topology,
    publisher: u16,
    last: u64,
    settled: u64,
    cut: u64,
    kept: u64,
) -> Result<(), AllocError>
    requires { publisher < length topo.now.publishers }
    ensures { OnOk result (words.new ≡ words.old ++ row_of topo.now (Report.LogOf publisher last settled cut kept)) }
{
    push_log(words, topo, b"log", publisher, last, settled, cut)?;
    push_pair(words, b"kept", kept)
}

/// The line of a gap.
fn push_gap(
    words: &mut Text,
    topo: &Topology,
    publisher: u16,
    number: u64,
    next: u64,
) -> Result<(), AllocError>
    requires { publisher < length topo.now.publishers }
    ensures { OnOk result (words.new ≡ words.old ++ row_of topo.now (Report.Gap publisher number next)) }
{
    push_word(words, b"gap")?;
    push_publisher(words, topo, publisher)?;
    push_number(words, number)?;
    push_pair(words, b"next", next)
}

/// A line of a subscriber and a publisher. The first word comes with the blank before it.
fn push_named_both(
    words: &mut Text,
    topo: &Topology,
    first: &[u8],
    subscriber: u16,
    publisher: u16,
) -> Result<(), AllocError>
    requires { AreNamed topo.now subscriber publisher }
    ensures { OnOk result (words.new ≡ words.old ++ (first.now ++ behind_blanks
        (name_at topo.now.subscribers subscriber ∷ name_at topo.now.publishers publisher ∷ []))) }
{
    words.append(first)?;
    push_subscriber(words, topo, subscriber)?;
    push_publisher(words, topo, publisher)
}

/// A line of a subscriber, a publisher and a tick. The first word comes with the blank before it.
#[inline(always)]
fn push_named_tick(
    words: &mut Text,
    topo: &Topology,
    first: &[u8],
    subscriber: u16,
    publisher: u16,
    tick: u64,
) -> Result<(), AllocError>
    requires { AreNamed topo.now subscriber publisher }
    ensures { OnOk result (words.new ≡ words.old ++ (first.now ++ behind_blanks
        (name_at topo.now.subscribers subscriber ∷ name_at topo.now.publishers publisher ∷ decimal tick ∷ []))) }
{
    words.append(first)?;
    push_subscriber(words, topo, subscriber)?;
    push_publisher(words, topo, publisher)?;
    push_number(words, tick)
}

/// The line of a doubt horizon.
fn push_doubt(
    words: &mut Text,
    topo: &Topology,
    broker: u16,
    publisher: u16,
    tick: u64,
) -> Result<(), AllocError>
    requires broker { broker < length topo.now.brokers }
    requires publisher { publisher < length topo.now.publishers }
    ensures { OnOk result (words.new ≡ words.old ++ row_of topo.now (Report.Doubt broker publisher tick)) }
{
    push_word(words, b"doubt")?;
    push_broker(words, topo, broker)?;
    push_publisher(words, topo, publisher)?;
    push_number(words, tick)
}

/// The begin of the line of a frame that was sent.
#[inline(always)]
fn push_sent(
    words: &mut Text,
    topo: &Topology,
    number: u64,
    from: u16,
    to: u16,
    kind: &[u8],
    publisher: u16,
) -> Result<(), AllocError>
    requires { IsSentNamed topo.now from to publisher }
    ensures { OnOk result (words.new ≡ words.old ++ behind_blanks
        (sent_words (labels_of topo.now) number from to kind.now publisher)) }
{
    words.append(b" sent")?;
    push_number(words, number)?;
    push_broker(words, topo, from)?;
    push_broker(words, topo, to)?;
    push_word(words, kind)?;
    push_publisher(words, topo, publisher)
}

/// The letter of what is known.
fn letter_of_know(value: &K) -> u8
    ensures { result ∷ [] ≡ know_letter value.now }
{
    match value {
        K::Q => b'Q',
        K::S => b'S',
        K::D(_) => b'D',
        K::F => b'F',
    }
}

/// The letter of what is asked.
fn letter_of_want(value: &Q3) -> u8
    ensures { result ∷ [] ≡ want_letter value.now }
{
    match value {
        Q3::N => b'N',
        Q3::C => b'C',
        Q3::A => b'A',
    }
}

/// The word of a run whose value has this letter.
fn push_run(words: &mut Text, letter: u8, first: u64, last: u64) -> Result<(), AllocError>
    ensures { OnOk result
        (words.new ≡ words.old ++ 32 ∷ letter ∷ (decimal first ++ (codes "-" ++ decimal last))) }
{
    words.push(b' ')?;
    words.append_number(letter, first)?;
    words.append_number(b'-', last)
}

/// The words of runs of what is known.
fn push_know_runs(words: &mut Text, runs: &Piece<K>) -> Result<(), AllocError>
    ensures { OnOk result (words.new ≡ words.old ++ behind_blanks (map (run_word know_letter) runs.now)) }
{
    for i in 0..runs.len() {
        let run = runs.run(i);
        push_run(words, letter_of_know(&run.value), run.first, run.last)?;
    }
    Ok(())
}

/// The words of runs of what is asked.
fn push_want_runs(words: &mut Text, runs: &Piece<Q3>) -> Result<(), AllocError>
    ensures { OnOk result (words.new ≡ words.old ++ behind_blanks (map (run_word want_letter) runs.now)) }
{
    for i in 0..runs.len() {
        let run = runs.run(i);
        push_run(words, letter_of_want(&run.value), run.first, run.last)?;
    }
    Ok(())
}

/// How many joins a frame has, where it has any.
fn push_joins(words: &mut Text, joins: &Joins) -> Result<(), AllocError>
    ensures { OnOk result (words.new ≡ words.old ++ behind_blanks (joins_words joins.now)) }
{
    let count = joins.len();
    if count == 0 {
        return Ok(());
    }
    push_pair(words, b"joins", count as u64)
}

/// The words of what a frame of knowledge says.
fn push_known(words: &mut Text, joins: &Joins, runs: &Piece<K>) -> Result<(), AllocError>
    ensures { OnOk result
        (words.new ≡ words.old ++ behind_blanks (joins_words joins.now ++ map (run_word know_letter) runs.now)) }
{
    push_joins(words, joins)?;
    push_know_runs(words, runs)
}

/// The line of a crash.
fn push_crashed(words: &mut Text, topo: &Topology, broker: u16) -> Result<(), AllocError>
    requires { broker < length topo.now.brokers }
    ensures { OnOk result (words.new ≡ words.old ++ row_of topo.now (Report.Crashed broker)) }
{
    push_word(words, b"crashed")?;
    push_broker(words, topo, broker)
}

/// The begin of the line of a refused step.
fn push_refused(words: &mut Text, line: u32, cause: &[u8]) -> Result<(), AllocError>
    ensures { OnOk result (words.new ≡ words.old ++ behind_blanks
        (codes "refused" ∷ codes "line" ∷ decimal line ∷ cause.now ∷ [])) }
{
    push_word(words, b"refused")?;
    push_pair(words, b"line", line as u64)?;
    push_word(words, cause)
}

/// The line of a crash that is refused.
fn push_refused_hosts(
    words: &mut Text,
    topo: &Topology,
    line: u32,
    broker: u16,
) -> Result<(), AllocError>
    requires { broker < length topo.now.brokers }
    ensures { OnOk result (words.new ≡ words.old ++ row_of topo.now (Report.RefusedHosts line broker)) }
{
    push_refused(words, line, b"hosts-subscriber")?;
    push_broker(words, topo, broker)
}

/// The line of a frame that is not there.
fn push_refused_frame(words: &mut Text, line: u32, frame: u64, sent: u64) -> Result<(), AllocError>
    ensures { OnOk result (words.new ≡ words.old ++ behind_blanks
        (codes "refused" ∷ codes "line" ∷ decimal line ∷ codes "no-frame" ∷ decimal frame
        ∷ codes "of" ∷ decimal sent ∷ [])) }
{
    push_refused(words, line, b"no-frame")?;
    push_missing(words, frame, sent)
}

/// Which frame is not there, and how many are.
fn push_missing(words: &mut Text, frame: u64, sent: u64) -> Result<(), AllocError>
    ensures { OnOk result (words.new ≡ words.old ++ behind_blanks (decimal frame ∷ codes "of" ∷ decimal sent ∷ [])) }
{
    push_number(words, frame)?;
    push_pair(words, b"of", sent)
}

/// The line of a sweep past the last tick.
fn push_refused_clock(words: &mut Text, line: u32, moment: u64) -> Result<(), AllocError>
    ensures { OnOk result (words.new ≡ words.old ++ behind_blanks
        (codes "refused" ∷ codes "line" ∷ decimal line ∷ codes "clock-range" ∷ decimal moment ∷ [])) }
{
    push_refused(words, line, b"clock-range")?;
    push_number(words, moment)
}

/// The begin of the line of a dropped datagram.
fn push_dropped(
    words: &mut Text,
    topo: &Topology,
    broker: u16,
    cause: &[u8],
) -> Result<(), AllocError>
    requires { broker < length topo.now.brokers }
    ensures { OnOk result (words.new ≡ words.old ++ behind_blanks
        (codes "dropped" ∷ (labels_of topo.now).broker broker ∷ cause.now ∷ [])) }
{
    push_word(words, b"dropped")?;
    push_broker(words, topo, broker)?;
    push_word(words, cause)
}

/// The word of why bytes are no frame.
fn word_of_fault(fault: u8) -> &'static [u8]
    requires from_one { 1 ≤ fault }
    requires to_ten { fault ≤ 10 }
    ensures { result.now ≡ frame_fault_word fault }
{
    match FrameKind::from_number(fault) {
        Some(kind) => kind.word().as_bytes(),
        None => unreachable!(),
    }
}

/// The word of why bytes are no frame, and where.
fn push_fault(words: &mut Text, fault: u8, at: u64) -> Result<(), AllocError>
    requires from_one { 1 ≤ fault }
    requires to_ten { fault ≤ 10 }
    ensures { OnOk result (words.new ≡ words.old ++ behind_blanks (frame_fault_word fault ∷ decimal at ∷ [])) }
{
    push_pair(words, word_of_fault(fault), at)
}

/// The line of a datagram that is no frame.
fn push_not_frame(
    words: &mut Text,
    topo: &Topology,
    broker: u16,
    fault: u8,
    at: u64,
) -> Result<(), AllocError>
    requires { IsNamed topo.now (Report.DroppedNotFrame broker fault at) }
    ensures { OnOk result (words.new ≡ words.old ++ row_of topo.now (Report.DroppedNotFrame broker fault at)) }
{
    push_dropped(words, topo, broker, b"not-frame")?;
    push_fault(words, fault, at)
}

/// The word of why bytes are no note.
fn word_of_note_fault(fault: u8) -> &'static [u8]
    requires from_one { 1 ≤ fault }
    requires to_seven { fault ≤ 7 }
    ensures { result.now ≡ note_fault_word fault }
{
    match NoteKind::from_number(fault) {
        Some(kind) => kind.word().as_bytes(),
        None => unreachable!(),
    }
}

/// The line of a note that is no Submit, or none of a client of the broker.
fn push_stray_note(
    words: &mut Text,
    topo: &Topology,
    broker: u16,
    publisher: u16,
) -> Result<(), AllocError>
    requires { broker < length topo.now.brokers }
    ensures { OnOk result (words.new ≡ words.old ++ row_of topo.now (Report.DroppedStrayNote broker publisher)) }
{
    push_dropped(words, topo, broker, b"stray-note")?;
    push_number(words, publisher as u64)
}

/// The line of a dropped datagram that goes on with numbers.
fn push_dropped_numbers(
    words: &mut Text,
    topo: &Topology,
    broker: u16,
    cause: &[u8],
    numbers: &[u64],
) -> Result<(), AllocError>
    requires { broker < length topo.now.brokers }
    ensures { OnOk result (words.new ≡ words.old ++ behind_blanks
        (codes "dropped" ∷ (labels_of topo.now).broker broker ∷ cause.now ∷ map decimal numbers.now)) }
{
    push_dropped(words, topo, broker, cause)?;
    push_numbers(words, numbers)
}

/// The line of a frame whose joins split from those that are held.
fn push_split(
    words: &mut Text,
    topo: &Topology,
    broker: u16,
    at: u16,
    kept: &Join,
    came: &Join,
) -> Result<(), AllocError>
    requires { broker < length topo.now.brokers }
    ensures { OnOk result
        (words.new ≡ words.old ++ row_of topo.now (Report.DroppedSplit broker at kept.now came.now)) }
{
    push_dropped_numbers(
        words,
        topo,
        broker,
        b"split",
        &[
            at as u64,
            kept.subscriber as u64,
            kept.tick,
            came.subscriber as u64,
            came.tick,
        ],
    )
}

/// The line of a frame that clashes.
fn push_clash(
    words: &mut Text,
    topo: &Topology,
    broker: u16,
    tick: u64,
    kept: &K,
    came: &K,
) -> Result<(), AllocError>
    requires { broker < length topo.now.brokers }
    ensures { OnOk result
        (words.new ≡ words.old ++ row_of topo.now (Report.DroppedClash broker tick kept.now came.now)) }
{
    push_dropped(words, topo, broker, b"clash")?;
    push_number(words, tick)?;
    push_word(words, &[letter_of_know(kept)])?;
    push_word(words, &[letter_of_know(came)])
}

/// The line of a frame's bytes.
fn push_bytes(words: &mut Text, frame: u64, bytes: &Bytes) -> Result<(), AllocError>
    ensures { OnOk result (words.new ≡ words.old ++ behind_blanks
        (codes "bytes" ∷ decimal frame ∷ flat_map hex_pair bytes.now ∷ [])) }
{
    push_pair(words, b"bytes", frame)?;
    push_hex(words, bytes.as_slice())
}

/// The line of what became of a publish.
fn push_publish(words: &mut Text, report: &Report, topo: &Topology) -> Result<(), AllocError>
    requires family { IsOfPublish report.now }
    requires named { IsNamed topo.now report.now }
    ensures { OnOk result (words.new ≡ words.old ++ row_of topo.now report.now) }
{
    match report {
        Report::Logged {
            publisher,
            number,
            tick,
        } => push_publisher_line(words, topo, b" logged", *publisher, &[*number, *tick]),
        Report::Already { publisher, number } => push_publisher_line(
            words,
            topo,
            b" already",
            *publisher,
            &[*number],
        ),
        Report::Gap {
            publisher,
            number,
            next,
        } => push_gap(words, topo, *publisher, *number, *next),
        Report::Exhausted { publisher, number } => push_publisher_line(
            words,
            topo,
            b" exhausted",
            *publisher,
            &[*number],
        ),
        Report::Kept {
            publisher,
            number,
            tick,
        } => push_publisher_line(words, topo, b" kept", *publisher, &[*number, *tick]),
        Report::Lost {
            publisher,
            number,
            tick,
        } => push_publisher_line(words, topo, b" lost", *publisher, &[*number, *tick]),
        _ => unreachable!(),
    }
}

/// The line of what became of a join.
fn push_join(words: &mut Text, report: &Report, topo: &Topology) -> Result<(), AllocError>
    requires family { IsOfJoin report.now }
    requires named { IsNamed topo.now report.now }
    ensures { OnOk result (words.new ≡ words.old ++ row_of topo.now report.now) }
{
    match report {
        Report::Joined {
            subscriber,
            publisher,
            tick,
        } => push_named_tick(words, topo, b" joined", *subscriber, *publisher, *tick),
        Report::AlreadyJoined {
            subscriber,
            publisher,
        } => push_named_both(words, topo, b" already-joined", *subscriber, *publisher),
        Report::ExhaustedJoin {
            subscriber,
            publisher,
        } => push_named_both(words, topo, b" exhausted-join", *subscriber, *publisher),
        _ => unreachable!(),
    }
}

/// The line of what became of a log.
fn push_log_change(words: &mut Text, report: &Report, topo: &Topology) -> Result<(), AllocError>
    requires family { IsOfLog report.now }
    requires named { IsNamed topo.now report.now }
    ensures { OnOk result (words.new ≡ words.old ++ row_of topo.now report.now) }
{
    match report {
        Report::Opened {
            publisher,
            last,
            settled,
            cut,
        } => push_log(words, topo, b"opened", *publisher, *last, *settled, *cut),
        Report::Mark { publisher, tick } => push_publisher_line(
            words,
            topo,
            b" mark",
            *publisher,
            &[*tick],
        ),
        Report::Cut { publisher, tick } => push_publisher_line(
            words,
            topo,
            b" cut",
            *publisher,
            &[*tick],
        ),
        Report::Reclaimed {
            publisher,
            generation,
        } => push_publisher_line(words, topo, b" reclaimed", *publisher, &[*generation]),
        Report::Damaged { publisher, at } => push_publisher_line(
            words,
            topo,
            b" damaged",
            *publisher,
            &[*at],
        ),
        _ => unreachable!(),
    }
}

/// The line of what a subscriber is told, or of a horizon that is shown.
fn push_heard(words: &mut Text, report: &Report, topo: &Topology) -> Result<(), AllocError>
    requires family { IsOfHorizon report.now }
    requires named { IsNamed topo.now report.now }
    ensures { OnOk result (words.new ≡ words.old ++ row_of topo.now report.now) }
{
    match report {
        Report::Got {
            subscriber,
            publisher,
            tick,
            event,
        } => {
            push_named_tick(words, topo, b" got", *subscriber, *publisher, *tick)?;
            push_event(words, event)
        }
        Report::Horizon {
            subscriber,
            publisher,
            tick,
        } => push_named_tick(words, topo, b" horizon", *subscriber, *publisher, *tick),
        Report::Ordered {
            subscriber,
            publisher,
            tick,
            event,
        } => {
            push_named_tick(words, topo, b" ordered", *subscriber, *publisher, *tick)?;
            push_event(words, event)
        }
        Report::Doubt {
            broker,
            publisher,
            tick,
        } => push_doubt(words, topo, *broker, *publisher, *tick),
        _ => unreachable!(),
    }
}

/// The line of a frame that was sent.
fn push_frame(words: &mut Text, report: &Report, topo: &Topology) -> Result<(), AllocError>
    requires family { IsOfFrame report.now }
    requires named { IsNamed topo.now report.now }
    ensures { OnOk result (words.new ≡ words.old ++ row_of topo.now report.now) }
{
    match report {
        Report::SentKnow {
            number,
            from,
            to,
            publisher,
            runs,
            joins,
        } => {
            push_sent(words, topo, *number, *from, *to, b"know", *publisher)?;
            push_known(words, joins, runs)
        }
        Report::SentWant {
            number,
            from,
            to,
            publisher,
            runs,
        } => {
            push_sent(words, topo, *number, *from, *to, b"want", *publisher)?;
            push_want_runs(words, runs)
        }
        Report::SentExpect {
            number,
            from,
            to,
            publisher,
            tick,
        } => {
            push_sent(words, topo, *number, *from, *to, b"expect", *publisher)?;
            push_number(words, *tick)
        }
        _ => unreachable!(),
    }
}

/// The line of a datagram that was dropped.
fn push_drop(words: &mut Text, report: &Report, topo: &Topology) -> Result<(), AllocError>
    requires family { IsOfDrop report.now }
    requires named { IsNamed topo.now report.now }
    ensures { OnOk result (words.new ≡ words.old ++ row_of topo.now report.now) }
{
    match report {
        Report::DroppedNotFrame { broker, fault, at } => push_not_frame(
            words, topo, *broker, *fault, *at,
        ),
        Report::DroppedStray {
            broker,
            from,
            to,
            publisher,
        } => push_dropped_numbers(
            words,
            topo,
            *broker,
            b"stray",
            &[*from as u64, *to as u64, *publisher as u64],
        ),
        Report::DroppedSplit {
            broker,
            at,
            kept,
            came,
        } => push_split(words, topo, *broker, *at, kept, came),
        Report::DroppedClash {
            broker,
            tick,
            kept,
            came,
        } => push_clash(words, topo, *broker, *tick, kept, came),
        Report::DroppedBadNote { broker, fault, at } => {
            push_dropped(words, topo, *broker, b"bad-note")?;
            push_pair(words, word_of_note_fault(*fault), *at)
        }
        Report::DroppedStrayNote { broker, publisher } => push_stray_note(
            words, topo, *broker, *publisher,
        ),
        _ => unreachable!(),
    }
}

/// The line of a step that was refused.
fn push_refusal(words: &mut Text, report: &Report, topo: &Topology) -> Result<(), AllocError>
    requires family { IsOfRefusal report.now }
    requires named { IsNamed topo.now report.now }
    ensures { OnOk result (words.new ≡ words.old ++ row_of topo.now report.now) }
{
    match report {
        Report::RefusedHosts { line, broker } => push_refused_hosts(words, topo, *line, *broker),
        Report::RefusedFrame { line, frame, sent } => push_refused_frame(
            words, *line, *frame, *sent,
        ),
        Report::RefusedClock { line, moment } => push_refused_clock(words, *line, *moment),
        _ => unreachable!(),
    }
}

/// The line of what is shown: of how many frames, a log, or the bytes of a frame.
fn push_show(words: &mut Text, report: &Report, topo: &Topology) -> Result<(), AllocError>
    requires family { IsOfShow report.now }
    requires named { IsNamed topo.now report.now }
    ensures { OnOk result (words.new ≡ words.old ++ row_of topo.now report.now) }
{
    match report {
        Report::Frames { count } => push_pair(words, b"frames", *count),
        Report::LogOf {
            publisher,
            last,
            settled,
            cut,
            kept,
        } => push_shown_log(words, topo, *publisher, *last, *settled, *cut, *kept),
        Report::BytesOf { frame, bytes } => push_bytes(words, *frame, bytes),
        _ => unreachable!(),
    }
}

/// The words of a line, which go behind those that are there.
pub(crate) fn push_line(
    words: &mut Text,
    report: &Report,
    topo: &Topology,
) -> Result<(), AllocError>
    requires { IsNamed topo.now report.now }
    ensures { OnOk result (words.new ≡ words.old ++ row_of topo.now report.now) }
{
    match report {
        Report::Crashed { broker } => push_crashed(words, topo, *broker),
        Report::Swept { moment } => push_pair(words, b"swept", *moment),
        Report::RefusedHosts { .. } | Report::RefusedFrame { .. } | Report::RefusedClock { .. } => {
            push_refusal(words, report, topo)
        }
        Report::Frames { .. } | Report::LogOf { .. } | Report::BytesOf { .. } => {
            push_show(words, report, topo)
        }
        Report::Logged { .. }
        | Report::Already { .. }
        | Report::Gap { .. }
        | Report::Exhausted { .. }
        | Report::Kept { .. }
        | Report::Lost { .. } => push_publish(words, report, topo),
        Report::Joined { .. } | Report::AlreadyJoined { .. } | Report::ExhaustedJoin { .. } => {
            push_join(words, report, topo)
        }
        Report::Opened { .. }
        | Report::Mark { .. }
        | Report::Cut { .. }
        | Report::Reclaimed { .. }
        | Report::Damaged { .. } => push_log_change(words, report, topo),
        Report::Got { .. }
        | Report::Horizon { .. }
        | Report::Ordered { .. }
        | Report::Doubt { .. } => push_heard(words, report, topo),
        Report::SentKnow { .. } | Report::SentWant { .. } | Report::SentExpect { .. } => {
            push_frame(words, report, topo)
        }
        Report::DroppedNotFrame { .. }
        | Report::DroppedStray { .. }
        | Report::DroppedSplit { .. }
        | Report::DroppedClash { .. }
        | Report::DroppedBadNote { .. }
        | Report::DroppedStrayNote { .. } => push_drop(words, report, topo),
    }
}
