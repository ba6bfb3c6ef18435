//! The top call: words, a source, a sink, a disk and a post in memory, and what comes of them.
//!
//! What a run is given stands in texts of these names: `source`, what standard input holds; `lane`, what lane 0 of the
//! disk holds at first; `reads`, `writes`, `disk`, `offers` and `bindings`, the numbers of the calls of each that fail;
//! `room`, how many bytes the sink takes, 10,000 where it is empty; `script`, what comes to the post, cue by cue.

use crate::texts::Texts;
use crate::words::{put_counted, short_number, size};
use gr_out::{MemDisk, MemPost, MemSink, MemSource, Memory};
use gr_tests_rows::{Page, Stop, first_word, number, parted, unescaped};
use gr_top::gryphon;
use std::alloc::{AllocError, Global};
use std::str;

/// Each name of a text that a run is given.
const GIVEN: [&str; 9] = [
    "source", "lane", "reads", "writes", "disk", "offers", "bindings", "room", "script",
];

/// How many bytes a sink takes where no row says it.
const ROOM: usize = 10_000;

/// How many offers are looked at.
const OFFERS: u64 = 9;

/// Answers a row about the top call.
pub fn answer(alloc: Global, texts: &mut Texts, row: &str, page: &mut Page) -> Result<(), Stop> {
    let (call, rest) = first_word(row);
    match call {
        "anew" => anew(alloc, texts),
        "run" => run(alloc, texts, rest, usize::MAX, page),
        "front" => run(alloc, texts, rest, 2, page),
        "offers" => run_offers(alloc, texts, rest, page),
        "lane" => run_lane(alloc, texts, rest, page),
        "keep" => run_kept(alloc, texts, rest, page),
        "picks" => picks(alloc, texts, rest, page),
        _ => Err(Stop::NoRow),
    }
}

/// The row `anew`: nothing is given.
fn anew(alloc: Global, texts: &mut Texts) -> Result<(), Stop> {
    for name in GIVEN.iter() {
        texts.put(alloc, name, Vec::new(alloc))?;
    }
    Ok(())
}

/// A text of bytes.
fn text_of(bytes: &[u8]) -> Result<&str, Stop> {
    match str::from_utf8(bytes) {
        Ok(text) => Ok(text),
        Err(_) => Err(Stop::NoRow),
    }
}

/// The numbers in a text.
fn numbers_of(alloc: Global, text: &[u8]) -> Result<Vec<u64>, Stop> {
    let text = text_of(text)?;
    let mut numbers = Vec::new(alloc);
    for word in text.split(' ') {
        push_number(word, &mut numbers)?;
    }
    Ok(numbers)
}

/// Puts the number of a word at the end, if there is a word.
fn push_number(word: &str, numbers: &mut Vec<u64>) -> Result<(), Stop> {
    if word.is_empty() {
        return Ok(());
    }
    Ok(numbers.push(number(word)?)?)
}

/// The room in the sink of a run.
fn room_of(texts: &Texts) -> Result<usize, Stop> {
    let room = texts.of("room");
    if room.is_empty() {
        return Ok(ROOM);
    }
    size(text_of(room)?)
}

/// The sink of a run.
fn sink_of(alloc: Global, texts: &Texts) -> Result<MemSink, Stop> {
    let room = room_of(texts)?;
    let fails = numbers_of(alloc, texts.of("writes"))?;
    Ok(MemSink::new(alloc, room, fails.as_slice())?)
}

/// The source of a run.
fn source_of(alloc: Global, texts: &Texts) -> Result<MemSource, Stop> {
    let fails = numbers_of(alloc, texts.of("reads"))?;
    Ok(MemSource::new(alloc, texts.of("source"), fails.as_slice())?)
}

/// The disk of a run, with what its lane holds at first.
fn disk_of(alloc: Global, texts: &Texts) -> Result<MemDisk, Stop> {
    let mut disk = bare_disk(alloc, texts)?;
    put_lane(texts.of("lane"), &mut disk)?;
    Ok(disk)
}

/// The disk of a run, with nothing in its lanes.
fn bare_disk(alloc: Global, texts: &Texts) -> Result<MemDisk, Stop> {
    let fails = numbers_of(alloc, texts.of("disk"))?;
    Ok(MemDisk::new(alloc, fails.as_slice())?)
}

/// Puts bytes into lane 0, if there are any.
fn put_lane(bytes: &[u8], disk: &mut MemDisk) -> Result<(), AllocError> {
    if bytes.is_empty() {
        return Ok(());
    }
    disk.put(0, bytes)
}

/// The post of a run, before its script.
fn bare_post(alloc: Global, texts: &Texts) -> Result<MemPost, Stop> {
    let offers = numbers_of(alloc, texts.of("offers"))?;
    post_with(alloc, offers.as_slice(), texts.of("bindings"))
}

/// A post of which these offers fail, and the bindings with the numbers in a text.
fn post_with(alloc: Global, offers: &[u64], bindings: &[u8]) -> Result<MemPost, Stop> {
    let bindings = numbers_of(alloc, bindings)?;
    Ok(MemPost::new(alloc, offers, bindings.as_slice())?)
}

/// The post of a run, with its script.
fn post_of(alloc: Global, texts: &Texts) -> Result<MemPost, Stop> {
    let script = text_of(texts.of("script"))?;
    let mut post = bare_post(alloc, texts)?;
    put_script(texts, &mut post, script)?;
    Ok(post)
}

/// Puts the cues of a script, a line each, behind the script of a post.
fn put_script(texts: &Texts, post: &mut MemPost, script: &str) -> Result<(), Stop> {
    for line in script.lines() {
        put_cue(texts, post, line)?;
    }
    Ok(())
}

/// Puts a cue behind a script: `quiet MOMENT`, `pass OFFER MOMENT`, `raw NODE NAME MOMENT` or `fail`. A node is a
/// broker's by its number, or 64 and more for a publisher's client; a name is that of a text.
fn put_cue(texts: &Texts, post: &mut MemPost, cue: &str) -> Result<(), Stop> {
    let (kind, rest) = first_word(cue);
    match kind {
        "quiet" => Ok(post.quiet(number(rest)?)?),
        "pass" => put_pass(post, rest),
        "raw" => put_raw(texts, post, rest),
        "fail" => Ok(post.fail()?),
        _ => Err(Stop::NoRow),
    }
}

/// Puts an offer that passes behind a script.
fn put_pass(post: &mut MemPost, words: &str) -> Result<(), Stop> {
    let (offer, moment) = parted(words, " ")?;
    Ok(post.pass(number(offer)?, number(moment)?)?)
}

/// Puts bytes that come behind a script.
fn put_raw(texts: &Texts, post: &mut MemPost, words: &str) -> Result<(), Stop> {
    let (node, rest) = parted(words, " ")?;
    let (name, moment) = parted(rest, " ")?;
    Ok(post.raw(short_number(node)?, texts.of(name), number(moment)?)?)
}

/// The words of a run, each with escapes; the word `''` is empty.
fn words_of(alloc: Global, row: &str) -> Result<Vec<Vec<u8>>, Stop> {
    let mut words = Vec::new(alloc);
    for word in row.split(' ') {
        push_word(alloc, word, &mut words)?;
    }
    Ok(words)
}

/// Puts a word at the end, if there is one.
fn push_word(alloc: Global, word: &str, words: &mut Vec<Vec<u8>>) -> Result<(), Stop> {
    if word.is_empty() {
        return Ok(());
    }
    let spelled = if word == "''" { "" } else { word };
    Ok(words.push(unescaped(alloc, spelled)?)?)
}

/// Words as texts.
fn as_texts(alloc: Global, spelled: &[Vec<u8>]) -> Result<Vec<&str>, Stop> {
    let mut words = Vec::new(alloc);
    for word in spelled {
        words.push(text_of(word.as_slice())?)?;
    }
    Ok(words)
}

/// Makes the top call over a source, a sink, a disk and a post, and gives the status.
fn called(
    alloc: Global,
    texts: &Texts,
    row: &str,
    sink: &mut MemSink,
    disk: &mut MemDisk,
    post: &mut MemPost,
) -> Result<u8, Stop> {
    let spelled = words_of(alloc, row)?;
    call_spelled(alloc, texts, spelled.as_slice(), sink, disk, post)
}

/// Makes the top call with words of bytes.
fn call_spelled(
    alloc: Global,
    texts: &Texts,
    spelled: &[Vec<u8>],
    sink: &mut MemSink,
    disk: &mut MemDisk,
    post: &mut MemPost,
) -> Result<u8, Stop> {
    let words = as_texts(alloc, spelled)?;
    call_words(alloc, texts, words.as_slice(), sink, disk, post)
}

/// Makes the top call with words.
fn call_words(
    alloc: Global,
    texts: &Texts,
    words: &[&str],
    sink: &mut MemSink,
    disk: &mut MemDisk,
    post: &mut MemPost,
) -> Result<u8, Stop> {
    let mut source = source_of(alloc, texts)?;
    Ok(gryphon(alloc, words, &mut source, sink, disk, post))
}

/// Makes the top call, and prints its status and, up to so many lines, what it printed; two dots where that ends
/// within a line.
fn printed(
    alloc: Global,
    texts: &Texts,
    row: &str,
    most: usize,
    disk: &mut MemDisk,
    post: &mut MemPost,
    page: &mut Page,
) -> Result<(), Stop> {
    let mut sink = sink_of(alloc, texts)?;
    let status = called(alloc, texts, row, &mut sink, disk, post)?;
    put_printed(status, sink.bytes(), most, page)
}

/// Prints a status and, up to so many, the lines of bytes.
fn put_printed(status: u8, bytes: &[u8], most: usize, page: &mut Page) -> Result<(), Stop> {
    let text = text_of(bytes)?;
    put_counted("  status ", u64::from(status), page);
    page.push('\n');
    for line in text.split_inclusive('\n').take(most) {
        put_line(line, page);
    }
    Ok(())
}

/// Prints a line, and two dots where it does not end.
fn put_line(line: &str, page: &mut Page) {
    page.push_str("  ");
    page.push_str(line);
    if !line.ends_with('\n') {
        page.push_str(" ..\n");
    }
}

/// The rows `run WORDS..` and `front WORDS..`: the status, and what was printed, or its first two lines.
fn run(alloc: Global, texts: &Texts, row: &str, most: usize, page: &mut Page) -> Result<(), Stop> {
    let mut disk = disk_of(alloc, texts)?;
    run_on(alloc, texts, row, most, &mut disk, page)
}

/// A run on a disk.
fn run_on(
    alloc: Global,
    texts: &Texts,
    row: &str,
    most: usize,
    disk: &mut MemDisk,
    page: &mut Page,
) -> Result<(), Stop> {
    let mut post = post_of(alloc, texts)?;
    printed(alloc, texts, row, most, disk, &mut post, page)
}

/// The row `offers WORDS..`: the same, and each of the first offers to the post.
fn run_offers(alloc: Global, texts: &Texts, row: &str, page: &mut Page) -> Result<(), Stop> {
    let mut post = post_of(alloc, texts)?;
    run_with(alloc, texts, row, &mut post, page)?;
    put_offers(&post, page);
    Ok(())
}

/// A run with a post.
fn run_with(
    alloc: Global,
    texts: &Texts,
    row: &str,
    post: &mut MemPost,
    page: &mut Page,
) -> Result<(), Stop> {
    let mut disk = disk_of(alloc, texts)?;
    printed(alloc, texts, row, usize::MAX, &mut disk, post, page)
}

/// Prints the first offers to a post.
fn put_offers(post: &MemPost, page: &mut Page) {
    for n in 1..OFFERS {
        if let Some(offer) = post.offered(n) {
            put_offer(n, offer, page);
        }
    }
}

/// Prints an offer.
fn put_offer(n: u64, offer: &[u8], page: &mut Page) {
    put_counted("  offer ", n, page);
    page.push(' ');
    page.push_hex(offer);
    page.push('\n');
}

/// The row `lane WORDS..`: the same as `run`, and what lane 0 holds then, which is what the next run finds there.
fn run_lane(alloc: Global, texts: &mut Texts, row: &str, page: &mut Page) -> Result<(), Stop> {
    let mut disk = disk_of(alloc, texts)?;
    run_on(alloc, texts, row, usize::MAX, &mut disk, page)?;
    keep_lane(alloc, texts, disk.lane(0), page)
}

/// Prints what a lane holds, and keeps it for the next run.
fn keep_lane(alloc: Global, texts: &mut Texts, lane: &[u8], page: &mut Page) -> Result<(), Stop> {
    page.push_str("  lane ");
    page.push_hex(lane);
    page.push('\n');
    texts.put(alloc, "lane", Vec::from_slice(alloc, lane)?)
}

/// The row `keep WORDS..`: the same as `run`, and what was printed is the text `traced` then.
fn run_kept(alloc: Global, texts: &mut Texts, row: &str, page: &mut Page) -> Result<(), Stop> {
    let mut sink = sink_of(alloc, texts)?;
    let status = run_into(alloc, texts, row, &mut sink)?;
    put_printed(status, sink.bytes(), usize::MAX, page)?;
    texts.put(alloc, "traced", Vec::from_slice(alloc, sink.bytes())?)
}

/// A run into a sink, and its status.
fn run_into(alloc: Global, texts: &Texts, row: &str, sink: &mut MemSink) -> Result<u8, Stop> {
    let mut post = post_of(alloc, texts)?;
    run_between(alloc, texts, row, sink, &mut post)
}

/// A run into a sink, over a post.
fn run_between(
    alloc: Global,
    texts: &Texts,
    row: &str,
    sink: &mut MemSink,
    post: &mut MemPost,
) -> Result<u8, Stop> {
    let mut disk = disk_of(alloc, texts)?;
    called(alloc, texts, row, sink, &mut disk, post)
}

/// The row `picks NUMBER CALL`: the first publish, or the second one, is stopped inside at that call of the disk, and
/// then made again, with each pick of what the stop leaves. The report is the text `kept` or the text `lost`; prints
/// for which picks it is `kept`, and how many leave `lost`.
fn picks(alloc: Global, texts: &Texts, row: &str, page: &mut Page) -> Result<(), Stop> {
    let (number, call) = parted(row, " ")?;
    let mut lost = 0u64;
    page.push_str("  kept at");
    for pick in 0..256u64 {
        let report = stopped(alloc, number, call, pick)?;
        if put_pick(texts, pick, report.as_slice(), page) {
            lost = lost.wrapping_add(1);
        }
    }
    put_counted(", lost at ", lost, page);
    page.push('\n');
    Ok(())
}

/// Prints a pick, but where the report is the text `lost`; says whether it is that.
fn put_pick(texts: &Texts, pick: u64, report: &[u8], page: &mut Page) -> bool {
    if report == texts.of("kept") {
        put_counted(" ", pick, page);
        return false;
    }
    if report == texts.of("lost") {
        return true;
    }
    put_counted(" else at ", pick, page);
    false
}

/// The report of a publish that is stopped, and of one that follows it.
fn stopped(alloc: Global, number: &str, call: &str, pick: u64) -> Result<Vec<u8>, Stop> {
    let text = stopping(alloc, number, call, pick)?;
    report_of(alloc, text.as_bytes())
}

/// A scenario with a publish that is stopped, and one that follows it. Before the second publish the first is logged.
fn stopping(alloc: Global, number: &str, call: &str, pick: u64) -> Result<String, AllocError> {
    let mut page = Page::new(alloc);
    page.push_str("---\nclock 1000\n");
    if number == "2" {
        page.push_str("publish P 1 {\"no\":1}\n");
    }
    put_publish(number, &mut page);
    page.push_str(" stop ");
    page.push_str(call);
    put_counted(" pick ", pick, &mut page);
    page.push_str(" {\"n\":1}\n");
    put_publish(number, &mut page);
    page.push_str(" {\"n\":1}\n");
    page.finish()
}

/// The first words of a publish.
fn put_publish(number: &str, page: &mut Page) {
    page.push_str("publish P ");
    page.push_str(number);
}

/// What a replay of a scenario reports.
fn report_of(alloc: Global, text: &[u8]) -> Result<Vec<u8>, Stop> {
    let mut sink = MemSink::new(alloc, ROOM, &[])?;
    replay_into(alloc, text, &mut sink)?;
    Ok(Vec::from_slice(alloc, sink.bytes())?)
}

/// Replays a scenario into a sink.
fn replay_into(alloc: Global, text: &[u8], sink: &mut MemSink) -> Result<(), AllocError> {
    let mut source = MemSource::new(alloc, text, &[])?;
    replay_from(alloc, &mut source, sink)
}

/// Replays a source into a sink.
fn replay_from(
    alloc: Global,
    source: &mut MemSource,
    sink: &mut MemSink,
) -> Result<(), AllocError> {
    let mut disk = MemDisk::new(alloc, &[])?;
    replay_on(alloc, source, sink, &mut disk)
}

/// Replays a source into a sink, over a disk.
fn replay_on(
    alloc: Global,
    source: &mut MemSource,
    sink: &mut MemSink,
    disk: &mut MemDisk,
) -> Result<(), AllocError> {
    let mut post = MemPost::new(alloc, &[], &[])?;
    let _ = gryphon(alloc, &["replay"], source, sink, disk, &mut post);
    Ok(())
}
