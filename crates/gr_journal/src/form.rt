//! The form of a line of a journal.

ghost use Rattle.std.specs.Prelude.{◌≡◌, [], option_map, IfOk, Some};
ghost use Rattle.gr_journal.specs.Lines.{is_among, hosted_by, brokers_named, process_form, quiet_form, datagram_form};
ghost use Rattle.gr_journal.specs.Lines.{datagram_words, came_form, say_form, bytes_form, offer_words, offer_form};
ghost use Rattle.gr_journal.specs.Lines.{group_form, form_of};
ghost use Rattle.gr_journal.specs.Words.{words_of, more_words, datagram_of};

use crate::arrival::Arrival;
use crate::words::{cut, datagram_of, is_hex, moment_of, only_word};
use gr_event::Numbers;
use gr_sched::Names;
use gr_topo::Topology;
use std::alloc::{AllocError, Global};

/// The form of a line of a journal.
#[derive(Drop)]
pub enum Form {
    /// `process B...`: a journal begins, of a process with these brokers.
    Process { brokers: Numbers },
    /// `quiet M` or `in B M HEX`: an arrival begins a group.
    Arrives { arrival: Arrival },
    /// `say LINE` or `out FROM TO HEX`: what the group told or offered.
    Follows,
}

/// The form of a line within a process of these brokers, if it has one; before any process there are none.
pub(crate) fn form_of(
    alloc: Global,
    topo: &Topology,
    process: Option<&[u16]>,
    line: &[u8],
) -> Result<Option<Form>, AllocError>
    ensures { IfOk result (λ form. form ≡ form_of topo.now (option_map (λ p. p.now) process.entry) line.now) }
{
    let (word, words) = cut(line);
    if word == b"process".as_slice() {
        return process_form(alloc, topo, words);
    }
    match process {
        None => Ok(None),
        Some(hosted) => group_form(alloc, topo, hosted, word, words),
    }
}

/// The form of a line behind its first word, within a process of these brokers.
fn group_form(
    alloc: Global,
    topo: &Topology,
    hosted: &[u16],
    word: &[u8],
    words: Option<&[u8]>,
) -> Result<Option<Form>, AllocError>
    ensures { IfOk result (λ form. form
        ≡ group_form topo.now hosted.now word.now (more_words (option_map (λ w. w.now) words.entry))) }
{
    if word == b"quiet".as_slice() {
        return Ok(quiet_form(only_word(words)));
    }
    if word == b"in".as_slice() {
        return datagram_form(alloc, topo, hosted, words);
    }
    if word == b"say".as_slice() {
        return Ok(say_form(words));
    }
    if word == b"out".as_slice() {
        return Ok(offer_form(topo, hosted, words));
    }
    Ok(None)
}

/// A process of the brokers that words name, if each word names one and there is one.
#[tactic(auto, using(crate::proofs::Wording::process_words))]
fn process_form(
    alloc: Global,
    topo: &Topology,
    words: Option<&[u8]>,
) -> Result<Option<Form>, AllocError>
    ensures { IfOk result (λ form. form ≡ process_form topo.now (more_words (option_map (λ w. w.now) words.entry))) }
{
    match words {
        None => Ok(None),
        Some(text) => match brokers_named(alloc, topo, text)? {
            Some(brokers) => Ok(Some(Form::Process { brokers })),
            None => Ok(None),
        },
    }
}

/// The brokers that the words of a text name, if each names one.
fn brokers_named(alloc: Global, topo: &Topology, text: &[u8]) -> Result<Option<Numbers>, AllocError>
    ensures { IfOk result (λ brokers. brokers ≡ brokers_named topo.now [] (words_of text.now)) }
{
    let mut brokers = Numbers::new(alloc);
    let mut rest = text;
    'words: loop {
        let (word, behind) = cut(rest);
        let Some(broker) = topo.broker(word) else {
            return Ok(None);
        };
        brokers.push(broker)?;
        let Some(next) = behind else {
            return Ok(Some(brokers));
        };
        rest = next;
    }
}

/// A quiet moment, if a word is a moment.
fn quiet_form(word: Option<&[u8]>) -> Option<Form>
    ensures { result ≡ quiet_form (option_map (λ w. w.now) word.entry) }
{
    match word {
        None => None,
        Some(word) => match moment_of(word) {
            Some(moment) => Some(Form::Arrives {
                arrival: Arrival::Quiet { moment },
            }),
            None => None,
        },
    }
}

/// Whether a broker is one of these.
pub(crate) fn is_among(brokers: &[u16], broker: u16) -> bool
    ensures { result ≡ is_among brokers.now broker }
{
    brokers.contains(&broker)
}

/// The broker of a process that a word names.
fn hosted_by(topo: &Topology, hosted: &[u16], word: &[u8]) -> Option<u16>
    ensures { result ≡ hosted_by topo.now hosted.now word.now }
{
    match topo.broker(word) {
        Some(broker) if is_among(hosted, broker) => Some(broker),
        _ => None,
    }
}

/// A datagram, if words are a broker of the process, a moment and bytes.
fn datagram_form(
    alloc: Global,
    topo: &Topology,
    hosted: &[u16],
    words: Option<&[u8]>,
) -> Result<Option<Form>, AllocError>
    ensures { IfOk result (λ form. form
        ≡ datagram_form topo.now hosted.now (more_words (option_map (λ w. w.now) words.entry))) }
{
    let Some(text) = words else {
        return Ok(None);
    };
    let (word, behind) = cut(text);
    match hosted_by(topo, hosted, word) {
        Some(broker) => datagram_words(alloc, broker, behind),
        None => Ok(None),
    }
}

/// A datagram to a broker, if words are a moment and bytes.
fn datagram_words(
    alloc: Global,
    broker: u16,
    words: Option<&[u8]>,
) -> Result<Option<Form>, AllocError>
    ensures { IfOk result (λ form. form
        ≡ datagram_words (Some broker) (more_words (option_map (λ w. w.now) words.entry))) }
{
    let Some(text) = words else {
        return Ok(None);
    };
    let (word, behind) = cut(text);
    let Some(last) = only_word(behind) else {
        return Ok(None);
    };
    match moment_of(word) {
        Some(moment) => came_form(alloc, broker, moment, last),
        None => Ok(None),
    }
}

/// A datagram to a broker at a moment, if a word says its bytes.
fn came_form(
    alloc: Global,
    broker: u16,
    moment: u64,
    word: &[u8],
) -> Result<Option<Form>, AllocError>
    ensures { IfOk result (λ form. form ≡ came_form broker (Some moment) (datagram_of word.now)) }
{
    match datagram_of(alloc, word)? {
        Some(bytes) => Ok(Some(Form::Arrives {
            arrival: Arrival::Datagram {
                broker,
                moment,
                bytes,
            },
        })),
        None => Ok(None),
    }
}

/// A line of the report: anything behind a space.
#[tactic(auto, using(crate::proofs::Wording::say_words))]
fn say_form(words: Option<&[u8]>) -> Option<Form>
    ensures { result ≡ say_form (more_words (option_map (λ w. w.now) words.entry)) }
{
    match words {
        None => None,
        Some(_) => Some(Form::Follows),
    }
}

/// An offer, if words are a broker of the process, a broker and bytes.
fn offer_form(topo: &Topology, hosted: &[u16], words: Option<&[u8]>) -> Option<Form>
    ensures { result ≡ offer_form topo.now hosted.now (more_words (option_map (λ w. w.now) words.entry)) }
{
    let Some(text) = words else {
        return None;
    };
    let (word, behind) = cut(text);
    match hosted_by(topo, hosted, word) {
        Some(from) => offer_words(topo, from, behind),
        None => None,
    }
}

/// An offer of a broker, if words are a broker and bytes.
fn offer_words(topo: &Topology, from: u16, words: Option<&[u8]>) -> Option<Form>
    ensures { result ≡ offer_words topo.now (Some from) (more_words (option_map (λ w. w.now) words.entry)) }
{
    let Some(text) = words else {
        return None;
    };
    let (word, behind) = cut(text);
    if topo.broker(word).is_none() {
        return None;
    }
    bytes_form(only_word(behind))
}

/// An offer, if a word says bytes.
fn bytes_form(word: Option<&[u8]>) -> Option<Form>
    ensures { result ≡ bytes_form (option_map (λ w. w.now) word.entry) }
{
    match word {
        Some(word) if is_hex(word) => Some(Form::Follows),
        _ => None,
    }
}
