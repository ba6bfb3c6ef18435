//! Reading journals, line by line.

ghost use Rattle.std.specs.Prelude.{◌≡◌, ◌<◌, ◌^◌, ◌++◌, codes, length, take, option_map, IfOk, OnOk};
ghost use Rattle.gr_journal.specs.Gives.{Gives};
ghost use Rattle.gr_journal.specs.Lines.{taken_of, begun_journal, with_text, with_arrival, closed};
ghost use Rattle.gr_journal.specs.Lines.{with_form, with_line, journals_of};

use crate::arrival::{Arrival, Came, CameList, MAX_DATAGRAM};
use crate::fault::AuditFault;
use crate::form::{Form, form_of};
use crate::journal::{Journal, JournalList};
use crate::spelling::{process_text, push_arrival};
use crate::text::next_line;
use gr_event::{Bytes, Numbers};
use gr_topo::Topology;
use std::alloc::{AllocError, Global};

/// Reads journals: each of their lines has one of five forms, or the first that has none is the answer.
pub fn read_journals(
    alloc: Global,
    topo: &Topology,
    bytes: &[u8],
) -> Result<JournalList, AuditFault>
    requires { length bytes.now < 2 ^ 32 }
    ensures { Gives (λ journals. journals) result (journals_of topo.now bytes.now) }
{
    let mut journals = JournalList::new(alloc);
    let mut open = None;
    let mut number = 0u32;
    let mut rest = bytes;
    'lines: while !rest.is_empty() {
        let (line, behind) = next_line(rest);
        number += 1;
        match put_line(alloc, topo, &mut journals, &mut open, number, line) {
            Ok(()) => {}
            Err(fault) => return Err(fault),
        }
        rest = behind;
    }
    close(&mut journals, &mut open)?;
    Ok(journals)
}

/// Puts the journal that goes on behind those that are read.
fn close(journals: &mut JournalList, open: &mut Option<Journal>) -> Result<(), AllocError>
    ensures { OnOk result (journals.new ≡ closed (journals.old, open.old)) }
{
    match open.take() {
        Some(journal) => journals.push(journal),
        None => Ok(()),
    }
}

/// Reads the line of this number.
fn put_line(
    alloc: Global,
    topo: &Topology,
    journals: &mut JournalList,
    open: &mut Option<Journal>,
    number: u32,
    line: &[u8],
) -> Result<(), AuditFault>
    ensures { Gives (λ _. (journals.new, open.new)) result
        (with_line topo.now (journals.old, open.old) number line.now) }
{
    match form_of(alloc, topo, process_of(open), line)? {
        Some(form) => Ok(put_form(alloc, topo, journals, open, number, line, form)?),
        None => Err(AuditFault::BadLine { line: number }),
    }
}

/// The brokers of the process whose journal goes on.
fn process_of(open: &Option<Journal>) -> Option<&[u16]>
    ensures { option_map (λ p. p.now) result ≡ option_map (λ j. j.brokers) open.now }
{
    match open {
        Some(journal) => Some(journal.brokers.as_slice()),
        None => None,
    }
}

/// Puts the line of this number, which has this form.
fn put_form(
    alloc: Global,
    topo: &Topology,
    journals: &mut JournalList,
    open: &mut Option<Journal>,
    number: u32,
    line: &[u8],
    form: Form,
) -> Result<(), AllocError>
    ensures { OnOk result ((journals.new, open.new)
        ≡ with_form topo.now (journals.old, open.old) number line.now form) }
{
    match form {
        Form::Process { brokers } => {
            close(journals, open)?;
            *open = Some(begin(alloc, topo, number, brokers)?);
            Ok(())
        }
        Form::Arrives { arrival } => put_arrival(alloc, topo, open, number, arrival),
        Form::Follows => put_text(open, line),
    }
}

/// A journal that begins with the line of this number.
fn begin(
    alloc: Global,
    topo: &Topology,
    first: u32,
    brokers: Numbers,
) -> Result<Journal, AllocError>
    ensures { IfOk result (λ journal. journal ≡ begun_journal topo.now first brokers) }
{
    let text = process_text(alloc, topo, brokers.as_slice())?;
    Ok(Journal {
        first,
        brokers,
        text,
        came: CameList::new(alloc),
    })
}

/// Puts an arrival into the journal that goes on.
fn put_arrival(
    alloc: Global,
    topo: &Topology,
    open: &mut Option<Journal>,
    line: u32,
    arrival: Arrival,
) -> Result<(), AllocError>
    ensures { OnOk result (open.new ≡ option_map (with_arrival topo.now line arrival) open.old) }
{
    let Some(journal) = open.take() else {
        return Ok(());
    };
    *open = Some(journal_with_arrival(alloc, topo, journal, line, arrival)?);
    Ok(())
}

/// A journal with an arrival more.
fn journal_with_arrival(
    alloc: Global,
    topo: &Topology,
    journal: Journal,
    line: u32,
    arrival: Arrival,
) -> Result<Journal, AllocError>
    ensures { IfOk result (λ more. more ≡ with_arrival topo.now line arrival journal) }
{
    let Journal {
        first,
        brokers,
        mut text,
        mut came,
    } = journal;
    push_arrival(topo, &arrival, &mut text)?;
    came.push(Came {
        line,
        arrival: taken_of(alloc, arrival)?,
    })?;
    Ok(Journal {
        first,
        brokers,
        text,
        came,
    })
}

/// What a process takes of an arrival.
fn taken_of(alloc: Global, arrival: Arrival) -> Result<Arrival, AllocError>
    ensures { IfOk result (λ taken. taken ≡ taken_of arrival) }
{
    match arrival {
        Arrival::Quiet { moment } => Ok(Arrival::Quiet { moment }),
        Arrival::Datagram {
            broker,
            moment,
            bytes,
        } => Ok(Arrival::Datagram {
            broker,
            moment,
            bytes: first_bytes(alloc, bytes, MAX_DATAGRAM)?,
        }),
    }
}

/// The first of these bytes, so many at most.
#[tactic(auto, using(crate::proofs::Wording::all_taken))]
fn first_bytes(alloc: Global, bytes: Bytes, most: usize) -> Result<Bytes, AllocError>
    ensures { IfOk result (λ first. first ≡ take most bytes) }
{
    if bytes.len() <= most {
        return Ok(bytes);
    }
    Bytes::from_slice(alloc, &bytes.as_slice()[..most])
}

/// Puts a line as it stands into the journal that goes on.
fn put_text(open: &mut Option<Journal>, line: &[u8]) -> Result<(), AllocError>
    ensures { OnOk result (open.new ≡ option_map (λ j. with_text j (line.now ++ codes "\n")) open.old) }
{
    let Some(journal) = open.take() else {
        return Ok(());
    };
    *open = Some(journal_with_line(journal, line)?);
    Ok(())
}

/// A journal with a line more.
fn journal_with_line(journal: Journal, line: &[u8]) -> Result<Journal, AllocError>
    ensures { IfOk result (λ more. more ≡ with_text journal (line.now ++ codes "\n")) }
{
    let Journal {
        first,
        brokers,
        mut text,
        came,
    } = journal;
    text.append(line)?;
    text.push(b'\n')?;
    Ok(Journal {
        first,
        brokers,
        text,
        came,
    })
}
