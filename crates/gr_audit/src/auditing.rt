//! The audit of journals.

ghost use Rattle.std.specs.Prelude.{◌≡◌, ◌≤◌, false, [], length, map, None, Ok, IfOk};
ghost use Rattle.gr_sched.specs.declared.step.TheConstants.{MAX_INPUT_BYTES};
ghost use Rattle.gr_journal.specs.Gives.{Gives};
ghost use Rattle.gr_journal.specs.Lines.{rising};
ghost use Rattle.gr_audit.specs.Audited.{has_clients, wrong_line, differing, links_of, order_verdict};
ghost use Rattle.gr_audit.specs.Audited.{text_verdict, verdict_of, audited};
ghost use Rattle.gr_audit.specs.Coming.{AllComeTo, AllCome};
ghost use Rattle.gr_audit.specs.Noted.{with_links, with_journals};

use crate::comparison::Comparison;
use crate::given::Given;
use crate::links::Links;
use crate::machine::{Machine, Ran};
use crate::verdict::{Verdict, Why};
use gr_journal::{AuditFault, Journal, read_journals, rising, unhosted};
use gr_topo::Topology;
use std::alloc::{AllocError, Global};
use std::mem;

/// Says whether journals are one honest run of brokers that behave as the machine says. No publisher may have a client.
/// Takes time in the length of the journals beside that of the runs, and memory for the journals, the offers and one
/// process.
#[tactic(auto, using(crate::proofs::Sound::journals_come))]
pub fn audit<M: Machine>(
    alloc: Global,
    topo: &Topology,
    machine: &M,
    journals: &[u8],
) -> Result<Verdict, AuditFault>
    requires short { length journals.now ≤ MAX_INPUT_BYTES }
    requires fits { M.fits machine.now topo.now }
    ensures { Gives (λ v. v) result (audited (M.behaves machine.now topo.now) topo.now journals.now) }
{
    if has_clients(topo) {
        return Err(AuditFault::Clients);
    }
    match read_journals(alloc, topo, journals) {
        Ok(journals) => Ok(verdict(alloc, topo, machine, journals.as_slice())?),
        Err(fault) => Err(fault),
    }
}

/// Whether some publisher has a client.
pub fn has_clients(topo: &Topology) -> bool
    ensures { result ≡ has_clients topo.now }
{
    for p in 0..topo.publishers() {
        if topo.client(p).is_some() {
            return true;
        }
    }
    false
}

/// What is said of journals.
fn verdict<M: Machine>(
    alloc: Global,
    topo: &Topology,
    machine: &M,
    journals: &[Journal],
) -> Result<Verdict, AllocError>
    requires fits { M.fits machine.now topo.now }
    requires unheard { has_clients topo.now ≡ false }
    requires come { AllCome topo.now journals.now }
    ensures { IfOk result (λ v. v ≡ verdict_of (M.behaves machine.now topo.now) topo.now journals.now) }
{
    match unhosted(alloc, topo, journals)? {
        Some(line) => Ok(Verdict::No {
            line,
            why: Why::NotHosted,
        }),
        None => compared(alloc, topo, machine, journals),
    }
}

/// What is said of journals of processes that have each broker once.
fn compared<M: Machine>(
    alloc: Global,
    topo: &Topology,
    machine: &M,
    journals: &[Journal],
) -> Result<Verdict, AllocError>
    requires fits { M.fits machine.now topo.now }
    requires unheard { has_clients topo.now ≡ false }
    requires come { AllCome topo.now journals.now }
    ensures { IfOk result (λ v. v ≡ text_verdict (M.behaves machine.now topo.now) topo.now journals.now) }
{
    let mut links = Links::new(alloc);
    match compare_all(alloc, topo, machine, journals, &mut links)? {
        Some(line) => Ok(Verdict::No {
            line,
            why: Why::Differs,
        }),
        None => ordered(alloc, links),
    }
}

/// What is said of groups.
fn ordered(alloc: Global, links: Links) -> Result<Verdict, AllocError>
    ensures { IfOk result (λ v. v ≡ order_verdict links.before) }
{
    match links.line_that_stays(alloc)? {
        Some(line) => Ok(Verdict::No {
            line,
            why: Why::Unoffered,
        }),
        None => Ok(Verdict::Yes),
    }
}

/// Compares journals, and notes their groups: the line of the first that differs, if one does.
fn compare_all<M: Machine>(
    alloc: Global,
    topo: &Topology,
    machine: &M,
    journals: &[Journal],
    links: &mut Links,
) -> Result<Option<u32>, AllocError>
    requires fits { M.fits machine.now topo.now }
    requires unheard { has_clients topo.now ≡ false }
    requires come { AllCome topo.now journals.now }
    requires none { links.old.now ≡ [] }
    ensures line { IfOk result (λ line. line ≡ differing (M.behaves machine.now topo.now) topo.now journals.now) }
    ensures noted { result ≡ Ok None
        → links.new ≡ with_journals links.old (map (links_of (M.behaves machine.now topo.now) topo.now) journals.now) }
{
    'journals: for journal in journals {
        if let Some(line) = compare(alloc, topo, machine, journal, links)? {
            return Ok(Some(line));
        }
        links.end_journal(alloc)?;
    }
    Ok(None)
}

/// Compares a journal with what its brokers give, and notes its groups: the line at which it differs, if it does.
fn compare<M: Machine>(
    alloc: Global,
    topo: &Topology,
    machine: &M,
    journal: &Journal,
    links: &mut Links,
) -> Result<Option<u32>, AllocError>
    requires fits { M.fits machine.now topo.now }
    requires unheard { has_clients topo.now ≡ false }
    requires come { AllComeTo (rising topo.now journal.now.brokers) journal.now.came }
    ensures line { IfOk result (λ line. line ≡ wrong_line (M.behaves machine.now topo.now) topo.now journal.now) }
    ensures noted { result ≡ Ok None
        → links.new ≡ with_links links.old (links_of (M.behaves machine.now topo.now) topo.now journal.now) }
{
    let brokers = rising(alloc, topo, journal.brokers.as_slice())?;
    let mut given = Given::new(
        journal.came.as_slice(),
        mem::replace(links, Links::new(alloc)),
    );
    let mut told = Comparison::new(journal.text.as_slice());
    match machine.run(alloc, topo, brokers.as_slice(), &mut given, &mut told)? {
        Ran::Whole => {
            *links = given.links();
            told.wrong_line(journal.first)
        }
        Ran::Cut => told.wrong_line(journal.first),
    }
}
