//! The lines that say why bytes are no scenario.

ghost use Rattle.std.specs.Prelude.{◌≡◌, ◌≢◌, ℕ, ◌++◌, IfOk, OnOk, string_bytes};
ghost use Rattle.gr_scenario.specs.Refusals.{shown_byte, shown, filter_fault, refused_thing, topology_line, step_line};

use gr_event::Text;
use gr_filter::FilterFault;
use gr_sched::StepFault;
use gr_topo::TopoFault;
use std::alloc::{AllocError, Global};

/// The line of a topology's refusal, as `topology 5 unknown X`. Want of memory has none.
pub fn line_of_topology(alloc: Global, fault: &TopoFault) -> Result<Text, AllocError>
    ensures line { IfOk result (λ text. text ≡ topology_line fault.now) }
    ensures known { IfOk result (λ text. fault.now ≢ TopoFault.Memory) }
{
    let number = fault.number();
    let word = fault.word();
    let mut line = text_of(alloc, format!(in alloc; "topology {number} {word}")?)?;
    push_thing(alloc, &mut line, fault)?;
    Ok(line)
}

/// Puts at the end of a line what a refusal is about, behind a blank. Want of memory is about nothing that is told.
fn push_thing(alloc: Global, line: &mut Text, fault: &TopoFault) -> Result<(), AllocError>
    ensures pushed { OnOk result (line.new ≡ line.old ++ refused_thing fault.now) }
    ensures known { OnOk result (fault.now ≢ TopoFault.Memory) }
{
    match fault {
        TopoFault::Memory => Err(AllocError),
        TopoFault::NotToml | TopoFault::NotTree => Ok(()),
        TopoFault::BadKey { key }
        | TopoFault::BadType { key }
        | TopoFault::TooMany { key }
        | TopoFault::Missing { key }
        | TopoFault::BadRange { key } => push_shown(line, key.as_slice()),
        TopoFault::Twice { name }
        | TopoFault::Unknown { name }
        | TopoFault::BadAddress { name }
        | TopoFault::BadName { name } => push_shown(line, name.as_slice()),
        TopoFault::BadFilter { name, fault } => {
            push_shown(line, name.as_slice())?;
            push_filter_fault(alloc, line, fault)
        }
    }
}

/// Puts the word and the place of a filter's fault at the end of a line.
fn push_filter_fault(alloc: Global, line: &mut Text, fault: &FilterFault) -> Result<(), AllocError>
    ensures { OnOk result (line.new ≡ line.old ++ filter_fault fault.now) }
{
    let word = fault.word();
    let place = fault.place();
    let text = format!(in alloc; " {word} {place}")?;
    line.append(text.as_bytes())
}

/// Puts a blank and a key or name at the end of a line, with `?` for each byte that is no visible character of ASCII.
pub fn push_shown(line: &mut Text, name: &[u8]) -> Result<(), AllocError>
    ensures { OnOk result (line.new ≡ line.old ++ shown name.now) }
{
    line.push(b' ')?;
    'bytes: for byte in name {
        line.push(shown_byte(*byte))?;
    }
    Ok(())
}

/// A byte as it is printed.
fn shown_byte(byte: u8) -> u8
    ensures { result ≡ shown_byte byte }
{
    if byte.is_ascii_graphic() { byte } else { b'?' }
}

/// The line of a step's fault, as `step 1 bad-word line 7`. Want of memory has none, and that there are too many steps
/// is answered before.
pub fn line_of_step(alloc: Global, fault: StepFault) -> Result<Text, AllocError>
    requires { (line : ℕ) → fault ≢ StepFault.TooMany line }
    ensures line { IfOk result (λ text. text ≡ step_line fault) }
    ensures known { IfOk result (λ text. fault ≢ StepFault.Memory) }
{
    match fault {
        StepFault::Memory => Err(AllocError),
        StepFault::BadWord { line } => {
            text_of(alloc, format!(in alloc; "step 1 bad-word line {line}")?)
        }
        StepFault::BadNumber { line } => {
            text_of(alloc, format!(in alloc; "step 2 bad-number line {line}")?)
        }
        StepFault::BadEvent { line, fault } => {
            let word = fault.word();
            text_of(
                alloc,
                format!(in alloc; "step 3 bad-event line {line} {word}")?,
            )
        }
        StepFault::TooMany { .. } => unreachable!(),
    }
}

/// The bytes of a string as a text.
fn text_of(alloc: Global, text: String) -> Result<Text, AllocError>
    ensures { IfOk result (λ t. t ≡ string_bytes text) }
{
    Text::from_slice(alloc, text.as_bytes())
}
