//! The lines of a journal in their one spelling.

ghost use Rattle.std.specs.Prelude.{◌≡◌, true, if◌then◌else◌, [], ◌∷◌, ◌++◌, codes, IfOk, OnOk};
ghost use Rattle.std.specs.List.{flat_map};
ghost use Rattle.gr_topo.specs.Topology.{TopologyView, name_at};
ghost use Rattle.gr_journal.specs.Words.{hex_pair, datagram_word};
ghost use Rattle.gr_journal.specs.Lines.{rising, behind_space, name_if_among, process_text, arrival_text};
ghost use Rattle.gr_journal.specs.Groups.{said_text, offer_text};

use crate::arrival::Arrival;
use crate::form::is_among;
use gr_event::Text;
use gr_topo::Topology;
use std::alloc::{AllocError, Global};

/// The process line of these brokers, rising.
pub fn process_text(alloc: Global, topo: &Topology, brokers: &[u16]) -> Result<Text, AllocError>
    ensures { IfOk result (λ text. text ≡ process_text topo.now brokers.now) }
{
    let mut text = Text::from_slice(alloc, b"process")?;
    push_brokers(topo, brokers, &mut text)?;
    text.push(b'\n')?;
    Ok(text)
}

/// Puts the names of these brokers at the end, rising, a space before each.
fn push_brokers(topo: &Topology, brokers: &[u16], text: &mut Text) -> Result<(), AllocError>
    ensures { OnOk result (text.new
        ≡ text.old ++ flat_map (λ b. behind_space (name_at topo.now.brokers b)) (rising topo.now brokers.now)) }
{
    let all = topo.brokers();
    'brokers: for b in 0..all {
        push_broker(topo, brokers, b, text)?;
    }
    Ok(())
}

/// Puts the name of a broker at the end, a space before it, if it is one of these.
fn push_broker(
    topo: &Topology,
    brokers: &[u16],
    broker: u16,
    text: &mut Text,
) -> Result<(), AllocError>
    ensures { OnOk result (text.new ≡ text.old ++ name_if_among topo.now brokers.now broker) }
{
    if !is_among(brokers, broker) {
        return Ok(());
    }
    text.append_word(b' ', name_of(topo, broker))
}

/// The name of a broker; nothing where there is none of this number.
fn name_of(topo: &Topology, broker: u16) -> &[u8]
    ensures { result.now ≡ name_at topo.now.brokers broker }
{
    if broker < topo.brokers() {
        return topo.broker_name(broker).as_slice();
    }
    &[]
}

/// Puts the line of an arrival at the end.
pub(crate) fn push_arrival(
    topo: &Topology,
    arrival: &Arrival,
    text: &mut Text,
) -> Result<(), AllocError>
    ensures { OnOk result (text.new ≡ text.old ++ arrival_text topo.now arrival.now) }
{
    match arrival {
        Arrival::Quiet { moment } => push_quiet(*moment, text),
        Arrival::Datagram {
            broker,
            moment,
            bytes,
        } => push_datagram(topo, *broker, *moment, bytes.as_slice(), text),
    }
}

/// Puts the line of a quiet moment at the end.
pub fn push_quiet(moment: u64, text: &mut Text) -> Result<(), AllocError>
    ensures { (t : TopologyView) → OnOk result (text.new ≡ text.old ++ arrival_text t (Arrival.Quiet moment)) }
{
    text.append(b"quiet")?;
    text.append_number(b' ', moment)?;
    text.push(b'\n')
}

/// Puts the line of a datagram to a broker at the end.
pub fn push_datagram(
    topo: &Topology,
    broker: u16,
    moment: u64,
    bytes: &[u8],
    text: &mut Text,
) -> Result<(), AllocError>
    ensures { OnOk result (text.new
        ≡ text.old ++ arrival_text topo.now (Arrival.Datagram broker moment bytes.now)) }
{
    text.append(b"in")?;
    text.append_word(b' ', name_of(topo, broker))?;
    text.append_number(b' ', moment)?;
    text.push(b' ')?;
    push_bytes(bytes, text)?;
    text.push(b'\n')
}

/// Puts the word of a datagram's bytes at the end.
fn push_bytes(bytes: &[u8], text: &mut Text) -> Result<(), AllocError>
    ensures { OnOk result (text.new ≡ text.old ++ datagram_word bytes.now) }
{
    if bytes.is_empty() {
        return text.push(b'-');
    }
    push_hex(bytes, text)
}

/// The hexadecimal digits.
const HEX_DIGITS: &[u8; 16] = b"0123456789abcdef";

/// Puts bytes at the end, as two lower-case hexadecimal digits each.
fn push_hex(bytes: &[u8], text: &mut Text) -> Result<(), AllocError>
    ensures { OnOk result (text.new ≡ text.old ++ flat_map hex_pair bytes.now) }
{
    for byte in bytes {
        text.push(HEX_DIGITS[(*byte / 16) as usize])?;
        text.push(HEX_DIGITS[(*byte % 16) as usize])?;
    }
    Ok(())
}

/// Puts lines of a report at the end, each with its end and `say ` before it.
pub fn push_said(lines: &[u8], text: &mut Text) -> Result<(), AllocError>
    ensures { OnOk result (text.new ≡ text.old ++ said_text true lines.now) }
{
    let mut begins = true;
    'bytes: for byte in lines {
        push_said_byte(*byte, begins, text)?;
        begins = *byte == b'\n';
    }
    Ok(())
}

/// Puts a byte of a report at the end, `say ` before it where it begins a line.
fn push_said_byte(byte: u8, begins: bool, text: &mut Text) -> Result<(), AllocError>
    ensures { OnOk result (text.new ≡ text.old ++ ((if begins then codes "say " else []) ++ byte ∷ [])) }
{
    if begins {
        text.append(b"say ")?;
    }
    text.push(byte)
}

/// Puts the line of an offer at the end: bytes of one broker to another.
pub fn push_offer(
    topo: &Topology,
    from: u16,
    to: u16,
    bytes: &[u8],
    text: &mut Text,
) -> Result<(), AllocError>
    ensures { OnOk result (text.new
        ≡ text.old ++ offer_text topo.now (record { from = from; to = to; bytes = bytes.now })) }
{
    text.append(b"out")?;
    text.append_word(b' ', name_of(topo, from))?;
    text.append_word(b' ', name_of(topo, to))?;
    text.push(b' ')?;
    push_hex(bytes, text)?;
    text.push(b'\n')
}
