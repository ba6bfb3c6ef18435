//! Topologies: what is read from a part, and why a part is refused.

ghost use Rattle.std.specs.Prelude.{◌<◌, length};

use crate::words::put_counted;
use gr_event::Numbers;
use gr_filter::{Filter, text};
use gr_sched::Names;
use gr_tests_rows::{Page, Stop, first_word, parted, spelled};
use gr_topo::{Settings, TopoFault, Topology, is_name};
use std::alloc::{AllocError, Global};

/// Answers a row about topologies.
pub fn answer(alloc: Global, row: &str, page: &mut Page) -> Result<(), Stop> {
    let (call, rest) = first_word(row);
    match call {
        "is-name" => page.truth_line(is_name(rest.as_bytes())),
        "blank" => put_blank(&Topology::blank(alloc), page),
        "read" | "size" => put_part(alloc, call, "", rest, page)?,
        "seen" | "find" => put_named(alloc, call, rest, page)?,
        _ => return Err(Stop::NoRow),
    }
    Ok(())
}

/// Prints the blank topology.
fn put_blank(answer: &Result<Topology, AllocError>, page: &mut Page) {
    match answer {
        Ok(topology) => put_topology(topology, page),
        Err(_) => page.tear(),
    }
}

/// Answers a row with names and a part.
fn put_named(alloc: Global, call: &str, row: &str, page: &mut Page) -> Result<(), Stop> {
    let (names, part) = parted(row, " ")?;
    put_part(alloc, call, names, part, page)
}

/// Reads a part, and prints what a row asks of it.
fn put_part(
    alloc: Global,
    call: &str,
    names: &str,
    part: &str,
    page: &mut Page,
) -> Result<(), Stop> {
    put_read(alloc, call, names, &spelled(alloc, part)?, page)
}

/// Reads bytes, and prints what a row asks of them.
fn put_read(
    alloc: Global,
    call: &str,
    names: &str,
    part: &[u8],
    page: &mut Page,
) -> Result<(), Stop> {
    put_answer(call, names, &Topology::read(alloc, part), page)
}

/// Prints what a row asks of a topology, or why there is none.
fn put_answer(
    call: &str,
    names: &str,
    answer: &Result<Topology, TopoFault>,
    page: &mut Page,
) -> Result<(), Stop> {
    match answer {
        Ok(topology) => put_asked(call, names, topology, page),
        Err(fault) => {
            put_refusal(fault, page);
            Ok(())
        }
    }
}

/// Prints what a row asks of a topology.
fn put_asked(call: &str, names: &str, topology: &Topology, page: &mut Page) -> Result<(), Stop> {
    match call {
        "read" => put_topology(topology, page),
        "size" => put_sizes(topology, page),
        "seen" => put_all_seen(topology, names, page)?,
        _ => put_all_found(topology, names, page),
    }
    Ok(())
}

/// Prints a topology: its brokers, its publishers with the tree as each sees it, its subscribers and its settings.
fn put_topology(topology: &Topology, page: &mut Page) {
    for b in 0..topology.brokers() {
        put_broker(topology, b, page);
    }
    for p in 0..topology.publishers() {
        put_publisher(topology, p, page);
        put_places(topology, p, page);
    }
    for s in 0..topology.subscribers() {
        put_subscriber(topology, s, page);
    }
    put_settings(&topology.settings(), page);
}

/// Prints where each broker stands, seen from a publisher.
fn put_places(topology: &Topology, p: u16, page: &mut Page)
    requires { p < length topology.now.publishers }
{
    for b in 0..topology.brokers() {
        put_place(topology, p, b, page);
    }
}

/// Prints how many brokers, publishers and subscribers there are.
fn put_sizes(topology: &Topology, page: &mut Page) {
    put_counted("  brokers ", u64::from(topology.brokers()), page);
    put_counted(" publishers ", u64::from(topology.publishers()), page);
    put_counted(" subscribers ", u64::from(topology.subscribers()), page);
    page.push('\n');
}

/// Prints brokers by their names, and where each stands, seen from each publisher.
fn put_all_seen(topology: &Topology, names: &str, page: &mut Page) -> Result<(), Stop> {
    for name in names.split(',') {
        put_seen(topology, name, page)?;
    }
    Ok(())
}

/// Prints a broker by its name, and where it stands, seen from each publisher.
fn put_seen(topology: &Topology, name: &str, page: &mut Page) -> Result<(), Stop> {
    match topology.broker(name.as_bytes()) {
        Some(b) if b < topology.brokers() => {
            put_broker(topology, b, page);
            put_all_places(topology, b, page);
            Ok(())
        }
        _ => Err(Stop::NoRow),
    }
}

/// Prints where a broker stands, seen from each publisher.
fn put_all_places(topology: &Topology, b: u16, page: &mut Page)
    requires { b < length topology.now.brokers }
{
    for p in 0..topology.publishers() {
        put_place(topology, p, b, page);
    }
}

/// Prints the broker, the publisher and the late subscriber that has each name.
fn put_all_found(topology: &Topology, names: &str, page: &mut Page) {
    for name in names.split(',') {
        put_found(topology, name, page);
    }
}

/// Prints the broker, the publisher and the late subscriber that has a name.
fn put_found(topology: &Topology, name: &str, page: &mut Page) {
    page.push_str("  ");
    page.push_str(name);
    put_number(" broker", topology.broker(name.as_bytes()), page);
    put_number(" publisher", topology.publisher(name.as_bytes()), page);
    if let Some(subscriber) = topology.subscriber(name.as_bytes()) {
        put_counted(" late ", u64::from(subscriber), page);
    }
    page.push('\n');
}

/// Prints a number behind a word, if there is one, or the word `no` before it.
fn put_number(word: &str, number: Option<u16>, page: &mut Page) {
    match number {
        Some(number) => {
            page.push_str(word);
            put_counted(" ", u64::from(number), page);
        }
        None => {
            page.push_str(" no");
            page.push_str(word);
        }
    }
}

/// Prints a broker, with its address and its subscribers.
fn put_broker(topology: &Topology, b: u16, page: &mut Page)
    requires { b < length topology.now.brokers }
{
    page.push_str("  broker ");
    page.push_escaped(topology.broker_name(b).as_slice());
    if let Some(address) = topology.address(b) {
        page.push_str(" address ");
        page.push_escaped(address.as_slice());
    }
    let subscribers = topology.subscribers_at(page.allocator(), b);
    put_subscribers(" subscribers", topology, &subscribers, page);
    page.push('\n');
}

/// Prints a publisher, with its host and its client.
fn put_publisher(topology: &Topology, p: u16, page: &mut Page)
    requires { p < length topology.now.publishers }
{
    page.push_str("  publisher ");
    page.push_escaped(topology.publisher_name(p).as_slice());
    page.push_str(" at");
    put_broker_name(topology, topology.host(p), page);
    if let Some(client) = topology.client(p) {
        page.push_str(" client ");
        page.push_escaped(client.as_slice());
    }
    page.push('\n');
}

/// Prints where a broker stands, seen from a publisher.
fn put_place(topology: &Topology, p: u16, b: u16, page: &mut Page)
    requires publisher { p < length topology.now.publishers }
    requires broker { b < length topology.now.brokers }
{
    page.push_str("   ");
    put_broker_name(topology, b, page);
    if let Some(up) = topology.up(p, b) {
        page.push_str(" up");
        put_broker_name(topology, up, page);
    }
    put_counted(" depth ", u64::from(topology.depth(p, b)), page);
    put_children(topology, &topology.children(page.allocator(), p, b), page);
    put_subscribers(
        " below",
        topology,
        &topology.below(page.allocator(), p, b),
        page,
    );
    if topology.keeps_horizon(p, b) {
        page.push_str(" horizon");
    }
    page.push('\n');
}

/// Prints the children of a broker, if there are any.
fn put_children(topology: &Topology, children: &Result<Numbers, AllocError>, page: &mut Page) {
    let Ok(children) = children else {
        return page.tear();
    };
    if children.len() > 0 {
        page.push_str(" children");
    }
    for b in children.as_slice() {
        put_broker_name(topology, *b, page);
    }
}

/// Prints subscribers behind a word, if there are any.
fn put_subscribers(
    word: &str,
    topology: &Topology,
    subscribers: &Result<Numbers, AllocError>,
    page: &mut Page,
) {
    let Ok(subscribers) = subscribers else {
        return page.tear();
    };
    if subscribers.len() > 0 {
        page.push_str(word);
    }
    for s in subscribers.as_slice() {
        put_subscriber_name(topology, *s, page);
    }
}

/// Prints the name of a subscriber behind a blank.
fn put_subscriber_name(topology: &Topology, s: u16, page: &mut Page) {
    if s < topology.subscribers() {
        page.push(' ');
        page.push_escaped(topology.subscriber_name(s).as_slice());
    }
}

/// Prints the name of a broker behind a blank.
fn put_broker_name(topology: &Topology, b: u16, page: &mut Page) {
    if b < topology.brokers() {
        page.push(' ');
        page.push_escaped(topology.broker_name(b).as_slice());
    }
}

/// Prints a subscriber, with its broker and its filter, whether it is late, and whether it gets one list.
fn put_subscriber(topology: &Topology, s: u16, page: &mut Page)
    requires { s < length topology.now.subscribers }
{
    page.push_str("  subscriber ");
    page.push_escaped(topology.subscriber_name(s).as_slice());
    page.push_str(" at");
    put_broker_name(topology, topology.at(s), page);
    if let Some(filter) = topology.filter(s) {
        put_filter(filter, page);
    }
    if topology.late(s) {
        page.push_str(" late");
    }
    if topology.total(s) {
        page.push_str(" total");
    }
    page.push('\n');
}

/// Prints a filter.
fn put_filter(filter: &Filter, page: &mut Page) {
    page.push_str(" filter ");
    match text(page.allocator(), filter) {
        Ok(text) => page.push_escaped(text.as_slice()),
        Err(_) => page.tear(),
    }
}

/// Prints settings.
fn put_settings(settings: &Settings, page: &mut Page) {
    put_counted("  settings gap ", settings.gap, page);
    put_counted(" idle ", settings.idle, page);
    put_counted(" retry ", settings.retry, page);
    put_counted(" quiet ", settings.quiet, page);
    put_counted(" cache ", u64::from(settings.cache), page);
    put_counted(" reclaim ", u64::from(settings.reclaim), page);
    page.push('\n');
}

/// Prints the number and the word of a refusal, and what it is about.
fn put_refusal(fault: &TopoFault, page: &mut Page) {
    put_counted("  refused ", u64::from(fault.number()), page);
    write!(page, " {fault}");
    match fault {
        TopoFault::Memory => page.tear(),
        TopoFault::NotToml | TopoFault::NotTree => {}
        TopoFault::BadKey { key }
        | TopoFault::BadType { key }
        | TopoFault::TooMany { key }
        | TopoFault::Missing { key }
        | TopoFault::BadRange { key } => put_thing(key.as_slice(), page),
        TopoFault::Twice { name }
        | TopoFault::Unknown { name }
        | TopoFault::BadAddress { name }
        | TopoFault::BadName { name } => put_thing(name.as_slice(), page),
        TopoFault::BadFilter { name, fault } => {
            put_thing(name.as_slice(), page);
            page.push_str(": ");
            page.push_str(fault.word());
            put_counted(" ", fault.place() as u64, page);
        }
    }
    page.push('\n');
}

/// Prints a key or a name.
fn put_thing(thing: &[u8], page: &mut Page) {
    page.push(' ');
    page.push_escaped(thing);
}
