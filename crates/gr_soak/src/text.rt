//! The text of the soak's scenario.

ghost use Rattle.std.specs.Prelude.{◌≡◌, ◌+◌, ◌*◌, ◌/◌, ◌%◌, ◌<◌, ◌≤◌, ◌++◌, IfOk, OnOk};
ghost use Rattle.std.specs.Fmt.{decimal};
ghost use Rattle.gr_soak.specs.Text.{after, word, name_text, leaf_text, sym_text, price_text, subscriber_text};
ghost use Rattle.gr_soak.specs.Text.{topology_text, clock_text, publisher_at, publish_text, deliver_text};
ghost use Rattle.gr_soak.specs.Text.{delivers_text, wakes_text, first_crash_text, second_crash_text, turn_text};
ghost use Rattle.gr_soak.specs.Text.{turns_text, soak_text};

use crate::draws::draw;
use gr_event::Text;
use gr_out::Memory;
use itoa::Buffer;
use std::alloc::Global;

/// The brokers, the links between them and the publishers.
const TREE: &[u8] = b"brokers = [\"B0\", \"B1\", \"B2\", \"B3\", \"B4\", \"B5\", \"B6\"]
links = [[\"B0\", \"B1\"], [\"B0\", \"B2\"], [\"B1\", \"B3\"], [\"B1\", \"B4\"], [\"B2\", \"B5\"], [\"B2\", \"B6\"]]
[[publisher]]
name = \"P\"
at = \"B0\"
[[publisher]]
name = \"Q\"
at = \"B1\"
";

/// How many turns a soak has at most.
pub const MAX_TURNS: u64 = 2_000;

/// How many subscribers there are.
const SUBSCRIBERS: u64 = 12;

/// How many frames a turn delivers.
const DELIVERIES: u64 = 8;

/// The scenario of a soak of `n` turns, as a text that a replay reads: the topology, and its steps. `Memory` where
/// memory is refused.
pub fn soak_text(alloc: Global, n: u64) -> Result<Text, Memory>
    requires range { (1 ≤ n) × (n ≤ MAX_TURNS) }
    ensures text { IfOk result (λ text. text ≡ soak_text n) }
{
    let mut text = Text::new(alloc);
    put_topology(&mut text)?;
    text.append(b"---\n")?;
    put_turns(alloc, &mut text, n)?;
    text.append(b"sweep\nshow\n")?;
    Ok(text)
}

/// Puts the topology.
fn put_topology(text: &mut Text) -> Result<(), Memory>
    ensures { OnOk result (text.new ≡ text.old ++ topology_text) }
{
    text.append(TREE)?;
    'subscribers: for i in 0..SUBSCRIBERS {
        put_subscriber(text, i)?;
    }
    Ok(())
}

/// Puts a subscriber.
fn put_subscriber(text: &mut Text, i: u64) -> Result<(), Memory>
    requires { i < SUBSCRIBERS }
    ensures { OnOk result (text.new ≡ text.old ++ subscriber_text i) }
{
    text.append(b"[[subscriber]]\n")?;
    put_name(text, i)?;
    put_leaf(text, i)?;
    text.append(b"filter = \"")?;
    put_sym(text, i)?;
    put_price(text, i)
}

/// Puts a subscriber's name.
#[tactic(auto, unfolding(crate::specs::Text::name_text))]
fn put_name(text: &mut Text, i: u64) -> Result<(), Memory>
    ensures { OnOk result (text.new ≡ text.old ++ name_text i) }
{
    text.append(b"name = \"S")?;
    put_number(text, i)?;
    text.append(b"\"\n")
}

/// Puts a subscriber's broker.
#[tactic(auto, unfolding(crate::specs::Text::leaf_text))]
fn put_leaf(text: &mut Text, i: u64) -> Result<(), Memory>
    requires { i < SUBSCRIBERS }
    ensures { OnOk result (text.new ≡ text.old ++ leaf_text i) }
{
    text.append(b"at = \"B")?;
    put_number(text, 3 + i % 4)?;
    text.append(b"\"\n")
}

/// Puts what a subscriber asks of the word.
#[tactic(auto, unfolding(crate::specs::Text::sym_text))]
fn put_sym(text: &mut Text, i: u64) -> Result<(), Memory>
    ensures { OnOk result (text.new ≡ text.old ++ sym_text i) }
{
    text.append(b"sym = '")?;
    text.append(word_of(i).as_bytes())?;
    text.append(b"'")
}

/// Puts what a subscriber asks of the price.
#[tactic(auto, unfolding(crate::specs::Text::price_text))]
fn put_price(text: &mut Text, i: u64) -> Result<(), Memory>
    requires { i < SUBSCRIBERS }
    ensures { OnOk result (text.new ≡ text.old ++ price_text i) }
{
    text.append(b" AND price > ")?;
    put_number(text, 15 * i)?;
    text.append(b"\"\n")
}

/// The word that subscriber `i` asks for.
fn word_of(i: u64) -> &'static str
    ensures { result.now ≡ word (i % 4) }
{
    word(i % 4)
}

/// The word with a number from 0.
#[tactic(auto, unfolding(crate::specs::Text::word))]
fn word(w: u64) -> &'static str
    requires { w < 4 }
    ensures { result.now ≡ word w }
{
    match w {
        0 => "IBM",
        1 => "ACME",
        2 => "ORCA",
        _ => "PINE",
    }
}

/// Puts the steps of all turns.
fn put_turns(alloc: Global, text: &mut Text, n: u64) -> Result<(), Memory>
    requires { n ≤ MAX_TURNS }
    ensures { OnOk result (text.new ≡ text.old ++ turns_text n) }
{
    let mut x = n;
    'turns: for k in 0..n {
        put_turn(alloc, text, n, k + 1, &mut x)?;
    }
    Ok(())
}

/// Puts the steps of turn `i` of `n`.
fn put_turn(alloc: Global, text: &mut Text, n: u64, i: u64, x: &mut u64) -> Result<(), Memory>
    requires turn { (1 ≤ i) × (i ≤ n) }
    requires few { n ≤ MAX_TURNS }
    ensures text { OnOk result (text.new ≡ text.old ++ turn_text n i x.old) }
    ensures state { OnOk result (x.new ≡ after x.old 11) }
{
    put_clock(text, i)?;
    let price = draw(x, 200);
    let qty = draw(x, 1000);
    let w = draw(x, 4);
    put_publish(alloc, text, i, price, qty, w)?;
    put_delivers(text, i, x)?;
    text.append(wakes(i))?;
    text.append(first_crash(n, i))?;
    text.append(second_crash(n, i))
}

/// Puts the clock of turn `i`.
#[tactic(auto, unfolding(crate::specs::Text::clock_text))]
fn put_clock(text: &mut Text, i: u64) -> Result<(), Memory>
    requires { i ≤ MAX_TURNS }
    ensures { OnOk result (text.new ≡ text.old ++ clock_text i) }
{
    text.append(b"clock ")?;
    put_number(text, 100 * i)?;
    text.append(b"\n")
}

/// Puts the publish of turn `i`, of an event with these values.
#[tactic(auto, unfolding(crate::specs::Text::publish_text))]
fn put_publish(
    alloc: Global,
    text: &mut Text,
    i: u64,
    price: u64,
    qty: u64,
    w: u64,
) -> Result<(), Memory>
    requires turn { i ≤ MAX_TURNS }
    requires word { w < 4 }
    ensures { OnOk result (text.new ≡ text.old ++ publish_text i price qty w) }
{
    let publisher = publisher_at(i);
    let number = (i + 1) / 2;
    let sym = word(w);
    let line = format!(in alloc;
        "publish {publisher} {number} {{\"price\":{price},\"qty\":{qty},\"sym\":\"{sym}\"}}\n"
    )?;
    text.append(line.as_bytes())
}

/// The publisher whose turn it is.
#[tactic(auto, unfolding(crate::specs::Text::publisher_at))]
fn publisher_at(i: u64) -> &'static str
    ensures { result.now ≡ publisher_at i }
{
    if i % 2 == 1 { "P" } else { "Q" }
}

/// Puts the deliveries of turn `i`.
fn put_delivers(text: &mut Text, i: u64, x: &mut u64) -> Result<(), Memory>
    requires { (1 ≤ i) × (i ≤ MAX_TURNS) }
    ensures text { OnOk result (text.new ≡ text.old ++ delivers_text i x.old) }
    ensures state { OnOk result (x.new ≡ after x.old DELIVERIES) }
{
    'delivers: for _ in 0..DELIVERIES {
        let frame = 1 + draw(x, 6 * i);
        put_deliver(text, frame)?;
    }
    Ok(())
}

/// Puts a delivery.
#[tactic(auto, unfolding(crate::specs::Text::deliver_text))]
fn put_deliver(text: &mut Text, frame: u64) -> Result<(), Memory>
    ensures { OnOk result (text.new ≡ text.old ++ deliver_text frame) }
{
    text.append(b"deliver ")?;
    put_number(text, frame)?;
    text.append(b"\n")
}

/// Puts a number in decimal.
fn put_number(text: &mut Text, number: u64) -> Result<(), Memory>
    ensures { OnOk result (text.new ≡ text.old ++ decimal number) }
{
    let mut digits = Buffer::new();
    text.append(digits.format(number).as_bytes())
}

/// The steps that wake the leaves, if turn `i` is a tenth one.
fn wakes(i: u64) -> &'static [u8]
    ensures { result.now ≡ wakes_text i }
{
    if i % 10 == 0 {
        b"wake B3\nwake B4\nwake B5\nwake B6\n"
    } else {
        b""
    }
}

/// The step that crashes a broker within the tree, if turn `i` stands a third of the way.
fn first_crash(n: u64, i: u64) -> &'static [u8]
    ensures { result.now ≡ first_crash_text n i }
{
    if i == n / 3 { b"crash B1\n" } else { b"" }
}

/// The step that crashes the root, if turn `i` stands at two thirds.
fn second_crash(n: u64, i: u64) -> &'static [u8]
    requires { n ≤ MAX_TURNS }
    ensures { result.now ≡ second_crash_text n i }
{
    if i == 2 * n / 3 { b"crash B0\n" } else { b"" }
}
