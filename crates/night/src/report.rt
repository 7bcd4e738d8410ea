//! What the program prints.
use crate::chart;
use crate::entry::Fault;
use crate::method::Method;
use crate::names::Names;
use crate::plan::{Numbered, Plan};
use crate::words::Outcome;
use batch::clearing::Clearing;
use batch::gathering::Gathering;
use crossbar::demand::Demand;
use crossbar::port::Port;
use document::period::Line;
use policy::path::PathPolicy;
use policy::peel::PeelingPolicy;
use readout::Readout;
use reply::refusal::Refusal;
use std::io;

/// Gathers the readouts of a plan, and prints what became of each, the loads, and how they clear; with a policy, slot by
/// slot.
pub(crate) fn print(rt: &impl Print, plan: &Plan<'_>, method: Option<Method>) -> io::Result<()> {
    print_faults(rt, &plan.faults)?;
    let slots = match plan.line.slots() {
        Ok(slots) => u32::from(slots),
        Err(refusal) => return print_refused(rt, "The line", refusal),
    };
    print_line(rt, plan.line, slots)?;
    match opened(plan.ports, slots as usize) {
        Ok(batch) => print_period(rt, plan, batch, method),
        Err(refusal) => print_refused(rt, "The ports", refusal),
    }
}

/// An empty batch, or why none can be opened.
fn opened(ports: usize, slots: usize) -> Result<Gathering, Refusal> {
    let mut place = None;
    Gathering::open(&mut place, ports, slots)?;
    Ok(place.unwrap())
}

fn print_period(
    rt: &impl Print,
    plan: &Plan<'_>,
    mut batch: Gathering,
    method: Option<Method>,
) -> io::Result<()> {
    println!(rt; "Readouts")?;
    println!(rt;
        "  line  {:<21} {:<21} packets  taken  answer",
        "camera", "machine"
    )?;
    for numbered in &plan.readouts {
        print_readout(rt, &plan.names, &mut batch, *numbered)?;
    }
    print_loads(rt, &plan.names, batch.demand())?;
    match method {
        None => print_clearing(rt, batch.close()),
        Some(method) => print_served(rt, batch.close(), method),
    }
}

fn print_faults(rt: &impl Print, faults: &[Numbered<Fault>]) -> io::Result<()> {
    if faults.is_empty() {
        return Ok(());
    }
    println!(rt; "Lines that were passed over")?;
    for Numbered { line, item } in faults {
        println!(rt; "  line {line:>4}: {item}")?;
    }
    println!(rt)
}

fn print_refused(rt: &impl Print, what: &str, refusal: Refusal) -> io::Result<()> {
    let code = refusal.code();
    println!(rt; "{what} cannot be used: a number is missing or out of range (reply {code:08x})")
}

fn print_line(rt: &impl Print, line: Line, slots: u32) -> io::Result<()> {
    println!(rt; "The line")?;
    println!(rt; "  rate    {:>12} bits a second", line.rate)?;
    println!(rt; "  period  {:>12} microseconds", line.period)?;
    println!(rt; "  packet  {:>12} bits", line.packet)?;
    println!(rt; "  slots   {slots:>12} in a period")?;
    println!(rt)
}

fn print_readout(
    rt: &impl Print,
    names: &Names<'_>,
    batch: &mut Gathering,
    numbered: Numbered<Readout>,
) -> io::Result<()> {
    let line = numbered.line;
    let Readout { pair, packets } = numbered.item;
    let taken = readout::gather(batch, numbered.item);
    let camera = names.at(Port::Input(pair.input));
    let machine = names.at(Port::Output(pair.output));
    println!(rt;
        "  {line:>4}  {:>2} {camera:<18} {:>2} {machine:<18} {packets:>7} {:>6}  {}",
        pair.input,
        pair.output,
        taken.packets,
        Outcome(taken)
    )
}

fn print_loads(rt: &impl Print, names: &Names<'_>, demand: &Demand) -> io::Result<()> {
    println!(rt)?;
    println!(rt; "Loads")?;
    let ports = demand.ports().count();
    let inputs = (0..ports).map(Port::Input);
    let outputs = (0..ports).map(Port::Output);
    for port in inputs.chain(outputs) {
        print_load(rt, names, demand, port)?;
    }
    println!(rt)
}

fn print_load(rt: &impl Print, names: &Names<'_>, demand: &Demand, port: Port) -> io::Result<()> {
    let (side, number) = match port {
        Port::Input(input) => ("camera", input),
        Port::Output(output) => ("machine", output),
    };
    let name = names.at(port);
    let load = demand.load(port);
    let mark = if demand.is_critical(port) {
        "  critical"
    } else {
        ""
    };
    println!(rt; "  {side:<7} {number:>2} {name:<18} {load:>6}{mark}")
}

fn print_clearing(rt: &impl Print, batch: Clearing) -> io::Result<()> {
    let (demand, slots_left) = batch.into_parts();
    let largest = demand.largest_load();
    println!(rt; "Clearing")?;
    println!(rt; "  Everything clears in {largest} of the {slots_left} slots, and in no fewer.")
}

/// The slots in which a batch clears by a policy, and how many they were.
fn print_served(rt: &impl Print, mut batch: Clearing, method: Method) -> io::Result<()> {
    let largest = batch.demand().largest_load();
    let served = print_slots(rt, &mut batch, method);
    let (_demand, slots_left) = batch.into_parts();
    print_count(rt, served?, largest, slots_left)
}

// A match, and no `dyn Policy`: each arm makes its own policy either way.
fn print_slots(rt: &impl Print, batch: &mut Clearing, method: Method) -> io::Result<u16> {
    match method {
        Method::Path => chart::print(rt, batch, &mut PathPolicy::new()),
        Method::Peeling => chart::print(rt, batch, &mut PeelingPolicy::new()),
    }
}

fn print_count(rt: &impl Print, served: u16, largest: u16, slots_left: u16) -> io::Result<()> {
    println!(rt)?;
    println!(rt; "Clearing")?;
    println!(rt;
        "  Everything has left after {served} slots: exactly the largest load, {largest}. No fewer would do."
    )?;
    println!(rt; "  Slots left in the period: {slots_left}")
}
