//! One period at an observatory: reads the line, the ports and the camera readouts from standard input, and prints
//! what is gathered and in how many slots it clears, and where a policy is named, by which settings, slot by slot.
#![tactic(auto)]

use plan::Plan;
use std::io;

mod chart;
mod entry;
mod method;
mod names;
mod plan;
mod report;
mod words;

fn main(rt: HostRuntime) -> io::Result<()> {
    let method = method::read(&rt)?;
    let heap = rt.alloc();
    let text = io::read_to_string(heap, rt.stdin())?;
    let plan = Plan::read(heap, text.as_str())?;
    report::print(&rt, &plan, method)
}
