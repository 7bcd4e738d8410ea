//! Examples of a batch at its bounds: opened, added to, closed and turned.
use crate::gathering::Gathering;
use crossbar::port::Pair;
use reply::code;
use std::process::Abort;
use std::test::Fail;

// The tests of three crates have this, and share no code.
fn pair(input: u8, output: u8) -> Pair {
    Pair { input, output }
}

/// An empty batch of two ports and two slots.
fn two_by_two(rt: &impl Abort) -> Result<Gathering, Fail> {
    let mut place = None;
    assert_eq!(rt; code(Gathering::open(&mut place, 2, 2)), 0);
    match place {
        Some(batch) => Ok(batch),
        None => Err(Fail::new("an open batch")),
    }
}

/// The code of the reply to opening a batch.
fn opening(ports: usize, slots: usize) -> u32 {
    let mut place = None;
    code(Gathering::open(&mut place, ports, slots))
}

#[test]
fn ports_and_slots_have_bounds(rt: HostRuntime) {
    assert_eq!(rt; opening(0, 1), 0x11500000);
    assert_eq!(rt; opening(1, 1), 0);
    assert_eq!(rt; opening(16, 1), 0);
    assert_eq!(rt; opening(17, 1), 0x11500000);
    assert_eq!(rt; opening(1, 0), 0x11500000);
    assert_eq!(rt; opening(1, 1024), 0);
    assert_eq!(rt; opening(1, 1025), 0x11500000);
}

#[test]
fn ports_from_n_on_are_refused(rt: HostRuntime) -> Result<(), Fail> {
    let mut batch = two_by_two(&rt)?;
    assert_eq!(rt; code(batch.add(pair(2, 0))), 0x30200000);
    assert_eq!(rt; code(batch.add(pair(0, 2))), 0x30300000);
    assert_eq!(rt; code(batch.add(pair(1, 1))), 1);
    Ok(())
}

#[test]
fn a_full_input_refuses(rt: HostRuntime) -> Result<(), Fail> {
    let mut batch = two_by_two(&rt)?;
    assert_eq!(rt; code(batch.add(pair(0, 0))), 1);
    assert_eq!(rt; code(batch.add(pair(0, 1))), 1);
    assert_eq!(rt; code(batch.add(pair(0, 1))), 0x30400000);
    Ok(())
}

#[test]
fn a_full_output_refuses(rt: HostRuntime) -> Result<(), Fail> {
    let mut batch = two_by_two(&rt)?;
    assert_eq!(rt; code(batch.add(pair(0, 0))), 1);
    assert_eq!(rt; code(batch.add(pair(1, 0))), 1);
    assert_eq!(rt; code(batch.add(pair(1, 0))), 0x30500000);
    Ok(())
}

#[test]
fn a_closed_batch_keeps_its_packets(rt: HostRuntime) -> Result<(), Fail> {
    let mut batch = two_by_two(&rt)?;
    assert_eq!(rt; code(batch.add(pair(0, 1))), 1);
    assert_eq!(rt; code(batch.add(pair(0, 1))), 1);
    let (demand, left) = batch.close().into_parts();
    assert_eq!(rt; left, 2);
    assert_eq!(rt; demand.count(pair(0, 1)), 2);
    assert_eq!(rt; demand.largest_load(), 2);
    Ok(())
}

#[test]
fn a_turn_opens_an_empty_batch(rt: HostRuntime) -> Result<(), Fail> {
    let mut batch = two_by_two(&rt)?;
    assert_eq!(rt; code(batch.add(pair(1, 0))), 1);
    let (clearing, next) = batch.turn();
    let (demand, left) = clearing.into_parts();
    assert_eq!(rt; left, 2);
    assert_eq!(rt; demand.count(pair(1, 0)), 1);
    assert_eq!(rt; next.slots().count(), 2);
    assert_eq!(rt; next.demand().largest_load(), 0);
    let (reply, clearing) = next.close_with(pair(1, 0));
    let (demand, left) = clearing.into_parts();
    assert_eq!(rt; code(reply), 1);
    assert_eq!(rt; left, 2);
    assert_eq!(rt; demand.count(pair(1, 0)), 1);
    Ok(())
}
