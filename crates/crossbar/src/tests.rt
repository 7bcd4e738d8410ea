//! Examples of a demand at two ports, of settings, and of their bounds.
use crate::demand::{Demand, MOST_LOAD};
use crate::port::{Pair, Port};
use crate::ports::Ports;
use crate::setting::Setting;
use std::process::Abort;
use std::test::Fail;

// The tests of three crates have this, and share no code.
fn pair(input: u8, output: u8) -> Pair {
    Pair { input, output }
}

/// A demand of so many inputs and outputs, in which nothing waits.
fn empty(count: usize) -> Result<Demand, Fail> {
    let Some(ports) = Ports::new(count) else {
        return Err(Fail::new("no such number of ports"));
    };
    Ok(Demand::empty(ports))
}

/// Two packets wait at input 0, one for each output, and one at input 1 for output 1.
fn three_packets(rt: &impl Abort) -> Result<Demand, Fail> {
    let mut demand = empty(2)?;
    assert!(rt; demand.add(pair(0, 0)));
    assert!(rt; demand.add(pair(0, 1)));
    assert!(rt; demand.add(pair(1, 1)));
    Ok(demand)
}

#[test]
fn a_load_adds_what_waits_at_a_port(rt: HostRuntime) -> Result<(), Fail> {
    let demand = three_packets(&rt)?;
    assert_eq!(rt; demand.load(Port::Input(0)), 2);
    assert_eq!(rt; demand.load(Port::Input(1)), 1);
    assert_eq!(rt; demand.load(Port::Output(0)), 1);
    assert_eq!(rt; demand.load(Port::Output(1)), 2);
    assert_eq!(rt; demand.largest_load(), 2);
    Ok(())
}

#[test]
fn ports_of_the_largest_load_are_critical(rt: HostRuntime) -> Result<(), Fail> {
    let demand = three_packets(&rt)?;
    assert!(rt; demand.is_critical(Port::Input(0)));
    assert!(rt; !demand.is_critical(Port::Input(1)));
    assert!(rt; !demand.is_critical(Port::Output(0)));
    assert!(rt; demand.is_critical(Port::Output(1)));
    Ok(())
}

#[test]
fn no_port_is_joined_twice(rt: HostRuntime) {
    let mut setting = Setting::empty();
    assert!(rt; setting.join(pair(0, 1)));
    assert!(rt; !setting.join(pair(0, 1)));
    assert!(rt; !setting.join(pair(0, 2)));
    assert!(rt; !setting.join(pair(2, 1)));
    assert!(rt; !setting.join(pair(16, 2)));
    assert!(rt; !setting.join(pair(2, 16)));
    assert!(rt; setting.join(pair(15, 15)));
}

#[test]
fn two_settings_clear_a_load_of_two(rt: HostRuntime) -> Result<(), Fail> {
    let mut demand = three_packets(&rt)?;
    let mut first = Setting::empty();
    assert!(rt; first.join(pair(0, 1)));
    let mut second = Setting::empty();
    assert!(rt; second.join(pair(0, 0)));
    assert!(rt; second.join(pair(1, 1)));
    demand.serve_all(&[first, second]);
    assert_eq!(rt; demand.largest_load(), 0);
    Ok(())
}

#[test]
fn pairs_come_in_order_of_output(rt: HostRuntime) {
    let mut setting = Setting::empty();
    assert!(rt; setting.join(pair(0, 3)));
    assert!(rt; setting.join(pair(2, 1)));
    let mut pairs = setting.pairs();
    assert_eq!(rt; pairs.next(), Some(pair(2, 1)));
    assert_eq!(rt; pairs.next(), Some(pair(0, 3)));
    assert_eq!(rt; pairs.next(), None);
}

#[test]
fn a_pair_has_room_for_1024_packets(rt: HostRuntime) -> Result<(), Fail> {
    let mut demand = empty(1)?;
    for _ in 0..1024 {
        assert!(rt; demand.add(pair(0, 0)));
    }
    assert!(rt; !demand.add(pair(0, 0)));
    assert_eq!(rt; demand.count(pair(0, 0)), 1024);
    Ok(())
}

#[test]
fn many_packets_go_in_at_once_or_not_at_all(rt: HostRuntime) -> Result<(), Fail> {
    let mut demand = empty(1)?;
    assert!(rt; !demand.add_many(pair(0, 0), MOST_LOAD + 1));
    assert!(rt; !demand.add_many(pair(0, 1), 0));
    assert_eq!(rt; demand.largest_load(), 0);
    assert!(rt; demand.add_many(pair(0, 0), MOST_LOAD));
    assert!(rt; demand.add_many(pair(0, 0), 0));
    assert!(rt; !demand.add_many(pair(0, 0), 1));
    assert!(rt; !demand.add_many(pair(0, 0), u16::MAX));
    assert_eq!(rt; demand.count(pair(0, 0)), MOST_LOAD);
    Ok(())
}

#[test]
fn a_pair_is_joined_at_the_cost_of_others(rt: HostRuntime) {
    let mut setting = Setting::empty();
    assert!(rt; setting.join(pair(0, 3)));
    assert!(rt; setting.join(pair(2, 1)));
    setting.rejoin(pair(0, 1));
    assert_eq!(rt; setting.input_of(1), Some(0));
    assert_eq!(rt; setting.input_of(3), None);
    assert_eq!(rt; setting.output_of(2), None);
    setting.rejoin(pair(16, 1));
    assert_eq!(rt; setting.input_of(1), Some(0));
}

#[test]
fn a_turned_setting_joins_outputs_to_inputs(rt: HostRuntime) {
    let mut setting = Setting::empty();
    assert!(rt; setting.join(pair(0, 3)));
    let turned = setting.turned();
    assert_eq!(rt; turned.input_of(0), Some(3));
    assert_eq!(rt; turned.output_of(3), Some(0));
}

#[test]
fn a_side_tells_loads_and_links(rt: HostRuntime) -> Result<(), Fail> {
    let demand = three_packets(&rt)?;
    let side = demand.outputs();
    assert_eq!(rt; side.ports.count(), 2);
    assert_eq!(rt; side.load(1), 2);
    assert_eq!(rt; side.load(16), 0);
    assert!(rt; side.links(0).has(0) && !side.links(0).has(1));
    assert!(rt; !side.links(16).has(0));
    Ok(())
}
