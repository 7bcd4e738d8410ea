//! Examples of the policies: what their settings join, and how many of them clear a demand.
use crate::Policy;
use crate::mend::mend;
use crate::path::{AlongPaths, PathPolicy};
use crate::peel::{Peeling, PeelingPolicy};
use crate::raise::raise;
use crate::rule::{ByRule, Rule};
use crossbar::demand::Demand;
use crossbar::port::{Pair, Port};
use crossbar::ports::Ports;
use crossbar::setting::Setting;
use std::process::Abort;
use std::test::Fail;

fn empty(count: usize) -> Result<Demand, Fail> {
    let Some(ports) = Ports::new(count) else {
        return Err(Fail::new("no such number of ports"));
    };
    Ok(Demand::empty(ports))
}

// The tests of three crates have this, and share no code.
fn pair(input: u8, output: u8) -> Pair {
    Pair { input, output }
}

fn add(rt: &impl Abort, demand: &mut Demand, pair: Pair, count: u8) {
    for _ in 0..count {
        assert!(rt; demand.add(pair));
    }
}

/// Two ports; `first` has the counts of input 0, and `second` those of input 1.
fn two_ports(rt: &impl Abort, first: (u8, u8), second: (u8, u8)) -> Result<Demand, Fail> {
    let mut demand = empty(2)?;
    add(rt, &mut demand, pair(0, 0), first.0);
    add(rt, &mut demand, pair(0, 1), first.1);
    add(rt, &mut demand, pair(1, 0), second.0);
    add(rt, &mut demand, pair(1, 1), second.1);
    Ok(demand)
}

/// Sixteen ports with 200 packets between them, from a generator of numbers.
fn scattered(rt: &impl Abort, state: &mut u32) -> Result<Demand, Fail> {
    let mut demand = empty(16)?;
    for _ in 0..200 {
        *state = state.wrapping_mul(1664525).wrapping_add(1013904223);
        let input = (*state >> 28) as u8;
        let output = ((*state >> 24) % 16) as u8;
        add(rt, &mut demand, pair(input, output), 1);
    }
    Ok(demand)
}

/// The load of a port, added up from the counts.
fn load(demand: &Demand, port: Port) -> u16 {
    (0..16)
        .map(|other| match port {
            Port::Input(input) => demand.count(pair(input, other)),
            Port::Output(output) => demand.count(pair(other, output)),
        })
        .fold(0, u16::wrapping_add)
}

fn largest(demand: &Demand) -> u16 {
    let inputs = (0..16).map(Port::Input);
    let outputs = (0..16).map(Port::Output);
    inputs
        .chain(outputs)
        .map(|port| load(demand, port))
        .max()
        .unwrap_or(0)
}

/// Checks by the counts alone that each joined pair has a packet, and that every critical port is joined.
fn check_lawful(rt: &impl Abort, demand: &Demand, setting: &Setting) {
    let largest = largest(demand);
    for pair in setting.pairs() {
        assert!(rt; demand.count(pair) > 0);
    }
    for port in 0..16 {
        if largest > 0 && load(demand, Port::Input(port)) == largest {
            assert!(rt; setting.output_of(port).is_some());
        }
        if largest > 0 && load(demand, Port::Output(port)) == largest {
            assert!(rt; setting.input_of(port).is_some());
        }
    }
}

fn check_joins_nothing(rt: &impl Abort, setting: &Setting) {
    assert!(rt; setting.pairs().next().is_none());
}

/// Serves a demand by lawful settings of a policy, and checks that it is clear after as many as its largest load, and not
/// before, and that the policy joins nothing then.
fn check_cleared<P: Policy>(rt: &impl Abort, policy: &mut P, demand: &Demand) {
    let mut demand = *demand;
    for _ in 0..demand.largest_load() {
        assert!(rt; largest(&demand) > 0);
        let setting = policy.choose(&demand);
        check_lawful(rt, &demand, &setting);
        demand.serve(&setting);
    }
    assert_eq!(rt; largest(&demand), 0);
    check_joins_nothing(rt, &policy.choose(&demand));
}

/// Checks that a rule gives lawful settings for all demands of two ports with at most two packets a pair.
fn check_small_demands<R: Rule>(rt: &impl Abort) -> Result<(), Fail> {
    for case in 0u8..81 {
        let first = (case % 3, case / 3 % 3);
        let second = (case / 9 % 3, case / 27);
        let demand = two_ports(rt, first, second)?;
        check_lawful(rt, &demand, &ByRule::<R>::new().choose(&demand));
    }
    Ok(())
}

/// Checks that a policy clears twenty scattered demands, one after another.
fn check_scattered<P: Policy>(rt: &impl Abort, policy: &mut P) -> Result<(), Fail> {
    let mut state: u32 = 1;
    for _ in 0..20 {
        let demand = scattered(rt, &mut state)?;
        check_cleared(rt, policy, &demand);
    }
    Ok(())
}

#[test]
fn a_pair_of_critical_ports_is_joined(rt: HostRuntime) -> Result<(), Fail> {
    let demand = two_ports(&rt, (1, 1), (0, 1))?;
    let mut policy = PathPolicy::new();
    assert_eq!(rt; policy.choose(&demand).input_of(1), Some(0));
    assert_eq!(rt; demand.largest_load(), 2);
    check_cleared(&rt, &mut PathPolicy::new(), &demand);
    Ok(())
}

#[test]
fn small_demands_of_two_ports_get_lawful_settings(rt: HostRuntime) -> Result<(), Fail> {
    check_small_demands::<AlongPaths>(&rt)
}

#[test]
fn demands_of_16_ports_clear_in_their_largest_load(rt: HostRuntime) -> Result<(), Fail> {
    check_scattered(&rt, &mut PathPolicy::new())
}

#[test]
fn the_peeling_policy_serves_two_ports_lawfully(rt: HostRuntime) -> Result<(), Fail> {
    check_small_demands::<Peeling>(&rt)
}

#[test]
fn the_peeling_policy_clears_16_ports_in_their_largest_load(rt: HostRuntime) -> Result<(), Fail> {
    check_scattered(&rt, &mut PeelingPolicy::new())
}

#[test]
fn raising_makes_every_load_the_largest(rt: HostRuntime) -> Result<(), Fail> {
    let demand = two_ports(&rt, (2, 1), (0, 1))?;
    let raised = raise(&demand);
    assert_eq!(rt; raised.count(pair(0, 0)), 2);
    assert_eq!(rt; raised.count(pair(0, 1)), 1);
    assert_eq!(rt; raised.count(pair(1, 0)), 1);
    assert_eq!(rt; raised.count(pair(1, 1)), 2);
    Ok(())
}

#[test]
fn mending_keeps_what_is_lawful_and_drops_what_has_no_packet(rt: HostRuntime) -> Result<(), Fail> {
    let demand = two_ports(&rt, (1, 1), (0, 1))?;
    let mut straight = Setting::empty();
    assert!(rt; straight.join(pair(0, 0)));
    assert!(rt; straight.join(pair(1, 1)));
    let kept = mend(&demand, &straight);
    assert_eq!(rt; kept.input_of(0), Some(0));
    assert_eq!(rt; kept.input_of(1), Some(1));
    let mut crossed = Setting::empty();
    assert!(rt; crossed.join(pair(1, 0)));
    let mended = mend(&demand, &crossed);
    assert_eq!(rt; mended.input_of(0), None);
    assert_eq!(rt; mended.input_of(1), Some(0));
    Ok(())
}
