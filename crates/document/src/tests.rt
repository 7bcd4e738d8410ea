//! Examples of the slots of a period, at the bounds of each factor and of the slots.
use crate::period::Line;
use reply::code;

const OUT_OF_RANGE: u32 = 0x11500000;

/// The code of the reply that says the slots of a period.
fn slots(rate: u64, period: u64, packet: u64) -> u32 {
    let line = Line {
        rate,
        period,
        packet,
    };
    code(line.slots())
}

#[test]
fn a_hundred_packets_cross_in_ten_milliseconds(rt: HostRuntime) {
    assert_eq!(rt; slots(100_000_000, 10_000, 10_000), 100);
}

#[test]
fn the_rate_has_bounds(rt: HostRuntime) {
    assert_eq!(rt; slots(0, 1_000_000, 1), OUT_OF_RANGE);
    assert_eq!(rt; slots(1, 1_000_000, 1), 1);
    assert_eq!(rt; slots(100_000_000_000, 10_000, 1_000_000), 1000);
    assert_eq!(rt; slots(100_000_000_001, 10_000, 1_000_000), OUT_OF_RANGE);
}

#[test]
fn the_period_has_bounds(rt: HostRuntime) {
    assert_eq!(rt; slots(100_000_000, 0, 1), OUT_OF_RANGE);
    assert_eq!(rt; slots(100_000_000, 1, 1), 100);
    assert_eq!(rt; slots(1_000, 1_000_000, 10), 100);
    assert_eq!(rt; slots(1_000, 1_000_001, 10), OUT_OF_RANGE);
}

#[test]
fn the_packet_has_bounds(rt: HostRuntime) {
    assert_eq!(rt; slots(100, 1_000_000, 0), OUT_OF_RANGE);
    assert_eq!(rt; slots(100, 1_000_000, 1), 100);
    assert_eq!(rt; slots(100_000_000, 1_000_000, 1_000_000), 100);
    assert_eq!(rt; slots(100_000_000, 1_000_000, 1_000_001), OUT_OF_RANGE);
}

#[test]
fn a_period_has_1_to_1024_slots(rt: HostRuntime) {
    assert_eq!(rt; slots(999, 1_000_000, 1_000), OUT_OF_RANGE);
    assert_eq!(rt; slots(1_000, 1_000_000, 1_000), 1);
    assert_eq!(rt; slots(1_024_999, 1_000_000, 1_000), 1024);
    assert_eq!(rt; slots(1_025_000, 1_000_000, 1_000), OUT_OF_RANGE);
}
