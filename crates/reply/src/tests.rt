//! Examples of replies: the code, the place, and the number and layer of a reason.
use crate::code;
use crate::place::Place;
use crate::reason::{Layer, Reason};
use crate::refusal::Refusal;
use std::test::Fail;

#[test]
fn a_refusal_says_layer_number_and_place(rt: HostRuntime) {
    assert_eq!(rt; code(Err(Refusal::new(Reason::OutputFull, 3))), 0x30500003);
}

#[test]
fn a_done_reply_says_its_count(rt: HostRuntime) {
    assert_eq!(rt; code(Ok(Place::from(0))), 0);
    assert_eq!(rt; code(Ok(Place::from(7))), 7);
}

#[test]
fn a_place_has_twenty_bits(rt: HostRuntime) -> Result<(), Fail> {
    let Some(last) = Place::new((1 << 20) - 1) else {
        return Err(Fail::new("the last place"));
    };
    assert_eq!(rt; u32::from(last), 0xfffff);
    assert!(rt; Place::new(1 << 20).is_none());
    Ok(())
}

#[test]
fn each_reason_has_a_number(rt: HostRuntime) {
    assert_eq!(rt; Reason::OutOfService.number(), 1);
    assert_eq!(rt; Reason::NoSlotsLeft.number(), 8);
    assert_eq!(rt; Reason::MessageCut.number(), 10);
    assert_eq!(rt; Reason::OutOfRange.number(), 21);
    assert_eq!(rt; Reason::TooManyRows.number(), 26);
}

#[test]
fn each_reason_has_a_layer(rt: HostRuntime) {
    assert_eq!(rt; Reason::OutOfService.layer(), Layer::Switch);
    assert_eq!(rt; Reason::NoSlotsLeft.layer(), Layer::Batch);
    assert_eq!(rt; Reason::MessageCut.layer(), Layer::Format);
    assert_eq!(rt; Reason::OutOfRange.layer(), Layer::Format);
}
