//! Examples of sets of ports: what is in them, what has no place in them, and their lowest port.
use crate::Mask;

#[test]
fn ports_go_in_and_out(rt: HostRuntime) {
    let set = Mask::empty().with(3).with(0).set(7, true);
    assert!(rt; set.has(0) && set.has(3) && set.has(7) && !set.has(4));
    assert_eq!(rt; set.without(3), Mask::empty().with(0).with(7));
    assert_eq!(rt; set.set(3, false), set.without(3));
    assert_eq!(rt; set.without(4), set);
    assert_eq!(rt; set.meet(Mask::below(4)), set.without(7));
    assert!(rt; !Mask::below(4).has(4));
}

#[test]
fn ports_of_16_or_more_have_no_place(rt: HostRuntime) {
    let all = Mask::below(16);
    assert!(rt; all.has(15) && !all.has(16) && !all.has(255));
    assert_eq!(rt; Mask::below(255), all);
    assert_eq!(rt; Mask::empty().with(16), Mask::empty());
    assert_eq!(rt; all.set(255, true), all);
    assert_eq!(rt; all.without(16), all);
}

#[test]
fn the_lowest_port_is_found(rt: HostRuntime) {
    assert_eq!(rt; Mask::empty().lowest(), None);
    assert_eq!(rt; Mask::empty().with(15).lowest(), Some(15));
    assert_eq!(rt; Mask::empty().with(9).with(2).with(5).lowest(), Some(2));
    assert_eq!(rt; Mask::below(16).lowest(), Some(0));
}
