use crate::{Directory, EntryState, Placed, WantSeen};

#[test]
fn two_ways_three_workers(rt: HostRuntime) {
    let mut set = Directory::new(2, 3);
    assert_eq!(rt; set.want(0, 10).seen(), WantSeen::Start(0));
    assert_eq!(rt; set.ready(0, 10), Placed::Done);
    assert_eq!(rt; set.want(0, 10).seen(), WantSeen::Hit(0));
    assert_eq!(rt; set.want(1, 12).seen(), WantSeen::Start(1));
    assert_eq!(rt; set.want(2, 14).seen(), WantSeen::Again);
    assert_eq!(rt; set.want(2, 12).seen(), WantSeen::Loading);
    assert_eq!(rt; set.ready(1, 12), Placed::Done);
    assert_eq!(rt; set.want(1, 12).seen(), WantSeen::Hit(1));
    assert_eq!(rt; set.want(2, 14).seen(), WantSeen::Again);
    set.unpin(0, 0);
    assert_eq!(rt; set.want(2, 14).seen(), WantSeen::Start(0));
    assert_eq!(rt; set.ready(0, 10), Placed::Other(EntryState::Loading(14)));
}

#[test]
fn a_failed_load_and_a_repair_empty_the_entry(rt: HostRuntime) {
    let mut set = Directory::new(1, 2);
    assert_eq!(rt; set.ways(), 1);
    assert_eq!(rt; set.workers(), 2);
    assert_eq!(rt; set.want(0, 7).seen(), WantSeen::Start(0));
    assert_eq!(rt; set.fail(0, 8), Placed::Other(EntryState::Loading(7)));
    assert_eq!(rt; set.fail(0, 7), Placed::Done);
    assert_eq!(rt; set.want(1, 8).seen(), WantSeen::Start(0));
    assert_eq!(rt; set.ready(0, 8), Placed::Done);
    assert_eq!(rt; set.want(0, 8).seen(), WantSeen::Hit(0));
    assert_eq!(rt; set.want(1, 8).seen(), WantSeen::Hit(0));
    set.repair(0, 0);
    assert_eq!(rt; set.want(1, 8).seen(), WantSeen::Hit(0));
    set.repair(1, 0);
    assert_eq!(rt; set.ready(0, 8), Placed::Other(EntryState::Empty));
}
