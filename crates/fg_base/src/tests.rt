use crate::Items;

#[test]
fn items_grow_and_move(rt: HostRuntime) {
    let mut waiting: Items<u32> = Items::new(rt.alloc());
    let mut done: Items<u32> = Items::new(rt.alloc());
    assert!(rt; waiting.is_empty());
    assert_eq!(rt; waiting.push(7), Ok(()));
    assert_eq!(rt; waiting.push(8), Ok(()));
    assert_eq!(rt; waiting.push(9), Ok(()));
    assert_eq!(rt; waiting.move_to(1, &mut done), Ok(()));
    assert_eq!(rt; waiting.as_slice(), [7, 9].as_slice());
    assert_eq!(rt; done.as_slice(), [8].as_slice());
    assert_eq!(rt; waiting.len(), 2);
}
