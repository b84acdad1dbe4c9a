ghost use Rattle.std.specs.Prelude.{◌≤◌};

use crate::PartMap;

#[test]
fn deals_blocks_out_to_parts_in_turn(rt: HostRuntime) {
    let map = PartMap::new(9, 1, 3);
    assert!(rt; map.block_of(8) == 4 && map.part_of(8) == 1 && map.block(1, 1) == 4);
    assert!(rt; map.place_of(8) == 2 && map.places(1) == 4 && map.vertex_at(1, 2) == 8);
    let counts = |n: u32| -> [u32; 3]
        requires { n ≤ 9 }
    {
        let map = PartMap::new(n, 1, 3);
        [map.blocks(0), map.blocks(1), map.blocks(2)]
    };
    assert!(rt; counts(9) == [2, 2, 1] && counts(4) == [1, 1, 0] && counts(0) == [0, 0, 0]);
}
