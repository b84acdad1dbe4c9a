use crate::striping::{need_on, place};
use crate::{Label, Layout};
use fg_base::limits::PAGE_BYTES;
use std::alloc::AllocError;

#[test]
fn deals_units_out_in_turn(rt: HostRuntime) {
    let places = [
        place(0, 3, 2),
        place(1, 3, 2),
        place(2, 3, 2),
        place(5, 3, 2),
        place(6, 3, 2),
        place(8, 3, 2),
    ];
    assert!(rt; places.map(|p| p.drive) == [0, 0, 1, 2, 0, 1]);
    assert!(rt; places.map(|p| p.local) == [1, 2, 1, 2, 3, 3]);
    let layout = Layout {
        drives: 3,
        unit: 2,
        pages: 9,
        out_first: 1,
        in_first: 4,
    };
    assert!(rt;
        [
            need_on(0, &layout),
            need_on(1, &layout),
            need_on(2, &layout)
        ] == [5, 4, 3]
    );
}

#[test]
fn a_label_is_read_back_and_a_marred_one_is_not(rt: HostRuntime) -> Result<(), AllocError> {
    let label = Label {
        drive: 1,
        drives: 3,
        unit: 2,
        pages: 9,
        number: 258,
    };
    let mut page = vec![in rt.alloc(); 255u8; PAGE_BYTES]?;
    label.write(&mut page);
    assert!(rt; page.starts_with(b"FGDRIVE\0"));
    assert!(rt;
        page[8..].starts_with(&[
            1, 0, 0, 0, 3, 0, 0, 0, 2, 0, 0, 0, 9, 0, 0, 0, 2, 1, 0, 0, 0, 0, 0, 0, 0
        ])
    );
    assert_eq!(rt; Label::read(&page), Some(label));
    page[4095] = 1;
    assert_eq!(rt; Label::read(&page), None);
    Ok(())
}
