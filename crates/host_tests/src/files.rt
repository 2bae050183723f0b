//! The bytes of a file.

use argb_pixel::Pixel;
use argb_world::World;
use frame_file::{Header, frame_bytes, header_bytes, into_frame_bytes};
use geom_rect::Rect;
use std::test::Fail;

#[test]
fn pixels_of_both_depths(rt: HostRuntime) -> Result<(), Fail> {
    let point = Rect {
        left: 0,
        top: 0,
        right: 1,
        bottom: 1,
    };
    let mut wide: World<32768> = World::blank(rt.alloc(), point, point)?;
    wide.set(0, 0, Pixel::of_channels(32768, 16384, 0, 1));
    assert_eq!(rt;
        frame_bytes(&rt, rt.alloc(), &wide)?.as_slice(),
        [0x80, 0, 0x40, 0, 0, 0, 0, 1].as_slice()
    );
    assert_eq!(rt;
        into_frame_bytes(wide).as_slice(),
        [0x80, 0, 0x40, 0, 0, 0, 0, 1].as_slice()
    );
    let tall = Rect {
        left: 5,
        top: -1,
        right: 6,
        bottom: 1,
    };
    let mut narrow: World<255> = World::blank(rt.alloc(), tall, tall)?;
    narrow.set(5, -1, Pixel::of_channels(255, 10, 20, 30));
    assert_eq!(rt;
        frame_bytes(&rt, rt.alloc(), &narrow)?.as_slice(),
        [255, 10, 20, 30, 0, 0, 0, 0].as_slice()
    );
    assert_eq!(rt;
        into_frame_bytes(narrow).as_slice(),
        [255, 10, 20, 30, 0, 0, 0, 0].as_slice()
    );
    Ok(())
}

#[test]
fn a_header_in_full(rt: HostRuntime) {
    let header = Header {
        width: 0x01020304,
        height: 5,
        depth: 16,
        value: 1001,
        scale: 30000,
        first: 7,
        count: 65536,
    };
    let want = [
        65, 70, 82, 49, 1, 2, 3, 4, 0, 0, 0, 5, 16, 0, 0, 3, 0xe9, 0, 0, 0x75, 0x30, 0, 0, 0, 7, 0,
        1, 0, 0,
    ];
    assert_eq!(rt; header_bytes(&header).as_slice(), want.as_slice());
}
