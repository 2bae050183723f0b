use argb_pixel::{Pixel, Transparent};
use std::test::Fail;

type Eight = Pixel<255>;

type Sixteen = Pixel<32768>;

#[test]
fn makes_pixels_of_depth_8(rt: HostRuntime) -> Result<(), Fail> {
    for (channels, fits) in [
        ([0, 0, 0, 0], true),
        ([255, 255, 255, 255], true),
        ([256, 0, 0, 0], false),
        ([10, 10, 10, 10], true),
        ([10, 11, 0, 0], false),
        ([10, 0, 11, 0], false),
        ([10, 0, 0, 11], false),
        ([4294967295, 0, 0, 0], false),
    ] {
        let [a, r, g, b] = channels;
        assert_eq!(rt; Eight::new(a, r, g, b).is_some(), fits, "at {channels:?}");
    }
    let pixel = Eight::new(200, 100, 50, 150).ok_or("not premultiplied")?;
    assert_eq!(rt;
        [pixel.a(), pixel.r(), pixel.g(), pixel.b()],
        [200, 100, 50, 150]
    );
    assert_eq!(rt; pixel, Eight::of_channels(200, 100, 50, 150));
    assert_eq!(rt; Eight::CLEAR, Eight::of_channels(0, 0, 0, 0));
    Ok(())
}

#[test]
fn makes_pixels_of_depth_16(rt: HostRuntime) -> Result<(), Fail> {
    for (channels, fits) in [
        ([32768, 32768, 32768, 32768], true),
        ([32769, 0, 0, 0], false),
        ([65536, 0, 0, 0], false),
        ([300, 300, 300, 300], true),
        ([300, 301, 0, 0], false),
        ([300, 0, 301, 0], false),
        ([300, 0, 0, 301], false),
    ] {
        let [a, r, g, b] = channels;
        assert_eq!(rt; Sixteen::new(a, r, g, b).is_some(), fits, "at {channels:?}");
    }
    let pixel = Sixteen::new(30000, 15000, 1, 32768 - 2768).ok_or("not premultiplied")?;
    assert_eq!(rt;
        [pixel.a(), pixel.r(), pixel.g(), pixel.b()],
        [30000, 15000, 1, 30000]
    );
    assert_eq!(rt; Sixteen::CLEAR, Sixteen::of_channels(0, 0, 0, 0));
    Ok(())
}

#[test]
fn computes_with_pixels_of_depth_8(rt: HostRuntime) {
    let pixel = Eight::of_channels(200, 100, 50, 150);
    // 400/255, 200/255, 100/255 and 300/255
    assert_eq!(rt; pixel.mul(2), Eight::of_channels(2, 1, 0, 1));
    assert_eq!(rt; pixel.mul(128), Eight::of_channels(100, 50, 25, 75));
    assert_eq!(rt; pixel.mul(255), pixel);
    assert_eq!(rt; pixel.mul(0), Eight::CLEAR);
    // 50, 25, 12.5 and 37.5: a half goes up
    assert_eq!(rt; pixel.scale(2500), Eight::of_channels(50, 25, 13, 38));
    assert_eq!(rt; pixel.scale(10000), pixel);
    assert_eq!(rt; pixel.scale(0), Eight::CLEAR);
    for (channels, luma) in [
        ([255, 255, 255, 255], 255),
        ([255, 255, 0, 0], 77),
        ([255, 0, 255, 0], 149),
        ([255, 0, 0, 255], 29),
    ] {
        let [a, r, g, b] = channels;
        assert_eq!(rt;
            Eight::new(a, r, g, b).map(|p| p.luma()),
            Some(luma),
            "at {channels:?}"
        );
    }
}

#[test]
fn computes_with_pixels_of_depth_16(rt: HostRuntime) {
    let pixel = Sixteen::of_channels(30000, 15000, 1, 30000);
    // a half of each: 15000, 7500, 1/2 and 15000
    assert_eq!(rt;
        pixel.mul(16384),
        Sixteen::of_channels(15000, 7500, 1, 15000)
    );
    assert_eq!(rt; pixel.mul(32768), pixel);
    assert_eq!(rt;
        pixel.scale(5000),
        Sixteen::of_channels(15000, 7500, 1, 15000)
    );
    // 2025278 / 256
    assert_eq!(rt; pixel.luma(), 7911);
}

#[test]
fn changes_depth(rt: HostRuntime) {
    let pixel = Eight::of_channels(255, 128, 0, 255);
    let deep = Sixteen::of_channels(32768, 16448, 0, 32768);
    assert_eq!(rt; pixel.to_depth::<32768>(), deep);
    assert_eq!(rt; deep.to_depth::<255>(), pixel);
    assert_eq!(rt; pixel.to_depth::<255>(), pixel);
}
