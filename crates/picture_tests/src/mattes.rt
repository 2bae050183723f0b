ghost use Rattle.argb_pixel.specs.Depth.{IsDepth};

use argb_pixel::{Pixel, Transparent};
use std::process::Abort;
use track_matte::{Matte, apply_row, matte_of_name, matte_value};

type Eight = Pixel<255>;

type Sixteen = Pixel<32768>;

#[test]
fn tells_the_value(rt: HostRuntime) {
    // (77*200 + 150*100 + 29*0 + 128) / 256
    let pixel = Eight::of_channels(200, 200, 100, 0);
    for (kind, want) in [
        (Matte::None, 255),
        (Matte::Alpha, 200),
        (Matte::AlphaInverted, 55),
        (Matte::Luma, 119),
        (Matte::LumaInverted, 136),
    ] {
        assert_eq!(rt; matte_value(kind, pixel), want, "of {kind:?}");
    }
}

#[test]
fn applies_an_inverted_luma(rt: HostRuntime) {
    let pixel = Eight::of_channels(255, 200, 100, 0);
    let mut row = [pixel, pixel, pixel];
    let grey = Eight::of_channels(255, 128, 128, 128);
    let white = Eight::of_channels(255, 255, 255, 255);
    apply_row(Matte::LumaInverted, &[Eight::CLEAR, grey, white], &mut row);
    assert_eq!(rt;
        row,
        [pixel, Eight::of_channels(127, 100, 50, 0), Eight::CLEAR]
    );
}

fn applies_each<const MAX: u32>(rt: &impl Abort, white: Pixel<MAX>)
    requires { IsDepth MAX }
{
    let none = Pixel::CLEAR;
    for (kind, over_white, over_none) in [
        (Matte::None, white, white),
        (Matte::Alpha, white, none),
        (Matte::AlphaInverted, none, white),
        (Matte::Luma, white, none),
        (Matte::LumaInverted, none, white),
    ] {
        let mut row = [white, white];
        apply_row(kind, &[white, none], &mut row);
        assert_eq!(rt; row, [over_white, over_none], "under {kind:?}");
    }
}

#[test]
fn applies_each_kind_in_both_depths(rt: HostRuntime) {
    applies_each(&rt, Eight::of_channels(255, 255, 255, 255));
    applies_each(&rt, Sixteen::of_channels(32768, 32768, 32768, 32768));
}

#[test]
fn knows_the_names(rt: HostRuntime) {
    for (name, kind) in [
        ("None", Some(Matte::None)),
        ("Alpha", Some(Matte::Alpha)),
        ("LumaInverted", Some(Matte::LumaInverted)),
        ("luma", None),
        ("", None),
    ] {
        assert_eq!(rt; matte_of_name(name), kind, "of {name}");
    }
}
