ghost use Rattle.argb_pixel.specs.Depth.{IsDepth};

use argb_pixel::{Pixel, Transparent};
use std::process::Abort;
use transfer_mode::{Mode, blend, blend_colour, blend_row, mode_of_name};

type Eight = Pixel<255>;

type Sixteen = Pixel<32768>;

#[test]
fn blends_the_worked_pixels(rt: HostRuntime) {
    let red = Eight::of_channels(128, 128, 0, 0);
    let blue = Eight::of_channels(255, 0, 0, 255);
    assert_eq!(rt;
        blend(Mode::Normal, red, blue),
        Eight::of_channels(255, 128, 0, 127)
    );
    let grey = Eight::of_channels(255, 128, 128, 128);
    assert_eq!(rt;
        blend(Mode::Multiply, grey, grey),
        Eight::of_channels(255, 64, 64, 64)
    );
    let white = Sixteen::of_channels(32768, 32768, 32768, 32768);
    let black = Sixteen::of_channels(32768, 0, 0, 0);
    assert_eq!(rt; blend(Mode::Normal, white, black), white);
    for (mode, source, below, want) in [
        (Mode::ColorDodge, 255, 0, 0),
        (Mode::ColorDodge, 255, 1, 255),
        (Mode::ColorBurn, 0, 255, 255),
        (Mode::ColorBurn, 0, 254, 0),
    ] {
        let source = Eight::of_channels(255, source, source, source);
        let below = Eight::of_channels(255, below, below, below);
        assert_eq!(rt;
            blend(mode, source, below),
            Eight::of_channels(255, want, want, want)
        );
    }
}

// Half transparent grey over opaque grey, by hand: with both alphas in 255ths,
// colour = (s*0 + d*127 + B + 127) / 255 at s = 64, d = 100, sa = 128, da = 255.
#[test]
fn blends_each_mode(rt: HostRuntime) {
    let source = Eight::of_channels(128, 64, 64, 64);
    let below = Eight::of_channels(255, 100, 100, 100);
    for (mode, alpha, want) in [
        (Mode::Normal, 255, 114),
        (Mode::Multiply, 255, 75),
        (Mode::Screen, 255, 139),
        (Mode::Darken, 255, 100),
        (Mode::Lighten, 255, 114),
        (Mode::Difference, 255, 64),
        (Mode::Exclusion, 255, 114),
        (Mode::Add, 255, 164),
        (Mode::Subtract, 255, 50),
        (Mode::LinearBurn, 255, 50),
        (Mode::HardLight, 255, 100),
        (Mode::Overlay, 255, 100),
        (Mode::LinearLight, 255, 100),
        (Mode::PinLight, 255, 100),
        (Mode::HardMix, 255, 50),
        (Mode::ColorDodge, 255, 150),
        (Mode::ColorBurn, 255, 50),
        (Mode::StencilAlpha, 128, 50),
        (Mode::SilhouetteAlpha, 127, 50),
        (Mode::StencilLuma, 64, 25),
        (Mode::SilhouetteLuma, 191, 75),
    ] {
        let want = Eight::new(alpha, want, want, want);
        assert_eq!(rt; Some(blend(mode, source, below)), want, "in {mode:?}");
    }
}

fn blends_rows<const MAX: u32>(rt: &impl Abort, p: Pixel<MAX>, q: Pixel<MAX>)
    requires { IsDepth MAX }
{
    let none = Pixel::CLEAR;
    let mut row = [p, none, q];
    blend_row(Mode::Normal, &[none, p, p], &mut row);
    assert_eq!(rt; row, [p, p, blend(Mode::Normal, p, q)]);
    let mut row = [p, none, q];
    blend_colour(Mode::Multiply, p, &mut row);
    assert_eq!(rt;
        row,
        [blend(Mode::Multiply, p, p), p, blend(Mode::Multiply, p, q)]
    );
}

#[test]
fn blends_rows_of_depth_8(rt: HostRuntime) {
    blends_rows(
        &rt,
        Eight::of_channels(128, 64, 0, 1),
        Eight::of_channels(255, 5, 6, 7),
    );
}

#[test]
fn blends_rows_of_depth_16(rt: HostRuntime) {
    blends_rows(
        &rt,
        Sixteen::of_channels(16384, 64, 0, 1),
        Sixteen::of_channels(32768, 5, 6, 7),
    );
}

#[test]
fn knows_the_names(rt: HostRuntime) {
    for (name, mode) in [
        ("Normal", Some(Mode::Normal)),
        ("LinearBurn", Some(Mode::LinearBurn)),
        ("SilhouetteLuma", Some(Mode::SilhouetteLuma)),
        ("normal", None),
        ("Normal ", None),
        ("", None),
        ("Dissolve", None),
    ] {
        assert_eq!(rt; mode_of_name(name), mode, "of {name}");
    }
}
