ghost use Rattle.std.specs.Prelude.{◌≡◌, ◌≤◌, length};
ghost use Rattle.argb_pixel.specs.Depth.{IsDepth};

use argb_pixel::{Pixel, Transparent, pack_row, pixel_size, unpack_row};
use std::process::Abort;
use transfer_mode::{
    Mode, blend_colour, blend_packed, blend_packed_colour, blend_row, scale_packed,
};

type Eight = Pixel<255>;

type Sixteen = Pixel<32768>;

const MODES: &[Mode] = &[
    Mode::Normal,
    Mode::Multiply,
    Mode::Screen,
    Mode::Darken,
    Mode::Lighten,
    Mode::Difference,
    Mode::Exclusion,
    Mode::Add,
    Mode::Subtract,
    Mode::LinearBurn,
    Mode::HardLight,
    Mode::Overlay,
    Mode::LinearLight,
    Mode::PinLight,
    Mode::HardMix,
    Mode::ColorDodge,
    Mode::ColorBurn,
    Mode::StencilAlpha,
    Mode::SilhouetteAlpha,
    Mode::StencilLuma,
    Mode::SilhouetteLuma,
];

#[test]
fn packs_the_worked_pixels(rt: HostRuntime) {
    let mut bytes = [0u8; 8];
    pack_row(
        &[
            Eight::of_channels(128, 128, 0, 0),
            Eight::of_channels(255, 0, 0, 255),
        ],
        &mut bytes,
    );
    assert_eq!(rt; bytes, [0x80, 0x80, 0, 0, 0xff, 0, 0, 0xff]);
    pack_row(&[Sixteen::of_channels(32768, 16384, 0, 1)], &mut bytes);
    assert_eq!(rt; bytes, [0x80, 0, 0x40, 0, 0, 0, 0, 1]);
    let mut back = [Sixteen::CLEAR];
    unpack_row(&bytes, &mut back);
    assert_eq!(rt; back, [Sixteen::of_channels(32768, 16384, 0, 1)]);
}

#[test]
fn blends_the_worked_packed_pixels(rt: HostRuntime) {
    let mut source = [0u8; 4];
    pack_row(&[Eight::of_channels(128, 128, 0, 0)], &mut source);
    let mut below = [0u8; 4];
    pack_row(&[Eight::of_channels(255, 0, 0, 255)], &mut below);
    blend_packed::<255>(Mode::Normal, &source, &mut below);
    assert_eq!(rt; below, [0xff, 0x80, 0, 0x7f]);
}

// The same row as pixels and packed, under a row, under one colour and under an opacity.
fn rows_agree<const MAX: u32>(
    rt: &impl Abort,
    mode: Mode,
    source: &[Pixel<MAX>],
    below: &mut [Pixel<MAX>],
)
    requires depth { IsDepth MAX }
    requires few { length source.now ≤ 5 }
    requires same { length source.now ≡ length below.old }
{
    let mut source_bytes = [0u8; 40];
    let mut bytes = [0u8; 40];
    let mut back = [Pixel::CLEAR; 5];
    let many = below.len();
    let source_bytes = &mut source_bytes[..many * pixel_size::<MAX>()];
    let bytes = &mut bytes[..many * pixel_size::<MAX>()];
    let back = &mut back[..many];
    pack_row(source, source_bytes);
    pack_row(below, bytes);
    blend_row(mode, source, below);
    blend_packed::<MAX>(mode, source_bytes, bytes);
    unpack_row(bytes, back);
    assert!(rt; *back == *below, "a row in {mode:?}");
    let colour = source.first().map_or(Pixel::CLEAR, |pixel| *pixel);
    blend_colour(mode, colour, below);
    blend_packed_colour::<MAX>(mode, colour, bytes);
    unpack_row(bytes, back);
    assert!(rt; *back == *below, "a colour in {mode:?}");
    for pixel in below.iter_mut() {
        *pixel = pixel.scale(3333);
    }
    scale_packed::<MAX>(3333, bytes);
    unpack_row(bytes, back);
    assert!(rt; *back == *below, "under an opacity after {mode:?}");
}

#[test]
fn agrees_at_8_bit(rt: HostRuntime) {
    let source = [
        Eight::of_channels(128, 64, 0, 1),
        Eight::of_channels(255, 255, 200, 3),
        Eight::CLEAR,
        Eight::of_channels(9, 9, 9, 9),
        Eight::of_channels(254, 127, 128, 1),
    ];
    for mode in MODES {
        for many in 0..=5usize {
            let mut below = [
                Eight::of_channels(255, 5, 6, 7),
                Eight::of_channels(127, 100, 127, 0),
                Eight::of_channels(255, 255, 255, 255),
                Eight::of_channels(1, 1, 0, 1),
                Eight::of_channels(200, 100, 50, 25),
            ];
            rows_agree(&rt, *mode, &source[..many], &mut below[..many]);
        }
    }
}

#[test]
fn agrees_at_16_bit(rt: HostRuntime) {
    let source = [
        Sixteen::of_channels(16384, 64, 0, 1),
        Sixteen::of_channels(32768, 32768, 20000, 3),
        Sixteen::CLEAR,
        Sixteen::of_channels(257, 257, 256, 255),
        Sixteen::of_channels(32767, 16383, 16384, 1),
    ];
    for mode in MODES {
        for many in 0..=5usize {
            let mut below = [
                Sixteen::of_channels(32768, 5, 6, 7),
                Sixteen::of_channels(16383, 10000, 16383, 0),
                Sixteen::of_channels(32768, 32768, 32768, 32768),
                Sixteen::of_channels(1, 1, 0, 1),
                Sixteen::of_channels(20000, 10000, 5000, 2500),
            ];
            rows_agree(&rt, *mode, &source[..many], &mut below[..many]);
        }
    }
}
