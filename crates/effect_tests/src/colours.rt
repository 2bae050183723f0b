//! The colour effects, worked by hand.

use argb_pixel::Pixel;
use argb_world::World;
use fx_color::{
    ChannelShift, Ends, Invert, PaletteMap, Recolor, ScaleOffset, Threshold, Tint, recolor_world,
};
use geom_rect::Rect;
use std::test::Fail;

// A pixel of 8 bits a channel.
fn eight(a: u32, r: u32, g: u32, b: u32) -> Result<Pixel<255>, Fail> {
    match Pixel::new(a, r, g, b) {
        Some(pixel) => Ok(pixel),
        None => Err("a premultiplied pixel")?,
    }
}

// A pixel of 16 bits a channel.
fn sixteen(a: u32, r: u32, g: u32, b: u32) -> Result<Pixel<32768>, Fail> {
    match Pixel::new(a, r, g, b) {
        Some(pixel) => Ok(pixel),
        None => Err("a premultiplied pixel")?,
    }
}

#[test]
fn one_channel_or_each_is_inverted(rt: HostRuntime) -> Result<(), Fail> {
    let pixel = eight(200, 100, 50, 0)?;
    assert_eq!(rt;
        Invert { channel: 0 }.recolor(pixel),
        eight(200, 100, 150, 200)?
    );
    assert_eq!(rt;
        Invert { channel: 2 }.recolor(pixel),
        eight(200, 100, 150, 0)?
    );
    assert_eq!(rt;
        Invert { channel: 3 }.recolor(pixel),
        eight(200, 100, 50, 200)?
    );
    let wide = sixteen(32768, 16384, 0, 1)?;
    assert_eq!(rt;
        Invert { channel: 0 }.recolor(wide),
        sixteen(32768, 16384, 32768, 32767)?
    );
    Ok(())
}

// The luma is (77 * 100 + 150 * 50 + 128) / 256 = 59, and 590,000 are 2,950 times 200.
#[test]
fn a_threshold_is_met_by_what_is_at_it(rt: HostRuntime) -> Result<(), Fail> {
    let pixel = eight(200, 100, 50, 0)?;
    assert_eq!(rt;
        Threshold { level: 2950 }.recolor(pixel),
        eight(200, 200, 200, 200)?
    );
    assert_eq!(rt;
        Threshold { level: 2951 }.recolor(pixel),
        eight(200, 0, 0, 0)?
    );
    Ok(())
}

#[test]
fn colours_are_taken_from_channels(rt: HostRuntime) -> Result<(), Fail> {
    let shift = ChannelShift {
        red: 3,
        green: 0,
        blue: 4,
    };
    assert_eq!(rt;
        shift.recolor(eight(200, 100, 50, 0)?),
        eight(200, 200, 100, 0)?
    );
    let turn = ChannelShift {
        red: 1,
        green: 2,
        blue: 0,
    };
    assert_eq!(rt;
        turn.recolor(sixteen(32768, 3, 2, 1)?),
        sixteen(32768, 2, 1, 3)?
    );
    Ok(())
}

#[test]
fn colours_are_scaled_moved_and_held(rt: HostRuntime) -> Result<(), Fail> {
    let pixel = eight(200, 100, 50, 0)?;
    for (scale, offset, want) in [
        (10000, 0, [100, 50, 0]),
        (10000, 2500, [150, 100, 50]),
        (40000, 0, [200, 200, 0]),
        (5000, 0, [50, 25, 0]),
        (0, -10000, [0, 0, 0]),
        (10000, -2500, [50, 0, 0]),
    ] {
        let [r, g, b] = want;
        let rule = ScaleOffset { scale, offset };
        assert_eq!(rt; rule.recolor(pixel), eight(200, r, g, b)?);
    }
    Ok(())
}

// The luma of opaque red is (77 * 255 + 128) / 256 = 77.
#[test]
fn a_tint_from_black_to_white_is_the_luma(rt: HostRuntime) -> Result<(), Fail> {
    let grey = Ends {
        black: 0,
        white: 10000,
    };
    let whole = Tint {
        red: grey,
        green: grey,
        blue: grey,
        amount: 10000,
    };
    assert_eq!(rt;
        whole.recolor(eight(255, 255, 0, 0)?),
        eight(255, 77, 77, 77)?
    );
    let none = Tint {
        red: grey,
        green: grey,
        blue: grey,
        amount: 0,
    };
    assert_eq!(rt;
        none.recolor(eight(255, 255, 0, 0)?),
        eight(255, 255, 0, 0)?
    );
    Ok(())
}

#[test]
fn a_palette_has_an_entry_for_each_luma(rt: HostRuntime) -> Result<(), Fail> {
    let bytes = [0, 0, 0, 255, 255, 255];
    let palette = PaletteMap { bytes: &bytes };
    assert_eq!(rt;
        palette.recolor(eight(200, 100, 50, 0)?),
        eight(200, 0, 0, 0)?
    );
    assert_eq!(rt;
        palette.recolor(eight(255, 255, 255, 255)?),
        eight(255, 255, 255, 255)?
    );
    assert_eq!(rt; palette.recolor(eight(0, 0, 0, 0)?), eight(0, 0, 0, 0)?);
    let last = [1, 2, 3, 4, 5, 6];
    let map = PaletteMap { bytes: &last };
    assert_eq!(rt;
        map.recolor(eight(255, 255, 255, 255)?),
        eight(255, 4, 5, 6)?
    );
    Ok(())
}

#[test]
fn the_target_is_recoloured_and_keeps_its_part(rt: HostRuntime) -> Result<(), Fail> {
    let extent = Rect {
        left: 0,
        top: 0,
        right: 3,
        bottom: 1,
    };
    let part = Rect {
        left: 1,
        top: 0,
        right: 3,
        bottom: 1,
    };
    let input = World::solid(rt.alloc(), extent, eight(200, 100, 50, 0)?)?;
    let mut target = World::<255>::blank(rt.alloc(), extent, part)?;
    recolor_world(rt.alloc(), &Invert { channel: 0 }, &input, &mut target)?;
    assert_eq!(rt; target.part(), part);
    assert_eq!(rt; target.at(0, 0), eight(0, 0, 0, 0)?);
    assert_eq!(rt; target.at(1, 0), eight(200, 100, 150, 200)?);
    assert_eq!(rt; target.at(2, 0), eight(200, 100, 150, 200)?);
    Ok(())
}
