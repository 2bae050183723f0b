//! The stock set through the bounds of its traits.
ghost use Rattle.std.specs.Prelude.{◌≡◌};
ghost use Rattle.effect_api.specs.Planes.{HasSides};

use crate::calls::{counted, described, drawn, kept, prepared};
use crate::uses::{BASE, steady};
use argb_pixel::Pixel;
use argb_world::World;
use effect_api::{Moment, PreRender};
use fx_stock::Stock;
use geom_rect::Rect;
use rational_time::Tick;
use sequence_data::{SequenceError, read_sequence};
use std::test::Fail;

// The first frame, of one tick.
const START: Moment = Moment {
    base: BASE,
    tick: Tick(0),
    frame: 1,
};

fn rect(left: i32, top: i32, right: i32, bottom: i32) -> Rect
    ensures { result ≡ record { left = left; top = top; right = right; bottom = bottom } }
{
    Rect {
        left,
        top,
        right,
        bottom,
    }
}

#[test]
fn kinds_have_their_names_and_places(rt: HostRuntime) -> Result<(), Fail> {
    let (schemas, classes) = described(rt.alloc(), &Stock)?;
    assert_eq!(rt; classes, 2);
    let names = [
        "Invert",
        "Threshold",
        "ChannelShift",
        "ScaleOffset",
        "Tint",
        "PaletteMap",
        "Offset",
        "BoxBlur",
        "Mosaic",
        "DropShadow",
        "Displace",
        "Echo",
        "PosterizeTime",
        "FrameDifference",
        "TimeMean",
        "AutoLevels",
        "Equalize",
        "Deflicker",
    ];
    let counts = [1, 1, 3, 2, 7, 0, 2, 1, 1, 6, 2, 3, 1, 1, 1, 1, 0, 1];
    assert_eq!(rt; schemas.len(), 18);
    for (kind, schema) in schemas.iter().enumerate() {
        assert_eq!(rt; schema.name.as_str(), names[kind]);
        assert_eq!(rt; schema.params.as_slice().len(), counts[kind]);
        assert!(rt; schema.threaded && schema.layers == u32::from(kind == 10));
    }
    Ok(())
}

#[test]
fn a_palette_has_whole_entries(rt: HostRuntime) -> Result<(), Fail> {
    let (schemas, _) = described(rt.alloc(), &Stock)?;
    let rule = match schemas.get(5) {
        Some(palette) => palette.sequence,
        None => return Err("there are eighteen kinds")?,
    };
    let two = read_sequence(rt.alloc(), "000000ffffff", rule)?;
    assert_eq!(rt; two.bytes(), [0, 0, 0, 255, 255, 255].as_slice());
    for text in ["000000ff", "0g"] {
        assert!(rt;
            matches!(
                read_sequence(rt.alloc(), text, rule),
                Err(SequenceError::BadSequence)
            )
        );
    }
    let same = kept(rt.alloc(), &Stock, 5, two.bytes())?;
    assert_eq!(rt; same.bytes(), two.bytes());
    for bytes in [&[0u8, 0, 0, 255][..], &[]] {
        assert!(rt;
            matches!(
                kept(rt.alloc(), &Stock, 5, bytes),
                Err(SequenceError::BadSequence)
            )
        );
    }
    assert_eq!(rt; kept(rt.alloc(), &Stock, 0, &[])?.bytes().len(), 0);
    assert!(rt;
        matches!(
            kept(rt.alloc(), &Stock, 0, &[0]),
            Err(SequenceError::BadSequence)
        )
    );
    Ok(())
}

#[test]
fn a_colour_effect_wants_its_input_alone(rt: HostRuntime) -> Result<(), Fail> {
    let fx = steady(rt.alloc(), 0, &[0], &[])?;
    let counts = counted(rt.alloc(), &Stock, &fx, START)?;
    assert_eq!(rt; counts, (1, 0));
    Ok(())
}

// What Invert answers for an extent of 4 by 2.
fn answered(rt: &HostRuntime, request: Rect) -> Result<PreRender, Fail>
    requires { HasSides request }
{
    let fx = steady(rt.alloc(), 0, &[0], &[])?;
    Ok(prepared(rt.alloc(), &Stock, &fx, START, rect(0, 0, 4, 2), request)?)
}

#[test]
fn a_request_is_met_with_the_extent(rt: HostRuntime) -> Result<(), Fail> {
    let inside = answered(&rt, rect(1, 0, 3, 1))?;
    assert_eq!(rt; inside.result_rect, rect(1, 0, 3, 1));
    let over = answered(&rt, rect(-5, 1, 2, 9))?;
    assert_eq!(rt; over.result_rect, rect(0, 1, 2, 2));
    assert_eq!(rt; over.max_result_rect, rect(0, 0, 4, 2));
    assert!(rt; !over.extra);
    assert_eq!(rt; over.checkouts.len(), 1);
    for checkout in over.checkouts.iter() {
        assert_eq!(rt; checkout.id, 0);
        assert_eq!(rt; checkout.want.input, 0);
        assert_eq!(rt; checkout.want.tick, Tick(0));
        assert_eq!(rt; checkout.request, rect(0, 1, 2, 2));
    }
    let none = answered(&rt, rect(3, 1, 3, 2))?;
    assert!(rt; none.result_rect.is_empty() && !none.extra);
    assert_eq!(rt; none.checkouts.len(), 1);
    Ok(())
}

// The luma of opaque red is (77 * 255 + 128) / 256 = 77.
#[test]
fn a_tint_is_drawn_over_a_part_at_8_bit(rt: HostRuntime) -> Result<(), Fail> {
    let fx = steady(rt.alloc(), 4, &[0, 0, 0, 10000, 10000, 10000, 10000], &[])?;
    let red = match Pixel::<255>::new(255, 255, 0, 0) {
        Some(red) => red,
        None => return Err("a pixel")?,
    };
    let input = World::solid(rt.alloc(), rect(0, 0, 3, 1), red)?;
    let mut target = World::<255>::blank(rt.alloc(), rect(0, 0, 3, 1), rect(1, 0, 3, 1))?;
    drawn(rt.alloc(), &Stock, &fx, START, input, &mut target)?;
    let grey = target.at(2, 0);
    assert_eq!(rt; (grey.a(), grey.r(), grey.g(), grey.b()), (255, 77, 77, 77));
    assert_eq!(rt; target.at(1, 0), grey);
    assert_eq!(rt; target.at(0, 0).a(), 0);
    assert_eq!(rt; target.part(), rect(1, 0, 3, 1));
    Ok(())
}

#[test]
fn an_inversion_is_drawn_over_a_part_at_16_bit(rt: HostRuntime) -> Result<(), Fail> {
    let fx = steady(rt.alloc(), 0, &[0], &[])?;
    let pixel = match Pixel::<32768>::new(32768, 16384, 0, 1) {
        Some(pixel) => pixel,
        None => return Err("a pixel")?,
    };
    let input = World::solid(rt.alloc(), rect(0, 0, 2, 2), pixel)?;
    let mut target = World::<32768>::blank(rt.alloc(), rect(0, 0, 2, 2), rect(0, 1, 1, 2))?;
    drawn(rt.alloc(), &Stock, &fx, START, input, &mut target)?;
    let there = target.at(0, 1);
    assert_eq!(rt;
        (there.a(), there.r(), there.g(), there.b()),
        (32768, 16384, 32768, 32767)
    );
    assert_eq!(rt; target.at(0, 0).a() + target.at(1, 1).a(), 0);
    Ok(())
}
