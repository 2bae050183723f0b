//! What an effect checks out.
ghost use Rattle.std.specs.Prelude.{None};

use argb_pixel::{Pixel, Transparent};
use argb_world::World;
use compute_cache::Keeps;
use effect_api::{Checkouts, Pixels, Value};
use geom_rect::Rect;
use std::test::Fail;

// A job with no values.
struct Nothing;

impl Keeps for Nothing {
    type Value = Value<255>;

    ghost meaning = { λ _ _ _. None };

    ghost size_of = { λ _. 0 };

    fn size(_value: &Value<255>) -> u32 {
        0
    }

    ghost use Rattle.std.proofs.Common.{rules};

    ghost sizes_fit = { λ _ _ _ _ _. Prim.search rules };
}

const POINT: Rect = Rect {
    left: 0,
    top: 0,
    right: 1,
    bottom: 1,
};

#[test]
fn worlds_are_found_by_their_ids(rt: HostRuntime) -> Result<(), Fail> {
    let first = World::<255>::blank(rt.alloc(), POINT, POINT)?;
    let mut checkouts = Checkouts::<255, Nothing>::with_room(rt.alloc(), 1)?;
    checkouts.put(7, Pixels::Drawn(first));
    let found = match checkouts.checkout_layer_pixels(7) {
        Some(world) => world.at(0, 0) == Pixel::CLEAR,
        None => false,
    };
    let other = checkouts.checkout_layer_pixels(6).is_some();
    let taken = match checkouts.take() {
        Some((id, Pixels::Drawn(_))) => id == 7,
        Some((_, Pixels::Shared(_receipt))) => unreachable!(),
        None => false,
    };
    checkouts.end();
    assert!(rt; found && !other && taken);
    Ok(())
}
