ghost use Rattle.std.specs.Prelude.{◌≡◌, ◌<◌, ◌∷◌, [], OnOk};
ghost use Rattle.argb_pixel.specs.Depth.{IsDepth};
ghost use Rattle.argb_world.specs.Picture.{SameExtentAndPart};
ghost use Rattle.comp_stack.specs.Layers.{plane_of};
ghost use Rattle.project_model.specs.Effects.{schema_of, use_of};
ghost use Rattle.effect_api.specs.Fits.{IsBased, FitsSchema};
ghost use Rattle.effect_api.specs.Effects.{Shows};
ghost use Rattle.fx_color.specs.Color.{color_draws, color_schemas, recoloured};

use crate::params::{invert_of, palette_of, scale_of, shift_of, threshold_of, tint_of};
use crate::rows::recolor_world;
use argb_world::World;
use effect_api::Moment;
use host_io::Memory;
use project_model::FxUse;
use std::alloc::Global;

/// Each point of the target's part becomes what a colour effect makes of a picture. The kind, from 0 to 5, is given apart
/// from the use, which has what the schema of that kind asks for: a set that is made of others numbers their kinds anew. It
/// takes memory for a row.
pub fn recolor_use<const MAX: u32>(
    alloc: Global,
    kind: u16,
    fx: &FxUse,
    at: Moment,
    from: &World<MAX>,
    target: &mut World<MAX>,
) -> Result<(), Memory>
    requires depth { IsDepth MAX }
    requires kind { kind < 6 }
    requires fits { FitsSchema (schema_of color_schemas kind) (use_of fx.now) }
    requires based { IsBased fx.now at }
    ensures frame { SameExtentAndPart target.old target.new }
    ensures drawn { OnOk result (Shows target.old.part (color_draws kind (use_of fx.now) at (plane_of from.now ∷ [])) target.new) }
{
    let _part = from.part();
    recolor_by_kind(alloc, kind, fx, at, from, target)
}

// The same, by what becomes of a pixel.
fn recolor_by_kind<const MAX: u32>(
    alloc: Global,
    kind: u16,
    fx: &FxUse,
    at: Moment,
    from: &World<MAX>,
    target: &mut World<MAX>,
) -> Result<(), Memory>
    requires depth { IsDepth MAX }
    requires kind { kind < 6 }
    requires fits { FitsSchema (schema_of color_schemas kind) (use_of fx.now) }
    requires based { IsBased fx.now at }
    ensures frame { SameExtentAndPart target.old target.new }
    ensures drawn { OnOk result (Shows target.old.part (λ x y. recoloured kind (use_of fx.now) at ((plane_of from.now).at x y)) target.new) }
{
    match kind {
        0 => recolor_world(alloc, &invert_of(fx, at), from, target),
        1 => recolor_world(alloc, &threshold_of(fx, at), from, target),
        2 => recolor_world(alloc, &shift_of(fx, at), from, target),
        3 => recolor_world(alloc, &scale_of(fx, at), from, target),
        4 => recolor_world(alloc, &tint_of(fx, at), from, target),
        5 => recolor_world(alloc, &palette_of(fx), from, target),
        _ => unreachable!(),
    }
}
