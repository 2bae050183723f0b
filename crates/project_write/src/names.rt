//! The names of kinds, modes, mattes and effects, as a project writes them.

ghost use Rattle.std.specs.Prelude.{◌≡◌, ◌<◌, length, Some};
ghost use Rattle.transfer_mode.specs.Names.{mode_named};
ghost use Rattle.track_matte.specs.Names.{matte_named};
ghost use Rattle.project_model.specs.Effects.{AreSchemas};
ghost use Rattle.project_json.specs.Reads.{kind_named, fx_named};

use param_stream::Ease;
use project_model::EffectSchema;
use track_matte::Matte;
use transfer_mode::Mode;

/// The name that a kind of keyframe is read from.
pub(crate) fn kind_name(kind: Ease) -> &'static str
    ensures { kind_named result.now ≡ Some kind }
{
    match kind {
        Ease::Hold => "hold",
        Ease::Linear => "linear",
        Ease::Smooth => "ease",
    }
}

/// The name that a mode is read from.
pub(crate) fn mode_name(mode: Mode) -> &'static str
    ensures { mode_named result.now ≡ Some mode }
{
    match mode {
        Mode::Normal => "Normal",
        Mode::Multiply => "Multiply",
        Mode::Screen => "Screen",
        Mode::Darken => "Darken",
        Mode::Lighten => "Lighten",
        Mode::Difference => "Difference",
        Mode::Exclusion => "Exclusion",
        Mode::Add => "Add",
        Mode::Subtract => "Subtract",
        Mode::LinearBurn => "LinearBurn",
        Mode::HardLight => "HardLight",
        Mode::Overlay => "Overlay",
        Mode::LinearLight => "LinearLight",
        Mode::PinLight => "PinLight",
        Mode::HardMix => "HardMix",
        Mode::ColorDodge => "ColorDodge",
        Mode::ColorBurn => "ColorBurn",
        Mode::StencilAlpha => "StencilAlpha",
        Mode::SilhouetteAlpha => "SilhouetteAlpha",
        Mode::StencilLuma => "StencilLuma",
        Mode::SilhouetteLuma => "SilhouetteLuma",
    }
}

/// The name that a matte is read from.
pub(crate) fn matte_name(matte: Matte) -> &'static str
    ensures { matte_named result.now ≡ Some matte }
{
    match matte {
        Matte::None => "None",
        Matte::Alpha => "Alpha",
        Matte::AlphaInverted => "AlphaInverted",
        Matte::Luma => "Luma",
        Matte::LumaInverted => "LumaInverted",
    }
}

/// The name of an effect of the set, by its kind.
pub(crate) fn effect_name(schemas: &[EffectSchema], kind: u16) -> &str
    requires schemas { AreSchemas schemas.now }
    requires known { kind < length schemas.now }
    ensures { fx_named schemas.now result.now ≡ Some kind }
{
    schemas[usize::from(kind)].name.as_str()
}
