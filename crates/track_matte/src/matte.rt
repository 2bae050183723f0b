ghost use Rattle.std.specs.Prelude.{◌≡◌, ◌≤◌, length};
ghost use lib.Lanes.{zip2};
ghost use Rattle.argb_pixel.specs.Depth.{IsDepth};
ghost use Rattle.argb_pixel.specs.Packed.{pixels_of, IsPacked};
ghost use Rattle.track_matte.specs.Mattes.{value_of, matted};
ghost use Rattle.track_matte.specs.Names.{matte_named};
ghost use Rattle.track_matte.specs.declared.matte.Matte.TheVariants.{Alpha, AlphaInverted, Luma, LumaInverted};

use argb_pixel::{Combine, Pixel, combine_row};
use transfer_mode::{Mode, blend_packed};

/// What is taken from a layer's matte. The kinds are those of the After Effects C++ SDK Guide; what each lets
/// through is this project's own.
#[derive(Clone, Copy, Debug, PartialEq, Eq, Drop)]
pub enum Matte {
    /// There is no matte: all of the layer.
    None,
    /// As much as the matte's alpha.
    Alpha,
    /// As much as the matte's alpha leaves.
    AlphaInverted,
    /// As much as the matte is bright.
    Luma,
    /// As much as the matte's brightness leaves.
    LumaInverted,
}

/// The kind of a name, as a project writes it.
pub fn matte_of_name(name: &str) -> Option<Matte>
    ensures { result ≡ matte_named name.now }
{
    match name {
        "None" => Some(Matte::None),
        "Alpha" => Some(Matte::Alpha),
        "AlphaInverted" => Some(Matte::AlphaInverted),
        "Luma" => Some(Matte::Luma),
        "LumaInverted" => Some(Matte::LumaInverted),
        _ => None,
    }
}

/// How much of the layer the matte's pixel lets through, of `MAX`.
pub fn matte_value<const MAX: u32>(kind: Matte, q: Pixel<MAX>) -> u32
    requires { IsDepth MAX }
    ensures value { result ≡ value_of MAX kind q.entry }
    ensures within { result ≤ MAX }
{
    match kind {
        Matte::None => MAX,
        Matte::Alpha => q.a(),
        Matte::AlphaInverted => MAX - q.a(),
        Matte::Luma => q.luma(),
        Matte::LumaInverted => MAX - q.luma(),
    }
}

/// Each pixel of the layer's row `p` under its pixel of the matte's row `q`. The rows are equally long.
pub fn apply_row<const MAX: u32>(kind: Matte, q: &[Pixel<MAX>], p: &mut [Pixel<MAX>])
    requires depth { IsDepth MAX }
    requires long { length q.now ≡ length p.old }
    ensures { p.new ≡ zip2 (matted MAX kind) q.now p.old }
{
    match kind {
        Matte::None => {}
        Matte::Alpha => combine_row::<ByAlpha, MAX>(q, p),
        Matte::AlphaInverted => combine_row::<ByAlphaLeft, MAX>(q, p),
        Matte::Luma => combine_row::<ByLuma, MAX>(q, p),
        Matte::LumaInverted => combine_row::<ByLumaLeft, MAX>(q, p),
    }
}

/// Each pixel of the layer's packed row `p` under its pixel of the matte's packed row `q`. The rows are equally long, and
/// whole pixels, all premultiplied. The matte is blended over the layer, in the mode that keeps of it what the matte lets
/// through.
pub fn apply_packed<const MAX: u32>(kind: Matte, q: &[u8], p: &mut [u8])
    requires depth { IsDepth MAX }
    requires long { length q.now ≡ length p.old }
    requires matte { IsPacked MAX q.now }
    requires layer { IsPacked MAX p.old }
    ensures long { length p.new ≡ length p.old }
    ensures packed { IsPacked MAX p.new }
    ensures value { pixels_of MAX p.new ≡ zip2 (matted MAX kind) (pixels_of MAX q.now) (pixels_of MAX p.old) }
{
    match kind {
        Matte::None => {}
        Matte::Alpha => blend_packed::<MAX>(Mode::StencilAlpha, q, p),
        Matte::AlphaInverted => blend_packed::<MAX>(Mode::SilhouetteAlpha, q, p),
        Matte::Luma => blend_packed::<MAX>(Mode::StencilLuma, q, p),
        Matte::LumaInverted => blend_packed::<MAX>(Mode::SilhouetteLuma, q, p),
    }
}

// By the matte's alpha.
struct ByAlpha;

impl<const MAX: u32> Combine<MAX> for ByAlpha {
    ghost combined = { matted MAX Alpha };

    fn combine(q: Pixel<MAX>, p: Pixel<MAX>) -> Pixel<MAX>
        requires { IsDepth MAX }
        ensures { result ≡ matted MAX Alpha q.entry p.entry }
    {
        p.mul(q.a())
    }
}

// By what the matte's alpha leaves.
struct ByAlphaLeft;

impl<const MAX: u32> Combine<MAX> for ByAlphaLeft {
    ghost combined = { matted MAX AlphaInverted };

    fn combine(q: Pixel<MAX>, p: Pixel<MAX>) -> Pixel<MAX>
        requires { IsDepth MAX }
        ensures { result ≡ matted MAX AlphaInverted q.entry p.entry }
    {
        p.mul(MAX - q.a())
    }
}

// By the matte's brightness.
struct ByLuma;

impl<const MAX: u32> Combine<MAX> for ByLuma {
    ghost combined = { matted MAX Luma };

    fn combine(q: Pixel<MAX>, p: Pixel<MAX>) -> Pixel<MAX>
        requires { IsDepth MAX }
        ensures { result ≡ matted MAX Luma q.entry p.entry }
    {
        p.mul(q.luma())
    }
}

// By what the matte's brightness leaves.
struct ByLumaLeft;

impl<const MAX: u32> Combine<MAX> for ByLumaLeft {
    ghost combined = { matted MAX LumaInverted };

    fn combine(q: Pixel<MAX>, p: Pixel<MAX>) -> Pixel<MAX>
        requires { IsDepth MAX }
        ensures { result ≡ matted MAX LumaInverted q.entry p.entry }
    {
        p.mul(MAX - q.luma())
    }
}
