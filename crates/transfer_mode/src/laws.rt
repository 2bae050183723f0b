//! Laws of the modes, each as the contract of a function that does nothing.
ghost use Rattle.transfer_mode.specs.Laws.{
  MixIsBounded,
  BlendIsPremultiplied,
  TransparentSourceLeaves,
  TransparentStencilClears,
  OverNothingIsSource,
  OpaqueNormalHides,
  SymmetricModesExchange,
  OverlayIsHardLightExchanged,
  WorkedBlends,
};

/// What a mode makes of two colours is at most the product of the alphas.
pub fn mix_is_bounded()
    ensures { MixIsBounded }
{}

/// A premultiplied source over a premultiplied destination is premultiplied.
pub fn blend_is_premultiplied()
    ensures { BlendIsPremultiplied }
{}

/// A transparent source leaves the destination, in each mode but StencilAlpha and StencilLuma.
pub fn transparent_source_leaves()
    ensures { TransparentSourceLeaves }
{}

/// In StencilAlpha and StencilLuma a transparent source leaves nothing.
pub fn transparent_stencil_clears()
    ensures { TransparentStencilClears }
{}

/// Over nothing, each mode that mixes both colours shows the source.
pub fn over_nothing_is_source()
    ensures { OverNothingIsSource }
{}

/// In Normal mode an opaque source hides the destination.
pub fn opaque_normal_hides()
    ensures { OpaqueNormalHides }
{}

/// Multiply, Screen, Darken, Lighten, Difference, Exclusion, Add, LinearBurn and HardMix do not tell source and
/// destination apart.
pub fn symmetric_modes_exchange()
    ensures { SymmetricModesExchange }
{}

/// Overlay is HardLight with source and destination exchanged.
pub fn overlay_is_hard_light_exchanged()
    ensures { OverlayIsHardLightExchanged }
{}

/// Examples that were worked by hand, computed by the definitions.
pub fn worked_blends()
    ensures { WorkedBlends }
{}
