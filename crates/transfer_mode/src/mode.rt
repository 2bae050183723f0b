ghost use Rattle.std.specs.Prelude.{◌≡◌};
ghost use Rattle.transfer_mode.specs.Names.{mode_named};

/// How a source lies over a destination. The names are those of a project; they and what each computes are this
/// project's own.
#[derive(Clone, Copy, Debug, PartialEq, Eq, Drop)]
pub enum Mode {
    /// The source is seen.
    Normal,
    /// The product of both colours.
    Multiply,
    /// The product of what both colours leave to white.
    Screen,
    /// The darker colour.
    Darken,
    /// The lighter colour.
    Lighten,
    /// How far the colours are apart.
    Difference,
    /// Both colours, less twice their product.
    Exclusion,
    /// The sum of both colours, at most white.
    Add,
    /// The destination less the source, at least black.
    Subtract,
    /// The sum of both colours less white, at least black.
    LinearBurn,
    /// A product where the source is dark, a screen where it is light.
    HardLight,
    /// A product where the destination is dark, a screen where it is light.
    Overlay,
    /// The destination, moved by twice the source less white.
    LinearLight,
    /// The darker colour where the source is dark, the lighter one where it is light, at twice its strength.
    PinLight,
    /// White where both colours together reach white, else black.
    HardMix,
    /// The destination divided by what the source leaves to white.
    ColorDodge,
    /// What the destination leaves to white, divided by the source, taken from white.
    ColorBurn,
    /// The destination, as much of it as the source's alpha.
    StencilAlpha,
    /// The destination, as much of it as the source's alpha leaves.
    SilhouetteAlpha,
    /// The destination, as much of it as the source is bright.
    StencilLuma,
    /// The destination, as much of it as the source's brightness leaves.
    SilhouetteLuma,
}

/// The mode of a name, as a project writes it.
pub fn mode_of_name(name: &str) -> Option<Mode>
    ensures { result ≡ mode_named name.now }
{
    match name {
        "Normal" => Some(Mode::Normal),
        "Multiply" => Some(Mode::Multiply),
        "Screen" => Some(Mode::Screen),
        "Darken" => Some(Mode::Darken),
        "Lighten" => Some(Mode::Lighten),
        "Difference" => Some(Mode::Difference),
        "Exclusion" => Some(Mode::Exclusion),
        "Add" => Some(Mode::Add),
        "Subtract" => Some(Mode::Subtract),
        "LinearBurn" => Some(Mode::LinearBurn),
        "HardLight" => Some(Mode::HardLight),
        "Overlay" => Some(Mode::Overlay),
        "LinearLight" => Some(Mode::LinearLight),
        "PinLight" => Some(Mode::PinLight),
        "HardMix" => Some(Mode::HardMix),
        "ColorDodge" => Some(Mode::ColorDodge),
        "ColorBurn" => Some(Mode::ColorBurn),
        "StencilAlpha" => Some(Mode::StencilAlpha),
        "SilhouetteAlpha" => Some(Mode::SilhouetteAlpha),
        "StencilLuma" => Some(Mode::StencilLuma),
        "SilhouetteLuma" => Some(Mode::SilhouetteLuma),
        _ => None,
    }
}
