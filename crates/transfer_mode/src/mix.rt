//! The modes that mix both colours: what each makes of them where both cover.
ghost use Rattle.std.specs.Prelude.{◌≡◌, ℕ, ◌≤◌, ◌*◌};
ghost use Rattle.transfer_mode.specs.Both as both_of;

/// What a mode makes of two colours where both cover.
pub(crate) trait Mix {
    ghost both: { ℕ → ℕ → ℕ → ℕ → ℕ };

    /// Of the alphas `sa` and `da` of source and destination, each at most 32768, and of one colour of each, `s` and `d`.
    fn both(sa: u32, da: u32, s: u32, d: u32) -> u32
        requires source_alpha { sa ≤ 32768 }
        requires alpha { da ≤ 32768 }
        requires source { s ≤ sa }
        requires destination { d ≤ da }
        ensures value { result ≡ both sa da s d }
        ensures bound { result ≤ sa * da };
}

pub(crate) struct Multiply;

impl Mix for Multiply {
    ghost both = { both_of.multiply };

    #[inline(always)]
    fn both(sa: u32, da: u32, s: u32, d: u32) -> u32 {
        s * d
    }
}

pub(crate) struct Screen;

impl Mix for Screen {
    ghost both = { both_of.screen };

    #[inline(always)]
    fn both(sa: u32, da: u32, s: u32, d: u32) -> u32 {
        s * da + d * sa - s * d
    }
}

pub(crate) struct Darken;

impl Mix for Darken {
    ghost both = { both_of.darken };

    #[inline(always)]
    fn both(sa: u32, da: u32, s: u32, d: u32) -> u32 {
        (s * da).min(d * sa)
    }
}

pub(crate) struct Lighten;

impl Mix for Lighten {
    ghost both = { both_of.lighten };

    #[inline(always)]
    fn both(sa: u32, da: u32, s: u32, d: u32) -> u32 {
        (s * da).max(d * sa)
    }
}

pub(crate) struct Difference;

impl Mix for Difference {
    ghost both = { both_of.difference };

    #[inline(always)]
    fn both(sa: u32, da: u32, s: u32, d: u32) -> u32 {
        (s * da).abs_diff(d * sa)
    }
}

pub(crate) struct Exclusion;

impl Mix for Exclusion {
    ghost both = { both_of.exclusion };

    #[inline(always)]
    fn both(sa: u32, da: u32, s: u32, d: u32) -> u32 {
        s * da + d * sa - 2 * s * d
    }
}

pub(crate) struct Add;

impl Mix for Add {
    ghost both = { both_of.add };

    #[inline(always)]
    fn both(sa: u32, da: u32, s: u32, d: u32) -> u32 {
        (sa * da).min(s * da + d * sa)
    }
}

pub(crate) struct Subtract;

impl Mix for Subtract {
    ghost both = { both_of.subtract };

    #[inline(always)]
    fn both(sa: u32, da: u32, s: u32, d: u32) -> u32 {
        (d * sa).saturating_sub(s * da)
    }
}

pub(crate) struct LinearBurn;

impl Mix for LinearBurn {
    ghost both = { both_of.linear_burn };

    #[inline(always)]
    fn both(sa: u32, da: u32, s: u32, d: u32) -> u32 {
        (s * da + d * sa).saturating_sub(sa * da)
    }
}

pub(crate) struct HardLight;

impl Mix for HardLight {
    ghost both = { both_of.hard_light };

    #[inline(always)]
    fn both(sa: u32, da: u32, s: u32, d: u32) -> u32 {
        if 2 * s <= sa {
            2 * s * d
        } else {
            sa * da - 2 * (sa - s) * (da - d)
        }
    }
}

pub(crate) struct Overlay;

impl Mix for Overlay {
    ghost both = { both_of.overlay };

    #[inline(always)]
    fn both(sa: u32, da: u32, s: u32, d: u32) -> u32 {
        if 2 * d <= da {
            2 * s * d
        } else {
            sa * da - 2 * (sa - s) * (da - d)
        }
    }
}

pub(crate) struct LinearLight;

impl Mix for LinearLight {
    ghost both = { both_of.linear_light };

    #[inline(always)]
    fn both(sa: u32, da: u32, s: u32, d: u32) -> u32 {
        (sa * da).min((d * sa + 2 * s * da).saturating_sub(sa * da))
    }
}

pub(crate) struct PinLight;

impl Mix for PinLight {
    ghost both = { both_of.pin_light };

    #[inline(always)]
    fn both(sa: u32, da: u32, s: u32, d: u32) -> u32 {
        if 2 * s <= sa {
            (d * sa).min(2 * s * da)
        } else {
            (d * sa).max((2 * s * da).saturating_sub(sa * da))
        }
    }
}

pub(crate) struct HardMix;

impl Mix for HardMix {
    ghost both = { both_of.hard_mix };

    #[inline(always)]
    fn both(sa: u32, da: u32, s: u32, d: u32) -> u32 {
        if s * da + d * sa >= sa * da {
            sa * da
        } else {
            0
        }
    }
}

pub(crate) struct ColorDodge;

impl Mix for ColorDodge {
    ghost both = { both_of.color_dodge };

    #[inline(always)]
    fn both(sa: u32, da: u32, s: u32, d: u32) -> u32 {
        if s == sa {
            return if d == 0 { 0 } else { sa * da };
        }
        let divided = d as u64 * (sa * sa) as u64 / (sa - s) as u64;
        divided.min((sa * da) as u64) as u32
    }
}

pub(crate) struct ColorBurn;

impl Mix for ColorBurn {
    ghost both = { both_of.color_burn };

    #[inline(always)]
    fn both(sa: u32, da: u32, s: u32, d: u32) -> u32 {
        if s == 0 {
            return if d == da { sa * da } else { 0 };
        }
        let divided = (da - d) as u64 * (sa * sa) as u64 / s as u64;
        sa * da - divided.min((sa * da) as u64) as u32
    }
}
