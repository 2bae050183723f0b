ghost use Rattle.std.specs.Prelude.{◌≡◌, ◌≤◌};
ghost use Rattle.argb_pixel.specs.Pixel.{IsPremultiplied};
ghost use Rattle.argb_pixel.specs.Depth.{IsDepth};
ghost use Rattle.fx_color.specs.Formulas.{inverted, inverted_part, at_threshold, threshold_part, shifted, channel_of};

use crate::recolor::Recolor;
use argb_pixel::Pixel;

/// Each colour, or only that of a channel, becomes what is left of alpha.
#[derive(Clone, Copy)]
pub struct Invert {
    pub channel: u32,
}

// A colour with its number.
fn invert_part(channel: u32, number: u32, a: u32, c: u32) -> u32
    requires { c ≤ a }
    ensures value { result ≡ inverted_part channel a number c }
    ensures within { result ≤ a }
{
    if channel == 0 {
        a - c
    } else if channel == number {
        a - c
    } else {
        c
    }
}

impl<const MAX: u32> Recolor<MAX> for Invert {
    ghost recolored = { λ invert. inverted invert.channel };

    fn recolor(&self, pixel: Pixel<MAX>) -> Pixel<MAX>
        requires { IsDepth MAX }
        ensures { result ≡ inverted self.now.channel pixel.entry }
    {
        let a = pixel.a();
        Pixel::of_channels(
            a,
            invert_part(self.channel, 1, a, pixel.r()),
            invert_part(self.channel, 2, a, pixel.g()),
            invert_part(self.channel, 3, a, pixel.b()),
        )
    }
}

/// All or nothing of alpha, by how bright the pixel is. `level` is in 1/10000 of alpha.
#[derive(Clone, Copy)]
pub struct Threshold {
    pub level: u32,
    pub ghost in_range: { level ≤ 10000 },
}

// Each colour.
fn threshold_part(level: u32, a: u32, luma: u32) -> u32
    requires level { level ≤ 10000 }
    requires alpha { a ≤ 32768 }
    requires luma { luma ≤ a }
    ensures value { result ≡ threshold_part level a luma }
    ensures within { result ≤ a }
{
    if luma * 10000 >= level * a { a } else { 0 }
}

impl<const MAX: u32> Recolor<MAX> for Threshold {
    ghost recolored = { λ threshold. at_threshold threshold.level };

    fn recolor(&self, pixel: Pixel<MAX>) -> Pixel<MAX>
        requires { IsDepth MAX }
        ensures { result ≡ at_threshold self.now.level pixel.entry }
    {
        let a = pixel.a();
        let part = threshold_part(self.level, a, pixel.luma());
        Pixel::of_channels(a, part, part, part)
    }
}

/// Each colour from the channel with its number: red, green, blue, alpha, or nothing.
#[derive(Clone, Copy)]
pub struct ChannelShift {
    pub red: u32,
    pub green: u32,
    pub blue: u32,
}

// The channel with a number.
fn channel<const MAX: u32>(pixel: Pixel<MAX>, number: u32) -> u32
    ensures value { result ≡ channel_of pixel.entry number }
    ensures within { result ≤ pixel.entry.a }
{
    if number == 0 {
        pixel.r()
    } else if number == 1 {
        pixel.g()
    } else if number == 2 {
        pixel.b()
    } else if number == 3 {
        pixel.a()
    } else {
        0
    }
}

impl<const MAX: u32> Recolor<MAX> for ChannelShift {
    ghost recolored = { λ shift. shifted shift.red shift.green shift.blue };

    fn recolor(&self, pixel: Pixel<MAX>) -> Pixel<MAX>
        requires { IsDepth MAX }
        ensures { result ≡ shifted self.now.red self.now.green self.now.blue pixel.entry }
    {
        Pixel::of_channels(
            pixel.a(),
            channel(pixel, self.red),
            channel(pixel, self.green),
            channel(pixel, self.blue),
        )
    }
}
