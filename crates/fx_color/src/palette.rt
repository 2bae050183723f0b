ghost use Rattle.std.specs.Prelude.{◌≡◌, ◌≤◌, ◌<◌, ◌*◌, ◌+◌, ◌/◌, length};
ghost use Rattle.argb_pixel.specs.Depth.{IsDepth};
ghost use Rattle.fx_color.specs.Formulas.{mapped, mapped_part, entry_of};

use crate::recolor::Recolor;
use argb_pixel::Pixel;

/// Each pixel by the entry of a palette for how bright it is. The bytes are red, green and blue of 1 to 256 entries.
#[derive(Clone, Copy)]
pub struct PaletteMap<'a> {
    pub bytes: &'a [u8],
    pub ghost some: { 3 ≤ length bytes.now },
    pub ghost few: { length bytes.now ≤ 768 },
}

// The number of the entry of `count` that is for a pixel.
fn entry<const MAX: u32>(count: u32, pixel: Pixel<MAX>) -> u32
    requires depth { IsDepth MAX }
    requires some { 1 ≤ count }
    requires few { count ≤ 256 }
    ensures value { result ≡ entry_of count pixel.entry }
    ensures within { result < count }
{
    let a = pixel.a();
    if a == 0 {
        0
    } else {
        pixel.luma() * (count - 1) / a
    }
}

// A colour of the entry, with the number of the colour.
fn palette_part(bytes: &[u8], place: usize, a: u32) -> u32
    requires place { place < length bytes.now }
    requires alpha { a ≤ 32768 }
    ensures value { result ≡ mapped_part bytes.now place a }
    ensures within { result ≤ a }
{
    (a * bytes[place] as u32 + 127) / 255
}

impl<'a, const MAX: u32> Recolor<MAX> for PaletteMap<'a> {
    ghost recolored = { λ palette. mapped palette.bytes.now };

    fn recolor(&self, pixel: Pixel<MAX>) -> Pixel<MAX>
        requires { IsDepth MAX }
        ensures { result ≡ mapped self.now.bytes.now pixel.entry }
    {
        let a = pixel.a();
        let place = 3 * entry((self.bytes.len() / 3) as u32, pixel) as usize;
        Pixel::of_channels(
            a,
            palette_part(self.bytes, place, a),
            palette_part(self.bytes, place + 1, a),
            palette_part(self.bytes, place + 2, a),
        )
    }
}
