//! Packed pixels: the bytes of a pixel, and the pixel of its bytes.
ghost use Rattle.std.specs.Prelude.{◌≡◌, ◌*◌, [], ◌∷◌, ◌++◌, length};
ghost use Rattle.argb_pixel.specs.Depth.{IsDepth};
ghost use Rattle.argb_pixel.specs.Pixel.{Argb, IsPremultiplied};
ghost use Rattle.argb_pixel.specs.Packed.{pixel_size, packed_channel, packed, pixels_of, pixels_of_8, pixels_of_16, channel_of, IsPacked};

use crate::Pixel;

/// How many bytes a packed pixel has: 4 at 8 bit and 8 at 16.
#[inline(always)]
pub fn pixel_size<const MAX: u32>() -> usize
    ensures { result ≡ pixel_size MAX }
{
    if MAX == 255 { 4 } else { 8 }
}

/// Writes the bytes of a pixel: alpha, red, green and blue, one byte each where `MAX` is 255, and two each, the greater
/// part first, where it is 32768. `into` is room for just as many.
#[inline(always)]
pub fn pack_pixel<const MAX: u32>(pixel: Pixel<MAX>, into: &mut [u8])
    requires depth { IsDepth MAX }
    requires long { length into.old ≡ pixel_size MAX }
    ensures { into.new ≡ packed MAX pixel.entry }
{
    if MAX == 255 {
        pack_8(pixel, into);
    } else {
        pack_16(pixel, into);
    }
}

// One byte a channel.
#[inline(always)]
fn pack_8<const MAX: u32>(pixel: Pixel<MAX>, into: &mut [u8])
    requires depth { MAX ≡ 255 }
    requires long { length into.old ≡ 4 }
    ensures { into.new ≡ packed 255 pixel.entry }
{
    into[0] = pixel.a() as u8;
    into[1] = pixel.r() as u8;
    into[2] = pixel.g() as u8;
    into[3] = pixel.b() as u8;
}

// Two bytes a channel.
#[inline(always)]
fn pack_16<const MAX: u32>(pixel: Pixel<MAX>, into: &mut [u8])
    requires depth { MAX ≡ 32768 }
    requires long { length into.old ≡ 8 }
    ensures { into.new ≡ packed 32768 pixel.entry }
{
    let [a_high, a_low] = (pixel.a() as u16).to_be_bytes();
    let [r_high, r_low] = (pixel.r() as u16).to_be_bytes();
    let [g_high, g_low] = (pixel.g() as u16).to_be_bytes();
    let [b_high, b_low] = (pixel.b() as u16).to_be_bytes();
    into.copy_from_slice(&[a_high, a_low, r_high, r_low, g_high, g_low, b_high, b_low]);
}

/// The pixel of so many bytes as a pixel has, where it is premultiplied.
#[inline(always)]
pub fn unpack_pixel<const MAX: u32>(bytes: &[u8]) -> Pixel<MAX>
    requires depth { IsDepth MAX }
    requires one { length bytes.now ≡ pixel_size MAX }
    requires packed { IsPacked MAX bytes.now }
    ensures { pixels_of MAX bytes.now ≡ result ∷ [] }
{
    if MAX == 255 {
        unpack_8(bytes)
    } else {
        unpack_16(bytes)
    }
}

// The pixel of 4 bytes.
#[inline(always)]
fn unpack_8<const MAX: u32>(bytes: &[u8]) -> Pixel<MAX>
    requires depth { MAX ≡ 255 }
    requires one { length bytes.now ≡ 4 }
    requires packed { IsPacked 255 bytes.now }
    ensures { pixels_of_8 bytes.now ≡ result ∷ [] }
{
    Pixel::of_channels(
        bytes[0] as u32,
        bytes[1] as u32,
        bytes[2] as u32,
        bytes[3] as u32,
    )
}

// A channel of two bytes.
#[inline(always)]
fn channel(high: u8, low: u8) -> u32
    ensures { result ≡ channel_of high low }
{
    256 * high as u32 + low as u32
}

// The pixel of 8 bytes.
#[inline(always)]
fn unpack_16<const MAX: u32>(bytes: &[u8]) -> Pixel<MAX>
    requires depth { MAX ≡ 32768 }
    requires one { length bytes.now ≡ 8 }
    requires packed { IsPacked 32768 bytes.now }
    ensures { pixels_of_16 bytes.now ≡ result ∷ [] }
{
    Pixel::of_channels(
        channel(bytes[0], bytes[1]),
        channel(bytes[2], bytes[3]),
        channel(bytes[4], bytes[5]),
        channel(bytes[6], bytes[7]),
    )
}

/// Writes the bytes of a row of pixels. `into` is room for just as many.
pub fn pack_row<const MAX: u32>(row: &[Pixel<MAX>], into: &mut [u8])
    requires depth { IsDepth MAX }
    requires long { length into.old ≡ length row.now * pixel_size MAX }
    ensures packed { IsPacked MAX into.new }
    ensures value { pixels_of MAX into.new ≡ row.now }
{
    let mut at = 0;
    for pixel in row.iter() {
        let _alpha = pixel.a();
        pack_pixel(*pixel, &mut into[at..at + pixel_size::<MAX>()]);
        at += pixel_size::<MAX>();
    }
}

/// Reads the pixels of a packed row, all of them premultiplied. `into` is room for just as many.
pub fn unpack_row<const MAX: u32>(bytes: &[u8], into: &mut [Pixel<MAX>])
    requires depth { IsDepth MAX }
    requires long { length bytes.now ≡ length into.old * pixel_size MAX }
    requires packed { IsPacked MAX bytes.now }
    ensures { into.new ≡ pixels_of MAX bytes.now }
{
    let mut at = 0;
    for pixel in into.iter_mut() {
        *pixel = unpack_pixel(&bytes[at..at + pixel_size::<MAX>()]);
        at += pixel_size::<MAX>();
    }
}
