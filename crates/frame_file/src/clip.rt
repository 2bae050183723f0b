//! Clips: pictures that were read from the bytes of a file.
ghost use Rattle.std.specs.Prelude.{◌≡◌, ℕ, ◌+◌, ◌*◌, ◌<◌, ◌≤◌, length, take, drop, get_or, slice_index_or, None, Ok, Err, IfOk, IfErr, IsErrOf, MatchResult};
ghost use Rattle.std.specs.List.{All};
ghost use Rattle.argb_pixel.specs.Depth.{IsDepth};
ghost use Rattle.argb_pixel.specs.Pixel.{IsPremultiplied, clear};
ghost use Rattle.argb_pixel.specs.Packed.{pixel_size, pixels_of as packed_pixels, IsPacked};
ghost use Rattle.project_model.specs.Bounds.{most_of, greatest_side, most_frames, header_length};
ghost use Rattle.project_model.specs.Clip.{IsReadable, clip_length};
ghost use Rattle.frame_file.specs.Clip.{pictures_of, pixels_of, pixels_of_8, pixels_of_16, first_bad, clip_of, judged, pixel_in, in_depth, head_of_8, head_of_16, IsKept};

use crate::ClipError;
use crate::judge::{HEADER_LENGTH, channel_of, judge};
use argb_pixel::{Pixel, pixel_size};
use project_model::ClipUse;
use std::alloc::Global;
use std::marker::Model;

/// The pictures of a clip, premultiplied, in the depth of their file. They are kept as the bytes of the file, which take the
/// least memory.
#[derive(Drop)]
pub struct Clip {
    width: u32,
    height: u32,
    depth: u8,
    frames: u32,
    bytes: Vec<u8>,
}

impl Model for Clip {
    ghost use Rattle.std.specs.Prelude.{drop};
    ghost use Rattle.project_model.specs.Bounds.{header_length};
    ghost use Rattle.frame_file.specs.Clip.{Pictures, IsKept, pixels_of};

    ghost Value = { Pictures };

    ghost view = { λ c. record {
      width = c.width;
      height = c.height;
      depth = c.depth;
      frames = c.frames;
      pixels = pixels_of c.depth (drop header_length c.bytes.items);
    } };

    ghost invariant = { λ c. IsKept record {
      width = c.width;
      height = c.height;
      depth = c.depth;
      frames = c.frames;
      pixels = pixels_of c.depth (drop header_length c.bytes.items);
    } c.bytes.items };
}

/// Reads the pictures of a clip from all bytes of its file. They are refused by the first that holds:
///
/// - `Short` with `want` 29: there are fewer than 29 bytes;
/// - `BadMagic`: the first four are not `AFR1`;
/// - `BadHeader`: a field is not the declaration's, where the first frame may be any;
/// - `Short`: there are fewer bytes than are declared, which are 29 and those of the pixels;
/// - `Trailing`: there are more;
/// - `BadPixel`: a pixel is not premultiplied.
///
/// The numbers of the declaration are those that a project may have.
pub fn read_clip(alloc: Global, bytes: &[u8], declared: &ClipUse) -> Result<Clip, ClipError>
    requires { IsReadable declared.now }
    ensures read { IfOk result (λ clip. clip_of bytes.now declared.now ≡ Ok clip) }
    ensures declared { IfOk result (λ clip. clip ≡ pictures_of declared.now clip.pixels) }
    ensures refused { (why : ClipError) → result ≡ Err why → (why ≡ ClipError.Memory → ⊥) → clip_of bytes.now declared.now ≡ Err why }
{
    judge(declared, bytes, bytes.len() as u64)?;
    match bytes.to_vec(alloc) {
        Ok(kept) => Ok(Clip::of_judged(declared, kept)),
        Err(_) => Err(ClipError::Memory),
    }
}

impl Clip {
    // The clip of bytes that were judged.
    pub(crate) fn of_judged(declared: &ClipUse, bytes: Vec<u8>) -> Clip
        requires readable { IsReadable declared.now }
        requires long { length bytes.items ≡ clip_length declared.now }
        requires sound { first_bad (most_of declared.now.depth) (pixels_of declared.now.depth (drop header_length bytes.items)) ≡ None }
        ensures { result ≡ pictures_of declared.now (pixels_of declared.now.depth (drop header_length bytes.items)) }
    {
        Clip {
            width: declared.width,
            height: declared.height,
            depth: declared.depth,
            frames: declared.frames,
            bytes,
        }
    }

    /// The pixel of a picture at a point, counted from its left top, in the depth `MAX`. The point is in the picture, and
    /// the clip has the picture, counted from 0.
    pub fn pixel<const MAX: u32>(&self, picture: u32, x: u32, y: u32) -> Pixel<MAX>
        requires depth { IsDepth MAX }
        requires picture { picture < self.now.frames }
        requires column { x < self.now.width }
        requires row { y < self.now.height }
        ensures { result ≡ pixel_in MAX self.now picture x y }
    {
        let place = place_in(self.width, self.height, picture, x, y);
        let pixels = &self.bytes[HEADER_LENGTH..];
        if self.depth == 8 {
            in_depth(pixel_of_8(&pixels[place * 4..]))
        } else {
            in_depth(pixel_of_16(&pixels[place * 8..]))
        }
    }

    /// The width of the pictures, in pixels.
    pub fn width(&self) -> u32
        ensures { result ≡ self.now.width }
    {
        self.width
    }

    /// Their height, in pixels.
    pub fn height(&self) -> u32
        ensures { result ≡ self.now.height }
    {
        self.height
    }

    /// How many pictures there are.
    pub fn frames(&self) -> u32
        ensures { result ≡ self.now.frames }
    {
        self.frames
    }

    /// The bits of a channel in its file, 8 or 16. Each pixel is premultiplied in that depth.
    pub fn depth(&self) -> u8
        ensures depth { result ≡ self.now.depth }
        ensures pixels { All (IsPremultiplied (most_of self.now.depth)) self.now.pixels }
    {
        self.depth
    }

    /// The pixels of a picture at the height `y` from its top, from the left, in the depth `MAX`, over as many pixels as the
    /// clip is wide. The clip has the picture, counted from 0, and the height.
    pub fn read_row<const MAX: u32>(&self, picture: u32, y: u32, into: &mut [Pixel<MAX>])
        requires depth { IsDepth MAX }
        requires picture { picture < self.now.frames }
        requires row { y < self.now.height }
        requires width { length into.old ≡ self.now.width }
        ensures { (x : ℕ) → x < self.now.width → slice_index_or into.new x clear ≡ pixel_in MAX self.now picture x y }
    {
        self.read_span(picture, 0, y, into);
    }

    /// The pixels of a row of points of a picture, from `(x, y)` to the right, counted from its left top, in the depth `MAX`, as
    /// many as `into` has room for. All points are in the picture, and the clip has the picture, counted from 0.
    pub fn read_span<const MAX: u32>(&self, picture: u32, x: u32, y: u32, into: &mut [Pixel<MAX>])
        requires depth { IsDepth MAX }
        requires picture { picture < self.now.frames }
        requires row { y < self.now.height }
        requires columns { x + length into.old ≤ self.now.width }
        ensures { (k : ℕ) → k < length into.old → slice_index_or into.new k clear ≡ pixel_in MAX self.now picture (x + k) y }
    {
        let start = place_in(self.width, self.height, picture, x, y);
        let pixels = &self.bytes[HEADER_LENGTH..];
        if self.depth == 8 {
            read_8(pixels, start, into);
        } else {
            read_16(pixels, start, into);
        }
    }

    /// The bytes of so many pixels of a picture, from the point `(x, y)` to the right, counted from its left top, as they stand in
    /// the file: alpha, red, green and blue, one byte each where `MAX` is 255 and two, the greater part first, where it is 32768.
    /// The clip is of the depth `MAX` and has the picture, counted from 0, and all points are in it.
    pub fn packed_span<const MAX: u32>(&self, picture: u32, x: u32, y: u32, count: usize) -> &[u8]
        requires depth { most_of self.now.depth ≡ MAX }
        requires picture { picture < self.now.frames }
        requires row { y < self.now.height }
        requires columns { x + count ≤ self.now.width }
        ensures long { length result.now ≡ pixel_size MAX * count }
        ensures packed { IsPacked MAX result.now }
        ensures pixels { (k : ℕ) → k < count → slice_index_or (packed_pixels MAX result.now) k clear ≡ pixel_in MAX self.now picture (x + k) y }
    {
        let start = place_in(self.width, self.height, picture, x, y);
        packed_part::<MAX>(&self.bytes[HEADER_LENGTH..], start, count)
    }
}

// The bytes of so many pixels from a place on.
fn packed_part<const MAX: u32>(pixels: &[u8], start: usize, count: usize) -> &[u8]
    requires depth { IsDepth MAX }
    requires there { pixel_size MAX * (start + count) ≤ length pixels.now }
    requires packed { IsPacked MAX pixels.now }
    ensures long { length result.now ≡ pixel_size MAX * count }
    ensures packed { IsPacked MAX result.now }
    ensures pixels { packed_pixels MAX result.now ≡ take count (drop start (packed_pixels MAX pixels.now)) }
{
    let size = pixel_size::<MAX>();
    &pixels[size * start..size * (start + count)]
}

// A pixel's place among all pixels: the end of a row has one too.
fn place_in(width: u32, height: u32, picture: u32, x: u32, y: u32) -> usize
    requires width { width ≤ greatest_side }
    requires height { height ≤ greatest_side }
    requires picture { picture < most_frames }
    requires column { x ≤ width }
    requires row { y < height }
    ensures { result ≡ (picture * height + y) * width + x }
{
    (picture as usize * height as usize + y as usize) * width as usize + x as usize
}

// The pixels from a place on, of one byte a channel.
fn read_8<const MAX: u32>(pixels: &[u8], start: usize, into: &mut [Pixel<MAX>])
    requires depth { IsDepth MAX }
    requires long { (start + length into.old) * 4 ≤ length pixels.now }
    requires sound { first_bad 255 (pixels_of_8 pixels.now) ≡ None }
    ensures { (x : ℕ) → x < length into.old → slice_index_or into.new x clear ≡ in_depth 255 MAX (get_or (pixels_of_8 pixels.now) (start + x) clear) }
{
    for x in 0..into.len() {
        into[x] = in_depth(pixel_of_8(&pixels[(start + x) * 4..]));
    }
}

// The same of two bytes a channel.
fn read_16<const MAX: u32>(pixels: &[u8], start: usize, into: &mut [Pixel<MAX>])
    requires depth { IsDepth MAX }
    requires long { (start + length into.old) * 8 ≤ length pixels.now }
    requires sound { first_bad 32768 (pixels_of_16 pixels.now) ≡ None }
    ensures { (x : ℕ) → x < length into.old → slice_index_or into.new x clear ≡ in_depth 32768 MAX (get_or (pixels_of_16 pixels.now) (start + x) clear) }
{
    for x in 0..into.len() {
        into[x] = in_depth(pixel_of_16(&pixels[(start + x) * 8..]));
    }
}

// The pixel in another depth, or as it is in its own.
fn in_depth<const FROM: u32, const TO: u32>(pixel: Pixel<FROM>) -> Pixel<TO>
    requires from { IsDepth FROM }
    requires to { IsDepth TO }
    ensures { result ≡ in_depth FROM TO pixel.entry }
{
    if FROM == TO {
        Pixel::of_channels(pixel.a(), pixel.r(), pixel.g(), pixel.b())
    } else {
        pixel.to_depth()
    }
}

// The first pixel, of one byte a channel.
fn pixel_of_8(bytes: &[u8]) -> Pixel<255>
    requires long { 4 ≤ length bytes.now }
    requires sound { IsPremultiplied 255 (head_of_8 bytes.now) }
    ensures { result ≡ head_of_8 bytes.now }
{
    Pixel::of_channels(
        u32::from(bytes[0]),
        u32::from(bytes[1]),
        u32::from(bytes[2]),
        u32::from(bytes[3]),
    )
}

// The first pixel, of two bytes a channel.
fn pixel_of_16(bytes: &[u8]) -> Pixel<32768>
    requires long { 8 ≤ length bytes.now }
    requires sound { IsPremultiplied 32768 (head_of_16 bytes.now) }
    ensures { result ≡ head_of_16 bytes.now }
{
    Pixel::of_channels(
        channel_of(bytes[0], bytes[1]),
        channel_of(bytes[2], bytes[3]),
        channel_of(bytes[4], bytes[5]),
        channel_of(bytes[6], bytes[7]),
    )
}
