//! What refuses the bytes of a clip's file.
ghost use Rattle.std.specs.Prelude.{◌≡◌, ◌+◌, ◌*◌, ◌^◌, ◌<◌, ◌≤◌, length, drop, None, Ok, Err, Some, OnOk, IfErr, IfSome};
ghost use Rattle.project_model.specs.Bounds.{most_of, is_colour, header_length};
ghost use Rattle.project_model.specs.Clip.{IsReadable, pixel_size, pixel_count, clip_length};
ghost use Rattle.frame_file.specs.Clip.{pictures_of, pixels_of, pixels_of_8, pixels_of_16, first_bad, judged, judged_body, judged_pixels, differs, header_fault, bad_pixel, channel_of, wanted};

use crate::ClipError;
use project_model::{CLIP_HEADER_LENGTH, ClipUse};

/// How many bytes the header of a file has.
pub(crate) const HEADER_LENGTH: usize = CLIP_HEADER_LENGTH as usize;

/// Whether these bytes of a file, which is said to have `there`, are a clip that is declared so, or what refuses them first.
pub(crate) fn judge(declared: &ClipUse, bytes: &[u8], there: u64) -> Result<(), ClipError>
    requires readable { IsReadable declared.now }
    requires within { length bytes.now ≤ there }
    ensures passed { OnOk result (judged there bytes.now declared.now
        ≡ Ok (pictures_of declared.now (pixels_of declared.now.depth (drop header_length bytes.now)))) }
    ensures long { OnOk result (length bytes.now ≡ clip_length declared.now) }
    ensures sound { OnOk result (first_bad (most_of declared.now.depth) (pixels_of declared.now.depth (drop header_length bytes.now)) ≡ None) }
    ensures refused { IfErr result (λ why. judged there bytes.now declared.now ≡ Err why) }
{
    if bytes.len() < HEADER_LENGTH {
        return Err(ClipError::Short {
            have: bytes.len() as u64,
            want: HEADER_LENGTH as u64,
        });
    }
    if differs(0, b"AFR1", bytes) {
        return Err(ClipError::BadMagic);
    }
    if let Some(field) = header_fault(declared, bytes) {
        return Err(ClipError::BadHeader { field });
    }
    judge_body(declared, bytes, there)
}

// The same behind a header that is the declaration's.
fn judge_body(declared: &ClipUse, bytes: &[u8], there: u64) -> Result<(), ClipError>
    requires readable { IsReadable declared.now }
    requires header { header_length ≤ length bytes.now }
    requires within { length bytes.now ≤ there }
    ensures passed { OnOk result (judged_body there bytes.now declared.now None
        ≡ Ok (pictures_of declared.now (pixels_of declared.now.depth (drop header_length bytes.now)))) }
    ensures long { OnOk result (length bytes.now ≡ clip_length declared.now) }
    ensures sound { OnOk result (first_bad (most_of declared.now.depth) (pixels_of declared.now.depth (drop header_length bytes.now)) ≡ None) }
    ensures refused { IfErr result (λ why. judged_body there bytes.now declared.now None ≡ Err why) }
{
    let have = bytes.len() as u64;
    let want = declared.file_length();
    if have < want || (have < there && have <= want) {
        return Err(ClipError::Short {
            have,
            want: wanted(there, have, want),
        });
    }
    if want < there {
        return Err(ClipError::Trailing {
            extra: there - want,
        });
    }
    judge_pixels(declared, &bytes[HEADER_LENGTH..])
}

// How many bytes short ones want: those that are declared, or, where these are all there, those that were said.
fn wanted(there: u64, have: u64, declared: u64) -> u64
    ensures { result ≡ wanted there have declared }
{
    if have < declared { declared } else { there }
}

// The same of the bytes behind the header, which are as many as declared.
fn judge_pixels(declared: &ClipUse, bytes: &[u8]) -> Result<(), ClipError>
    requires readable { IsReadable declared.now }
    requires long { length bytes.now ≡ pixel_count declared.now * pixel_size declared.now.depth }
    ensures sound { OnOk result (first_bad (most_of declared.now.depth) (pixels_of declared.now.depth bytes.now) ≡ None) }
    ensures refused { IfErr result (λ why. let pixels = pixels_of declared.now.depth bytes.now in
        judged_pixels declared.now pixels (first_bad (most_of declared.now.depth) pixels) ≡ Err why) }
{
    match first_bad(declared.depth, bytes) {
        None => Ok(()),
        Some(place) => Err(bad_pixel(declared, place)),
    }
}

// A bad pixel by its picture and its place in the picture.
fn bad_pixel(declared: &ClipUse, place: usize) -> ClipError
    requires readable { IsReadable declared.now }
    requires within { place < pixel_count declared.now }
    ensures { result ≡ bad_pixel declared.now place }
{
    let area = declared.width as usize * declared.height as usize;
    ClipError::BadPixel {
        frame: (place / area) as u32,
        index: (place % area) as u32,
    }
}

// Whether the bytes from the place on are not the field's.
fn differs(place: usize, field: &[u8], bytes: &[u8]) -> bool
    requires { place + length field.now ≤ length bytes.now }
    ensures { result ≡ differs place field.now bytes.now }
{
    let found = &bytes[place..place + field.len()];
    found != field
}

// The first field of the header that is not the declaration's.
fn header_fault(declared: &ClipUse, bytes: &[u8]) -> Option<u8>
    requires { header_length ≤ length bytes.now }
    ensures { result ≡ header_fault declared.now bytes.now }
{
    if differs(4, &declared.width.to_be_bytes(), bytes) {
        Some(0)
    } else if differs(8, &declared.height.to_be_bytes(), bytes) {
        Some(1)
    } else if differs(12, &[declared.depth], bytes) {
        Some(2)
    } else if differs(
        13,
        &declared.frame.value.unsigned_abs().to_be_bytes(),
        bytes,
    ) {
        Some(3)
    } else if differs(17, &declared.frame.scale.to_be_bytes(), bytes) {
        Some(4)
    } else if differs(25, &declared.frames.to_be_bytes(), bytes) {
        Some(5)
    } else {
        None
    }
}

// Where the first pixel is that is not premultiplied.
fn first_bad(depth: u8, pixels: &[u8]) -> Option<usize>
    ensures place { result ≡ first_bad (most_of depth) (pixels_of depth pixels.now) }
    ensures within { IfSome result (λ place. (place + 1) * pixel_size depth ≤ length pixels.now) }
{
    if depth == 8 {
        first_bad_of_8(pixels)
    } else {
        first_bad_of_16(pixels)
    }
}

// The same with one byte a channel.
fn first_bad_of_8(pixels: &[u8]) -> Option<usize>
    ensures place { result ≡ first_bad 255 (pixels_of_8 pixels.now) }
    ensures within { IfSome result (λ place. (place + 1) * 4 ≤ length pixels.now) }
{
    let mut rest = pixels;
    let mut place = 0usize;
    'pixels: while let [a, r, g, b, more @ ..] = rest {
        if *r > *a || *g > *a || *b > *a {
            return Some(place);
        }
        place += 1;
        rest = more;
    }
    None
}

// The same with two bytes a channel.
fn first_bad_of_16(pixels: &[u8]) -> Option<usize>
    ensures place { result ≡ first_bad 32768 (pixels_of_16 pixels.now) }
    ensures within { IfSome result (λ place. (place + 1) * 8 ≤ length pixels.now) }
{
    let mut rest = pixels;
    let mut place = 0usize;
    'pixels: while let [a, a_low, r, r_low, g, g_low, b, b_low, more @ ..] = rest {
        let alpha = channel_of(*a, *a_low);
        let red = channel_of(*r, *r_low);
        let green = channel_of(*g, *g_low);
        let blue = channel_of(*b, *b_low);
        if !is_sound(alpha, red, green, blue) {
            return Some(place);
        }
        place += 1;
        rest = more;
    }
    None
}

// Whether a pixel of 16 bits is premultiplied.
fn is_sound(a: u32, r: u32, g: u32, b: u32) -> bool
    ensures { result ≡ is_colour 32768 a r g b }
{
    a <= 32768 && r <= a && g <= a && b <= a
}

// A channel of two bytes, the greater part first.
pub(crate) fn channel_of(high: u8, low: u8) -> u32
    ensures { result ≡ channel_of high low }
{
    u32::from(high) * 256 + u32::from(low)
}
