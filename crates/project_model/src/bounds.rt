//! The bounds of a project's parts, this project's own, and the numbers that keep them.

ghost use Rattle.std.specs.Prelude.{◌≡◌};
ghost use Rattle.project_model.specs.Bounds.{is_bit_depth, most_of, is_among, is_size, is_colour, is_between, all_between};

use param_stream::Keyframe;

/// The most clips of a project.
pub const MOST_CLIPS: u32 = 64;

/// The most bytes that a project's clips declare together, headers included.
pub const MOST_CLIP_BYTES: u64 = 2147483648;

/// The most bytes of a clip's name.
pub const MOST_NAME_BYTES: u32 = 64;

/// The bytes of the header of a clip's file.
pub const CLIP_HEADER_LENGTH: u32 = 29;

/// The greatest rank of a source.
pub const GREATEST_RANK: u32 = 256;

/// The most compositions of a project.
pub const MOST_COMPS: u32 = 64;

/// The most layers of a composition.
pub const MOST_LAYERS: u32 = 128;

/// The most layers of a project in all.
pub const MOST_LAYERS_IN_ALL: u32 = 1024;

/// The most effects of a layer.
pub const MOST_EFFECTS: u32 = 8;

/// The most keyframes of a stream.
pub const MOST_KEYS: u32 = 4096;

/// The greatest width and height of a composition, of a clip and of a solid.
pub const GREATEST_SIDE: u32 = 4096;

/// The greatest product of the two.
pub const GREATEST_AREA: u32 = 8847360;

/// The most frames of a composition, and of a clip.
pub const MOST_FRAMES: u32 = 65536;

/// The greatest value of a channel of 8 bits.
pub const GREATEST_OF_8_BITS: u32 = 255;

/// The greatest value of a channel of 16 bits.
pub const GREATEST_OF_16_BITS: u32 = 32768;

/// Full opacity: it counts in 1/10000.
pub const FULL_OPACITY: i64 = 10000;

/// The least position, in pixels.
pub const LEAST_POSITION: i64 = -32768;

/// The greatest position, in pixels.
pub const GREATEST_POSITION: i64 = 32767;

/// The greatest value of a channel of so many bits, 8 or 16.
pub fn most_of(depth: u32) -> u32
    ensures { result ≡ most_of depth }
{
    if depth == 8 {
        GREATEST_OF_8_BITS
    } else {
        GREATEST_OF_16_BITS
    }
}

/// Whether the number is from the one to the other.
pub fn is_among(low: u32, high: u32, n: u32) -> bool
    ensures { result ≡ is_among low high n }
{
    low <= n && n <= high
}

/// Whether a channel may have so many bits.
pub fn is_bit_depth(depth: u32) -> bool
    ensures { result ≡ is_bit_depth depth }
{
    depth == 8 || depth == 16
}

/// Whether a picture may have these sides.
pub fn is_size(width: u32, height: u32) -> bool
    ensures { result ≡ is_size width height }
{
    is_among(1, GREATEST_SIDE, width)
        && is_among(1, GREATEST_SIDE, height)
        && width * height <= GREATEST_AREA
}

/// Whether these are a premultiplied colour, where a channel is at most `most`.
pub fn is_colour(most: u32, a: u32, r: u32, g: u32, b: u32) -> bool
    ensures { result ≡ is_colour most a r g b }
{
    a <= most && r <= a && g <= a && b <= a
}

/// Whether the value is from the least to the most.
pub fn is_between(least: i64, most: i64, value: i64) -> bool
    ensures { result ≡ is_between least most value }
{
    least <= value && value <= most
}

/// Whether each value of the stream is from the least to the most.
pub fn all_between(least: i64, most: i64, keys: &[Keyframe]) -> bool
    ensures { result ≡ all_between least most keys.now }
{
    keys.iter().all(|key| is_between(least, most, key.value))
}
