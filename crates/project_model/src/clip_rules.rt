//! What breaks a rule in a project's clips.

ghost use Rattle.std.specs.Prelude.{◌≡◌, ◌≤◌, ◌<◌, ◌^◌, [], ◌∷◌, length, map, take, not, bytes_eq, pos, int_le};
ghost use Rattle.std.specs.List.{list_all, list_any};
ghost use Rattle.rational_time.specs.Times.{is_near};
ghost use Rattle.project_model.specs.Bounds.{most_clips, most_frames, is_among, is_bit_depth, is_size};
ghost use Rattle.project_model.specs.Clip.{clip_length, is_name_byte, is_clip_name, are_different, is_long_clip, are_large};
ghost use Rattle.project_model.specs.Rules.{break_clips};

use crate::bounds::{
    CLIP_HEADER_LENGTH, MOST_CLIP_BYTES, MOST_FRAMES, MOST_NAME_BYTES, is_among, is_bit_depth,
    is_size,
};
use crate::breaks::lasts_too_long;
use crate::{ClipUse, Rule};
use rational_time::is_near;

/// Whether the rule is broken in the clips.
pub fn break_clips(clips: &[ClipUse], rule: Rule) -> bool
    requires { length clips.now ≤ most_clips }
    ensures { result ≡ break_clips clips.now rule }
{
    match rule {
        Rule::ClipName => !are_named(clips),
        Rule::ClipNames => !are_different(clips),
        Rule::Size => !are_sized(clips),
        Rule::ClipDepth => !are_deep(clips),
        Rule::Frames => !have_frames(clips),
        Rule::FrameValue => !last(clips),
        Rule::Near => !are_near(clips),
        Rule::Length => !are_short(clips),
        Rule::ClipBytes => are_large(clips),
        _ => false,
    }
}

// Whether each has a name that it may have.
fn are_named(clips: &[ClipUse]) -> bool
    ensures { result ≡ list_all (λ clip. is_clip_name clip.name) clips.now }
{
    clips
        .iter()
        .all(|clip| is_clip_name(clip.name.as_str().as_bytes()))
}

// Whether a clip may have this name.
fn is_clip_name(name: &[u8]) -> bool
    ensures { result ≡ is_clip_name name.now }
{
    1 <= name.len()
        && name.len() <= MOST_NAME_BYTES as usize
        && are_name_bytes(name)
        && !begins_with_dot(name)
}

// Whether each byte may stand in a name.
fn are_name_bytes(name: &[u8]) -> bool
    ensures { result ≡ list_all is_name_byte name.now }
{
    name.iter().all(|byte| is_name_byte(*byte))
}

// Whether it may.
fn is_name_byte(byte: u8) -> bool
    ensures { result ≡ is_name_byte byte }
{
    matches!(byte, b'a'..=b'z' | b'A'..=b'Z' | b'0'..=b'9' | b'_' | b'-' | b'.')
}

// Whether the name begins with a dot.
fn begins_with_dot(name: &[u8]) -> bool
    ensures { result ≡ bytes_eq (take 1 name.now) (46 ∷ []) }
{
    match name {
        [first, ..] => *first == b'.',
        [] => false,
    }
}

// Whether no two clips have the same name.
fn are_different(clips: &[ClipUse]) -> bool
    ensures { result ≡ are_different (map (λ clip. clip.name) clips.now) }
{
    for (index, clip) in clips.iter().enumerate() {
        if is_named(&clips[index + 1..], clip.name.as_str()) {
            return false;
        }
    }
    true
}

// Whether one of the clips has this name.
fn is_named(clips: &[ClipUse], name: &str) -> bool
    ensures { result ≡ list_any (λ clip. bytes_eq name.now clip.name) clips.now }
{
    clips.iter().any(|clip| has_name(clip, name))
}

// Whether the clip has it.
fn has_name(clip: &ClipUse, name: &str) -> bool
    ensures { result ≡ bytes_eq name.now clip.now.name }
{
    name == clip.name.as_str()
}

// Whether the pictures of each have sides that they may have.
fn are_sized(clips: &[ClipUse]) -> bool
    ensures { result ≡ list_all (λ clip. is_size clip.width clip.height) clips.now }
{
    clips.iter().all(|clip| is_size(clip.width, clip.height))
}

// Whether each has a depth that it may have.
fn are_deep(clips: &[ClipUse]) -> bool
    ensures { result ≡ list_all (λ clip. is_bit_depth clip.depth) clips.now }
{
    clips.iter().all(|clip| is_bit_depth(u32::from(clip.depth)))
}

// Whether each has as many frames as it may.
fn have_frames(clips: &[ClipUse]) -> bool
    ensures { result ≡ list_all (λ clip. is_among 1 most_frames clip.frames) clips.now }
{
    clips
        .iter()
        .all(|clip| is_among(1, MOST_FRAMES, clip.frames))
}

// Whether the frames of each last some time.
fn last(clips: &[ClipUse]) -> bool
    ensures { result ≡ list_all (λ clip. int_le (pos 1) clip.frame.value) clips.now }
{
    clips.iter().all(|clip| 1 <= clip.frame.value)
}

// Whether the frames of each are short enough for a time.
fn are_near(clips: &[ClipUse]) -> bool
    ensures { result ≡ list_all (λ clip. is_near clip.frame) clips.now }
{
    clips.iter().all(|clip| is_near(clip.frame))
}

// Whether all frames of each are together.
fn are_short(clips: &[ClipUse]) -> bool
    ensures { result ≡ list_all (λ clip. not (is_long_clip clip)) clips.now }
{
    clips
        .iter()
        .all(|clip| !lasts_too_long(clip.frame, clip.frames))
}

// Whether the files have too many bytes together.
fn are_large(clips: &[ClipUse]) -> bool
    requires { length clips.now ≤ most_clips }
    ensures { result ≡ are_large clips.now }
{
    let mut bytes = 0;
    for clip in clips {
        bytes += declared_bytes(clip);
    }
    bytes > u128::from(MOST_CLIP_BYTES)
}

// How many bytes the file has that is declared so, whatever the numbers.
fn declared_bytes(clip: &ClipUse) -> u128
    ensures value { result ≡ clip_length clip.now }
    ensures bound { result < 2 ^ 100 }
{
    let area = u128::from(clip.width) * u128::from(clip.height);
    let size = if clip.depth == 8 { 4 } else { 8 };
    u128::from(CLIP_HEADER_LENGTH) + u128::from(clip.frames) * area * size
}
