//! Declarations and files for the tests.

ghost use Rattle.std.specs.Prelude.{◌≡◌, ◌*◌, ◌≤◌, ◌⊎◌, IfOk};
ghost use Rattle.std.specs.List.{All};
ghost use Rattle.project_model.specs.Clip.{IsReadable};

use frame_file::{Header, header_bytes};
use project_model::{ClipUse, Text};
use rational_time::Time;
use std::alloc::{AllocError, Global};

/// The clip `a.afr` of one pixel at depth 8 and two frames, 37 bytes in all.
pub fn worked(alloc: Global) -> Result<ClipUse, AllocError>
    ensures { IfOk result IsReadable }
{
    declared(alloc, "a.afr", 1, 1, 8, 2)
}

/// A clip with frames of 1/24 second.
pub fn declared(
    alloc: Global,
    name: &str,
    width: u32,
    height: u32,
    depth: u8,
    frames: u32,
) -> Result<ClipUse, AllocError>
    requires width { (1 ≤ width) × (width ≤ 4096) }
    requires height { (1 ≤ height) × (height ≤ 4096) }
    requires area { width * height ≤ 8847360 }
    requires depth { (depth ≡ 8) ⊎ (depth ≡ 16) }
    requires frames { (1 ≤ frames) × (frames ≤ 65536) }
    ensures readable { IfOk result IsReadable }
    ensures width { IfOk result (λ clip. clip.width ≡ width) }
    ensures height { IfOk result (λ clip. clip.height ≡ height) }
    ensures frames { IfOk result (λ clip. clip.frames ≡ frames) }
{
    Ok(ClipUse {
        name: Text::from_string(String::from_str(alloc, name)?),
        width,
        height,
        depth,
        frame: Time {
            value: 1,
            scale: 24,
        },
        frames,
    })
}

/// The declaration alone.
pub fn alone(alloc: Global, declared: ClipUse) -> Result<Vec<ClipUse>, AllocError>
    requires { IsReadable declared }
    ensures { IfOk result (λ uses. All IsReadable uses.items) }
{
    let mut uses = Vec::new(alloc);
    match uses.push(declared) {
        Ok(()) => Ok(uses),
        Err(_) => Err(AllocError),
    }
}

/// The worked clip between those of two other names.
pub fn three(alloc: Global) -> Result<Vec<ClipUse>, AllocError>
    ensures { IfOk result (λ uses. All IsReadable uses.items) }
{
    let first = worked(alloc)?;
    let second = declared(alloc, "b.afr", 1, 1, 8, 2)?;
    let third = declared(alloc, "c.afr", 1, 1, 8, 2)?;
    Ok(vec![in alloc; first, second, third]?)
}

/// The file of these pixels that the declaration asks for, as of a span from frame `first` on.
pub fn file(
    alloc: Global,
    declared: &ClipUse,
    first: u32,
    pixels: &[u8],
) -> Result<Vec<u8>, AllocError> {
    let mut bytes = header_bytes(&Header {
        width: declared.width,
        height: declared.height,
        depth: declared.depth,
        value: declared.frame.value.unsigned_abs(),
        scale: declared.frame.scale,
        first,
        count: declared.frames,
    })
    .to_vec(alloc)?;
    bytes.extend_from_slice(pixels)?;
    Ok(bytes)
}
