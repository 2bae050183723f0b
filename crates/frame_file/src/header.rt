ghost use Rattle.std.specs.Prelude.{◌≡◌};
ghost use Rattle.frame_file.specs.Afr as afr;

/// What the header of a file says: the size in pixels, the bits of a channel, the length of a frame as value and scale, the
/// first frame and the count of frames.
#[derive(Clone, Copy, Debug, PartialEq, Eq)]
pub struct Header {
    pub width: u32,
    pub height: u32,
    pub depth: u8,
    pub value: u32,
    pub scale: u32,
    pub first: u32,
    pub count: u32,
}

/// The bytes of a header: `AFR1`, and its fields in order, big endian.
#[tactic(auto, unfolding(crate::specs::Afr::header_bytes))]
pub fn header_bytes(header: &Header) -> [u8; 29]
    ensures { result ≡ afr.header_bytes header.now }
{
    let mut bytes = [0; 29];
    bytes[..4].copy_from_slice(b"AFR1");
    bytes[4..8].copy_from_slice(&header.width.to_be_bytes());
    bytes[8..12].copy_from_slice(&header.height.to_be_bytes());
    bytes[12] = header.depth;
    bytes[13..17].copy_from_slice(&header.value.to_be_bytes());
    bytes[17..21].copy_from_slice(&header.scale.to_be_bytes());
    bytes[21..25].copy_from_slice(&header.first.to_be_bytes());
    bytes[25..].copy_from_slice(&header.count.to_be_bytes());
    bytes
}
