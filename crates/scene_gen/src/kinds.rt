//! What the generator has to know of the stock effects: by the number of their kind, the values that each parameter takes, and what
//! else they are given. The numbers are those of the stock effects' own schemas; a test of the host compares them.

ghost use Rattle.std.specs.Prelude.{◌≡◌, ◌<◌, ◌≤◌, IsTrue};
ghost use Rattle.std.specs.List.{list_all};
ghost use Rattle.scene_gen.specs.Kinds.{is_range, ranges_of, layers_of, unit_of};

/// The values that a parameter takes, `least..=most`.
#[derive(Clone, Copy, Debug, PartialEq, Eq)]
pub struct ValueRange {
    pub least: i64,
    pub most: i64,
}

/// How many kinds of stock effects there are.
pub const KIND_COUNT: u32 = 18;

const CHANNELS: ValueRange = ValueRange { least: 0, most: 3 };

const SOURCES: ValueRange = ValueRange { least: 0, most: 4 };

const SHARE: ValueRange = ValueRange {
    least: 0,
    most: 10000,
};

const SCALE: ValueRange = ValueRange {
    least: 0,
    most: 40000,
};

const OFFSET: ValueRange = ValueRange {
    least: -10000,
    most: 10000,
};

const PLACE: ValueRange = ValueRange {
    least: -32768,
    most: 32767,
};

const RADIUS: ValueRange = ValueRange {
    least: 0,
    most: 128,
};

const BLOCK: ValueRange = ValueRange {
    least: 1,
    most: 1024,
};

const WAY: ValueRange = ValueRange {
    least: -1024,
    most: 1024,
};

const ECHOES: ValueRange = ValueRange { least: 1, most: 8 };

const FRAMES: ValueRange = ValueRange {
    least: 1,
    most: 100,
};

const STEP: ValueRange = ValueRange {
    least: 1,
    most: 1000,
};

const NEIGHBOURS: ValueRange = ValueRange { least: 0, most: 4 };

const CLIPPED: ValueRange = ValueRange {
    least: 0,
    most: 4999,
};

/// The range of each parameter of a kind, in order.
#[tactic(auto, unfolding(crate::specs::Kinds::ranges_of))]
pub fn ranges_of(kind: u32) -> &'static [ValueRange]
    requires { kind < KIND_COUNT }
    ensures ranges { result.now ≡ ranges_of kind }
    ensures ordered { IsTrue (list_all is_range result.now) }
{
    match kind {
        0 => &[CHANNELS],
        1 => &[SHARE],
        2 => &[SOURCES, SOURCES, SOURCES],
        3 => &[SCALE, OFFSET],
        4 => &[SHARE, SHARE, SHARE, SHARE, SHARE, SHARE, SHARE],
        5 => &[],
        6 => &[PLACE, PLACE],
        7 => &[RADIUS],
        8 => &[BLOCK],
        9 => &[WAY, WAY, SHARE, SHARE, SHARE, SHARE],
        10 => &[WAY, WAY],
        11 => &[ECHOES, FRAMES, SHARE],
        12 => &[STEP],
        13 => &[FRAMES],
        14 => &[NEIGHBOURS],
        15 => &[CLIPPED],
        16 => &[],
        17 => &[NEIGHBOURS],
        _ => unreachable!(),
    }
}

/// How many layers a kind is given.
#[tactic(auto, unfolding(crate::specs::Kinds::layers_of))]
pub fn layers_of(kind: u32) -> u32
    ensures { result ≡ layers_of kind }
{
    if kind == 10 { 1 } else { 0 }
}

/// How many bytes an entry of a kind's sequence data has, which is 0 where it has none.
#[tactic(auto, unfolding(crate::specs::Kinds::unit_of))]
pub fn unit_of(kind: u32) -> u32
    ensures unit { result ≡ unit_of kind }
    ensures few { result ≤ 3 }
{
    if kind == 5 { 3 } else { 0 }
}
