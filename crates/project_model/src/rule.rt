ghost use Rattle.std.specs.Prelude.{◌≡◌};
ghost use Rattle.project_model.specs.Rules.{number_of};

/// The rules on a project's numbers, by their numbers. They are this project's own. Each speaks of what all before it let through.
/// Those from 37 to 39 read the schemas of the effect set.
#[derive(Clone, Copy, Debug, PartialEq, Eq)]
pub enum Rule {
    /// 16: `root` names a composition.
    Root,
    /// 17: a clip's name has 1 to 64 of the characters `a` to `z`, `A` to `Z`, `0` to `9`, `_`, `-` and `.`, and does not begin
    /// with `.`.
    ClipName,
    /// 18: the names of clips differ.
    ClipNames,
    /// 19: widths and heights of clips and compositions are from 1 to 4,096, with a product of at most 8,847,360.
    Size,
    /// 20: a clip's depth is 8 or 16.
    ClipDepth,
    /// 21: a clip and a composition have from 1 to 65,536 frames.
    Frames,
    /// 22: the value of each frame's length is at least 1.
    FrameValue,
    /// 23: every time is at most 36,000 seconds from zero, those of effects' keyframes included.
    Near,
    /// 24: all frames of a clip or composition together last at most 36,000 seconds.
    Length,
    /// 25: the least common multiple of all scales is at most 2,147,483,647. For a project in hand, its base is that multiple, and each
    /// stream was made with it, those of effects included.
    Base,
    /// 26: the clips' files have together at most 2,147,483,648 bytes, as they are declared.
    ClipBytes,
    /// 27: a solid has a width and a height as a composition, an alpha up to the depth's greatest value, and colours up to alpha.
    Solid,
    /// 28: a layer of a clip names a clip.
    ClipSource,
    /// 29: a layer of a composition names a composition.
    CompSource,
    /// 30: no composition reaches itself through the layers that nest compositions.
    Nesting,
    /// 31: a layer's mode is one of the 21.
    Mode,
    /// 32: a layer's matte is one of the five.
    Matte,
    /// 33: a layer with a matte other than `None` has a layer above it, whose own matte is `None`.
    MatteLayer,
    /// 34: a layer begins no later than it ends, or than its composition ends where it has no end of its own.
    Span,
    /// 35: the times of a stream's keyframes rise, in effects too.
    Rising,
    /// 36: opacity is from 0 to 10,000, and positions from -32,768 to 32,767.
    Range,
    /// 37: an effect's kind is one of the set and may be drawn by several threads, it has as many streams as the kind has parameters,
    /// and every value is in its parameter's range.
    Params,
    /// 38: an effect names as many layers as its kind has layer parameters, each a layer of the same composition, its own allowed.
    EffectLayers,
    /// 39: an effect's sequence data has a length that its kind takes: so many units of bytes, and no bytes where a unit has none.
    Sequence,
    /// 40: the ranks of a layer's source and of its effects are at most 256. A solid and a clip have rank 0, and a nested composition
    /// one more than its stack, which is one more than the greatest rank of its layers' last nodes, or 1 where it has no layers. An
    /// effect has one more than the greatest rank of its input and of the sources of the layers that it names.
    Rank,
}

/// All rules, in the order of their numbers.
pub const RULES: [Rule; 25] = [
    Rule::Root,
    Rule::ClipName,
    Rule::ClipNames,
    Rule::Size,
    Rule::ClipDepth,
    Rule::Frames,
    Rule::FrameValue,
    Rule::Near,
    Rule::Length,
    Rule::Base,
    Rule::ClipBytes,
    Rule::Solid,
    Rule::ClipSource,
    Rule::CompSource,
    Rule::Nesting,
    Rule::Mode,
    Rule::Matte,
    Rule::MatteLayer,
    Rule::Span,
    Rule::Rising,
    Rule::Range,
    Rule::Params,
    Rule::EffectLayers,
    Rule::Sequence,
    Rule::Rank,
];

impl Rule {
    /// The number by which a project that breaks the rule is refused.
    pub fn number(self) -> u8
        ensures { result ≡ number_of self }
    {
        match self {
            Rule::Root => 16,
            Rule::ClipName => 17,
            Rule::ClipNames => 18,
            Rule::Size => 19,
            Rule::ClipDepth => 20,
            Rule::Frames => 21,
            Rule::FrameValue => 22,
            Rule::Near => 23,
            Rule::Length => 24,
            Rule::Base => 25,
            Rule::ClipBytes => 26,
            Rule::Solid => 27,
            Rule::ClipSource => 28,
            Rule::CompSource => 29,
            Rule::Nesting => 30,
            Rule::Mode => 31,
            Rule::Matte => 32,
            Rule::MatteLayer => 33,
            Rule::Span => 34,
            Rule::Rising => 35,
            Rule::Range => 36,
            Rule::Params => 37,
            Rule::EffectLayers => 38,
            Rule::Sequence => 39,
            Rule::Rank => 40,
        }
    }
}
