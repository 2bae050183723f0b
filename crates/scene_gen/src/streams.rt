//! The streams that are drawn.

ghost use Rattle.std.specs.Prelude.{◌≡◌, map, IfOk, OnOk, IsTrue};
ghost use Rattle.std.specs.List.{All, list_all};
ghost use Rattle.param_stream.specs.Curve.{IsBetween};
ghost use Rattle.project_model.specs.Constant.{constant};
ghost use Rattle.project_model.specs.Ready.{AreReady};
ghost use Rattle.scene_gen.specs.Kinds.{is_range};
ghost use Rattle.scene_gen.specs.Streams.{pair, drawn_opacity, drawn_x, drawn_y, drawn_param, drawn_params, IsMade};

use crate::draws::Generator;
use crate::kinds::ValueRange;
use host_io::Memory;
use param_stream::{Ease, Keyframe, Stream, StreamError};
use project_model::{FULL_OPACITY, GREATEST_POSITION, LEAST_POSITION};
use rational_time::{Time, TimeBase};
use std::alloc::Global;

/// The base of all generated projects: the least in which 1/24 and 1/30000 of a second are whole numbers.
pub const BASE: TimeBase = TimeBase { ticks: 30000 };

/// No time.
pub const ZERO: Time = Time { value: 0, scale: 1 };

/// Where the last of 12 frames of 1/24 begins.
const LAST: Time = Time {
    value: 11,
    scale: 24,
};

const OPACITIES: ValueRange = ValueRange {
    least: 0,
    most: FULL_OPACITY,
};

const POSITIONS: ValueRange = ValueRange {
    least: LEAST_POSITION,
    most: GREATEST_POSITION,
};

impl Generator {
    /// Opacity, from 2000 to 10000 of 10000 at both ends.
    #[tactic(auto, unfolding(crate::specs::Streams::drawn_opacity))]
    pub fn opacity(&mut self, alloc: Global) -> Result<Stream, Memory>
        ensures keys { IfOk result (λ s. s.keys ≡ (drawn_opacity self.old.state).value) }
        ensures state { OnOk result (self.new.state ≡ (drawn_opacity self.old.state).state) }
        ensures made { IfOk result IsMade }
    {
        let first = 2000 + i64::from(self.draw(8001));
        let last = 2000 + i64::from(self.draw(8001));
        changing(
            alloc,
            OPACITIES,
            (first, Ease::Linear),
            (last, Ease::Smooth),
        )
    }

    /// The way from left to right.
    #[tactic(auto, unfolding(crate::specs::Streams::drawn_x))]
    pub fn x(&mut self, alloc: Global) -> Result<Stream, Memory>
        ensures keys { IfOk result (λ s. s.keys ≡ (drawn_x self.old.state).value) }
        ensures state { OnOk result (self.new.state ≡ (drawn_x self.old.state).state) }
        ensures made { IfOk result IsMade }
    {
        let first = i64::from(self.draw(64)) - 32;
        let last = i64::from(self.draw(128));
        changing(alloc, POSITIONS, (first, Ease::Smooth), (last, Ease::Hold))
    }

    /// The way from top to bottom, one value.
    #[tactic(auto, unfolding(crate::specs::Streams::drawn_y))]
    pub fn y(&mut self, alloc: Global) -> Result<Stream, Memory>
        ensures keys { IfOk result (λ s. s.keys ≡ (drawn_y self.old.state).value) }
        ensures state { OnOk result (self.new.state ≡ (drawn_y self.old.state).state) }
        ensures made { IfOk result IsMade }
    {
        let only = i64::from(self.draw(64)) - 16;
        steady(alloc, POSITIONS, only)
    }

    /// A value of each range, in order.
    pub fn params(&mut self, alloc: Global, ranges: &[ValueRange]) -> Result<Vec<Stream>, Memory>
        requires { IsTrue (list_all is_range ranges.now) }
        ensures keys { IfOk result (λ streams. map (λ curve. curve.keys) streams.items ≡ (drawn_params ranges.now self.old.state).value) }
        ensures state { OnOk result (self.new.state ≡ (drawn_params ranges.now self.old.state).state) }
        ensures made { IfOk result (λ streams. All IsMade streams.items) }
    {
        let mut streams = Vec::new(alloc);
        for range in ranges {
            streams.push(self.param(alloc, *range)?)?;
        }
        Ok(streams)
    }

    // A value of the range.
    #[tactic(auto, unfolding(crate::specs::Streams::drawn_param))]
    fn param(&mut self, alloc: Global, range: ValueRange) -> Result<Stream, Memory>
        requires { IsTrue (is_range range) }
        ensures keys { IfOk result (λ s. s.keys ≡ (drawn_param range self.old.state).value) }
        ensures state { OnOk result (self.new.state ≡ (drawn_param range self.old.state).state) }
        ensures made { IfOk result IsMade }
    {
        let above = self.draw(range.most.abs_diff(range.least) as u32 + 1);
        steady(alloc, range, range.least + i64::from(above))
    }
}

// A stream of one value at all times.
fn steady(alloc: Global, range: ValueRange, value: i64) -> Result<Stream, Memory>
    requires range { IsTrue (is_range range) }
    requires within { IsBetween range.least range.most value }
    ensures { IfOk result (λ s. s ≡ record { base = 30000; keys = constant value; least = range.least; most = range.most }) }
{
    let key = Keyframe {
        time: ZERO,
        value,
        kind: Ease::Hold,
    };
    stream_of(alloc, range, vec![in alloc; key]?)
}

// A stream of two values, each with how it goes on.
fn changing(
    alloc: Global,
    range: ValueRange,
    first: (i64, Ease),
    last: (i64, Ease),
) -> Result<Stream, Memory>
    requires range { IsTrue (is_range range) }
    requires first { IsBetween range.least range.most first.0 }
    requires last { IsBetween range.least range.most last.0 }
    ensures { IfOk result (λ s. s ≡ record { base = 30000; keys = pair first.0 first.1 last.0 last.1; least = range.least; most = range.most }) }
{
    let first = Keyframe {
        time: ZERO,
        value: first.0,
        kind: first.1,
    };
    let last = Keyframe {
        time: LAST,
        value: last.0,
        kind: last.1,
    };
    stream_of(alloc, range, vec![in alloc; first, last]?)
}

// The stream of these keyframes.
fn stream_of(alloc: Global, range: ValueRange, keys: Vec<Keyframe>) -> Result<Stream, Memory>
    requires range { IsTrue (is_range range) }
    requires ready { AreReady 30000 range.least range.most keys.items }
    ensures { IfOk result (λ s. s ≡ record { base = 30000; keys = keys.items; least = range.least; most = range.most }) }
{
    match Stream::new(alloc, BASE, keys, range.least, range.most) {
        Ok(stream) => Ok(stream),
        Err(refusal) => match refusal {
            StreamError::Memory => Err(Memory),
            _ => unreachable!(),
        },
    }
}
