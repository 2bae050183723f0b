ghost use Rattle.std.specs.Prelude.{◌≡◌, ◌↔◌, ℕ, ◌*◌, ◌≤◌, ◌<◌, ℤ, pos, ◌≤ℤ◌, ◌<ℤ◌, ◌*ℤ◌, unsigned_abs, IsTrue};
ghost use Rattle.std.specs.Int.{◌∣◌};
ghost use Rattle.std.specs.Ordering.{MatchOrdering};
ghost use Rattle.rational_time.specs.Times.{IsFloor, IsNear, tick_of, tick_of_frame, frame_at, held_of, is_near, comes_before};

use std::cmp::Ordering;

/// A time of `value / scale` seconds, as the After Effects C++ SDK Guide's `A_Time`. It has no
/// order: 1/2 and 2/4 are different values of one length (see `compare`).
#[derive(Clone, Copy, Debug, PartialEq, Eq)]
pub struct Time {
    pub value: i32,
    pub scale: u32,
}

/// The common base of a project's times: a tick is `1 / ticks` of a second. This project's own.
#[derive(Clone, Copy, Debug, PartialEq, Eq)]
pub struct TimeBase {
    pub ticks: u32,
}

/// A number of ticks of a base.
#[derive(Clone, Copy, Debug, PartialEq, Eq, PartialOrd, Ord)]
pub struct Tick(pub i64);

/// The most seconds that a time may be from zero.
pub const MOST_SECONDS: u32 = 36000;

/// The greatest number of ticks that a second may have.
pub const GREATEST_BASE: u64 = 2147483647;

/// The time in ticks. Its scale is at least 1 and divides the base, and it is at most 36,000
/// seconds from zero.
pub fn to_tick(base: TimeBase, time: Time) -> Tick
    requires scaled { 1 ≤ time.scale }
    requires divides { time.scale ∣ base.ticks }
    requires near { unsigned_abs time.value ≤ MOST_SECONDS * time.scale }
    ensures seconds { (result.0 *ℤ pos time.scale) ≡ (time.value *ℤ pos base.ticks) }
    ensures near { unsigned_abs result.0 ≤ MOST_SECONDS * base.ticks }
    ensures value { result.0 ≡ tick_of base.ticks time }
{
    Tick(i64::from(time.value) * i64::from(base.ticks / time.scale))
}

/// The tick at which frame number `frame` begins, where a frame has this many ticks. The number
/// is at most 65535, and the ticks are within 1..=36000*2147483647.
pub fn frame_tick(frame: u32, ticks: i64) -> Tick
    requires frame { frame ≤ 65535 }
    requires some { pos 1 ≤ℤ ticks }
    requires few { ticks ≤ℤ pos (MOST_SECONDS * GREATEST_BASE) }
    ensures { result.0 ≡ tick_of_frame (pos frame) ticks }
{
    Tick(i64::from(frame) * ticks)
}

/// The number of the frame in which the tick lies, where a frame has this many ticks, at least 1.
/// Frame 0 begins at tick 0, and the frames before it have negative numbers.
pub fn frame_of(tick: Tick, ticks: i64) -> i64
    requires { pos 1 ≤ℤ ticks }
    ensures floor { IsFloor tick.0 ticks result }
    ensures value { result ≡ frame_at tick.0 ticks }
{
    tick.0.div_euclid(ticks)
}

/// The tick nearest to this number of those within 36,000 seconds of zero.
pub fn held(base: TimeBase, tick: i128) -> Tick
    ensures { result.0 ≡ held_of base.ticks tick }
{
    let most = i64::from(MOST_SECONDS) * i64::from(base.ticks);
    if tick > i128::from(most) {
        Tick(most)
    } else if tick < -i128::from(most) {
        Tick(-most)
    } else {
        Tick(tick as i64)
    }
}

/// How long the first time is beside the second, by cross products. No scale is 0.
pub fn compare(a: Time, b: Time) -> Ordering
    requires first { 1 ≤ a.scale }
    requires second { 1 ≤ b.scale }
    ensures { let left = a.value *ℤ pos b.scale in
        let right = b.value *ℤ pos a.scale in
        MatchOrdering result (left <ℤ right) (left ≡ right) (right <ℤ left) }
{
    let left = i64::from(a.value) * i64::from(b.scale);
    let right = i64::from(b.value) * i64::from(a.scale);
    left.cmp(&right)
}

/// Whether the time is at most 36,000 seconds from zero.
pub fn is_near(time: Time) -> bool
    ensures value { result ≡ is_near time }
    ensures near { IsTrue result ↔ IsNear time }
{
    u64::from(time.value.unsigned_abs()) <= u64::from(MOST_SECONDS) * u64::from(time.scale)
}

/// Whether the first time is less than the second, by cross products.
pub fn comes_before(a: Time, b: Time) -> bool
    ensures { result ≡ comes_before a b }
{
    i64::from(a.value) * i64::from(b.scale) < i64::from(b.value) * i64::from(a.scale)
}
