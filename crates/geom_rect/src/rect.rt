ghost use Rattle.std.specs.Prelude.{◌≡◌, ◌↔◌, ◌⊎◌, ◌≤ℤ◌, ◌<ℤ◌, ◌+ℤ◌, ◌<◌, ◌^◌, pos, ℤ, IsTrue};
ghost use Rattle.geom_rect.specs.Rect.{count_between};

/// A rectangle of whole points. A point `(x, y)` is in it where `left <= x < right` and
/// `top <= y < bottom`, so one whose sides do not leave room is empty. Its operations are this
/// project's own.
#[derive(Clone, Copy, Debug, PartialEq, Eq)]
pub struct Rect {
    pub left: i32,
    pub top: i32,
    pub right: i32,
    pub bottom: i32,
}

impl Rect {
    ghost use Rattle.geom_rect.specs.Rect.{
      Has,
      HasNear,
      IsWithin,
      IsCoordinate,
      HasCoordinates,
      area_of,
      meet_of,
      hull_of,
      cover_of,
      shift_of,
      grow_of,
      is_empty,
    };

    /// The empty rectangle at the origin.
    pub const ORIGIN: Rect = Rect {
        left: 0,
        top: 0,
        right: 0,
        bottom: 0,
    };

    /// Whether it has no point.
    pub fn is_empty(&self) -> bool
        ensures sides { IsTrue result ↔ ((self.now.right ≤ℤ self.now.left) ⊎ (self.now.bottom ≤ℤ self.now.top)) }
        ensures points { IsTrue result ↔ ((x y : ℤ) → ¬ Has self.now x y) }
        ensures value { result ≡ is_empty self.now }
    {
        self.right <= self.left || self.bottom <= self.top
    }

    /// Whether the point is in it.
    pub fn has(&self, x: i32, y: i32) -> bool
        ensures { IsTrue result ↔ Has self.now x y }
    {
        spans(self.left, self.right, x) && spans(self.top, self.bottom, y)
    }

    /// How many points are in it: its width times its height, and 0 where it is empty.
    pub fn area(&self) -> u64
        ensures { result ≡ area_of self.now }
    {
        length(self.left, self.right) * length(self.top, self.bottom)
    }

    /// The rectangle of the points that are in both.
    pub fn meet(&self, other: &Rect) -> Rect
        ensures points { (x y : ℤ) → (Has result x y ↔ (Has self.now x y × Has other.now x y)) }
        ensures value { result ≡ meet_of self.now other.now }
    {
        Rect {
            left: self.left.max(other.left),
            top: self.top.max(other.top),
            right: self.right.min(other.right),
            bottom: self.bottom.min(other.bottom),
        }
    }

    /// The least rectangle that has all points of both. Where one is empty it is the other, and
    /// where both are it is `0,0,0,0`.
    pub fn cover(&self, other: &Rect) -> Rect
        ensures first { IsWithin self.now result }
        ensures second { IsWithin other.now result }
        ensures least { (r : Rect) → IsWithin self.now r → IsWithin other.now r → IsWithin result r }
        ensures value { result ≡ cover_of self.now other.now }
    {
        match (self.is_empty(), other.is_empty()) {
            (true, true) => Rect::ORIGIN,
            (true, false) => *other,
            (false, true) => *self,
            (false, false) => self.hull(other),
        }
    }

    // The lesser of the near sides and the greater of the far ones.
    fn hull(&self, other: &Rect) -> Rect
        ensures { result ≡ hull_of self.now other.now }
    {
        Rect {
            left: self.left.min(other.left),
            top: self.top.min(other.top),
            right: self.right.max(other.right),
            bottom: self.bottom.max(other.bottom),
        }
    }

    /// Each point moved by `dx` to the right and `dy` down. All sides and both numbers are within
    /// -1,000,000..=1,000,000.
    pub fn shift(&self, dx: i32, dy: i32) -> Rect
        requires sides { HasCoordinates self.now }
        requires right { IsCoordinate dx }
        requires down { IsCoordinate dy }
        ensures points { (x y : ℤ) → (Has result (x +ℤ dx) (y +ℤ dy) ↔ Has self.now x y) }
        ensures value { result ≡ shift_of self.now dx dy }
    {
        Rect {
            left: self.left + dx,
            top: self.top + dy,
            right: self.right + dx,
            bottom: self.bottom + dy,
        }
    }

    /// The rectangle with the points that are at most `n` away from one of its points, in x and
    /// in y. An empty one stays as it is. All sides are within -1,000,000..=1,000,000, and `n` is
    /// within 0..=1,000,000.
    pub fn grow(&self, n: i32) -> Rect
        requires sides { HasCoordinates self.now }
        requires by { IsCoordinate n }
        requires outwards { pos 0 ≤ℤ n }
        ensures points { (x y : ℤ) → (Has result x y ↔ HasNear self.now n x y) }
        ensures value { result ≡ grow_of self.now n }
    {
        if self.is_empty() {
            return *self;
        }
        Rect {
            left: self.left - n,
            top: self.top - n,
            right: self.right + n,
            bottom: self.bottom + n,
        }
    }
}

/// Whether the number is from `low`, inclusive, to `high`, exclusive.
fn spans(low: i32, high: i32, at: i32) -> bool
    ensures { IsTrue result ↔ ((low ≤ℤ at) × (at <ℤ high)) }
{
    low <= at && at < high
}

/// How many whole numbers there are from `low`, inclusive, to `high`, exclusive.
fn length(low: i32, high: i32) -> u64
    ensures count { result ≡ count_between low high }
    ensures bound { result < 2 ^ 32 }
{
    if low < high {
        (high as i64 - low as i64) as u64
    } else {
        0
    }
}
