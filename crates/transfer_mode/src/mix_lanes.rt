//! The modes that mix both colours, over lanes: from the products of alphas and colours alone.
ghost use Rattle.std.specs.Prelude.{◌≡◌, ◌*◌, ◌<◌, ◌≤◌, List, map};
ghost use lib.Lanes.{Each1};
ghost use Rattle.transfer_mode.specs.Lanes.{Lane, IsLane};

use crate::lanes::Wide;
use crate::mix::*;

/// What a mode makes of two colours where both cover, in each lane.
pub(crate) trait MixLanes: Mix {
    /// Of the products of both alphas, of the source's colour and the other alpha, of the destination's colour and the
    /// other alpha, and of both colours.
    fn both_lanes<W: Wide>(all: W, s_da: W, d_sa: W, s_d: W) -> W
        requires small { W.most * W.most < W.size }
        ensures bound { (l : Lane) → IsLane W.most l → Self.both l.sa l.da l.s l.d ≤ l.sa * l.da }
        ensures value { (ls : List Lane) → Each1 (IsLane W.most) ls
            → W.lanes all ≡ map (λ l. l.sa * l.da) ls → W.lanes s_da ≡ map (λ l. l.s * l.da) ls
            → W.lanes d_sa ≡ map (λ l. l.d * l.sa) ls → W.lanes s_d ≡ map (λ l. l.s * l.d) ls
            → W.lanes result ≡ map (λ l. Self.both l.sa l.da l.s l.d) ls };
}

impl MixLanes for Multiply {
    #[inline(always)]
    fn both_lanes<W: Wide>(_all: W, _s_da: W, _d_sa: W, s_d: W) -> W {
        s_d
    }
}

impl MixLanes for Screen {
    #[inline(always)]
    fn both_lanes<W: Wide>(_all: W, s_da: W, d_sa: W, s_d: W) -> W {
        s_da.plus(d_sa.less(s_d))
    }
}

impl MixLanes for Darken {
    #[inline(always)]
    fn both_lanes<W: Wide>(_all: W, s_da: W, d_sa: W, _s_d: W) -> W {
        s_da.least(d_sa)
    }
}

impl MixLanes for Lighten {
    #[inline(always)]
    fn both_lanes<W: Wide>(_all: W, s_da: W, d_sa: W, _s_d: W) -> W {
        s_da.greatest(d_sa)
    }
}

impl MixLanes for Difference {
    #[inline(always)]
    fn both_lanes<W: Wide>(_all: W, s_da: W, d_sa: W, _s_d: W) -> W {
        s_da.greatest(d_sa).less(s_da.least(d_sa))
    }
}

impl MixLanes for Exclusion {
    #[inline(always)]
    fn both_lanes<W: Wide>(_all: W, s_da: W, d_sa: W, s_d: W) -> W {
        s_da.less(s_d).plus(d_sa.less(s_d))
    }
}

impl MixLanes for Add {
    #[inline(always)]
    fn both_lanes<W: Wide>(all: W, s_da: W, d_sa: W, _s_d: W) -> W {
        s_da.plus(d_sa.least(all.less(s_da)))
    }
}

impl MixLanes for Subtract {
    #[inline(always)]
    fn both_lanes<W: Wide>(_all: W, s_da: W, d_sa: W, _s_d: W) -> W {
        d_sa.beyond(s_da)
    }
}

impl MixLanes for LinearBurn {
    #[inline(always)]
    fn both_lanes<W: Wide>(all: W, s_da: W, d_sa: W, _s_d: W) -> W {
        s_da.beyond(all.less(d_sa))
    }
}

impl MixLanes for HardLight {
    #[inline(always)]
    fn both_lanes<W: Wide>(all: W, s_da: W, d_sa: W, s_d: W) -> W {
        let rest = all.less(s_da);
        let left = rest.less(d_sa.less(s_d));
        s_da.choose(rest, s_d.plus(s_d), all.less(left.plus(left)))
    }
}

impl MixLanes for Overlay {
    #[inline(always)]
    fn both_lanes<W: Wide>(all: W, s_da: W, d_sa: W, s_d: W) -> W {
        let rest = all.less(d_sa);
        let left = rest.less(s_da.less(s_d));
        d_sa.choose(rest, s_d.plus(s_d), all.less(left.plus(left)))
    }
}

impl MixLanes for LinearLight {
    #[inline(always)]
    fn both_lanes<W: Wide>(all: W, s_da: W, d_sa: W, _s_d: W) -> W {
        let rest = all.less(s_da);
        let risen = d_sa.plus(all.less(d_sa).least(s_da.beyond(rest)));
        risen.beyond(rest.beyond(s_da))
    }
}

impl MixLanes for PinLight {
    #[inline(always)]
    fn both_lanes<W: Wide>(all: W, s_da: W, d_sa: W, _s_d: W) -> W {
        let rest = all.less(s_da);
        let twice = s_da.plus(s_da.least(rest));
        d_sa.least(twice).greatest(s_da.beyond(rest))
    }
}

impl MixLanes for HardMix {
    #[inline(always)]
    fn both_lanes<W: Wide>(all: W, s_da: W, d_sa: W, _s_d: W) -> W {
        all.less(d_sa).choose(s_da, all, all.less(all))
    }
}
