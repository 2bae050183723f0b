//! Layers of projects that are drawn from a number. All answers were worked from the rules of the draws by other means.

use param_stream::{Ease, Keyframe};
use project_model::{FxUse, Item, Layer, Project};
use rational_time::Time;
use scene_gen::project_of_number;
use std::process::Abort;
use std::test::Fail;
use track_matte::Matte;
use transfer_mode::Mode;

/// A layer of a composition of the project of a number, and its one effect.
struct Drawn {
    number: u32,
    depth: u8,
    comp: usize,
    layer: usize,
    source: Item,
    start: i32,
    mode: Mode,
    matte: Matte,
    opacity: [i64; 2],
    x: [i64; 2],
    y: i64,
    kind: u16,
    params: &'static [i64],
    layers: &'static [u32],
    bytes: &'static [u8],
}

const DRAWN: &[Drawn] = &[
    Drawn {
        number: 0,
        depth: 16,
        comp: 1,
        layer: 3,
        source: Item::Comp(0),
        start: 3,
        mode: Mode::ColorDodge,
        matte: Matte::Luma,
        opacity: [5555, 7042],
        x: [12, 42],
        y: 5,
        kind: 15,
        params: &[966],
        layers: &[],
        bytes: &[],
    },
    Drawn {
        number: 1,
        depth: 8,
        comp: 0,
        layer: 3,
        source: Item::Solid {
            width: 21,
            height: 30,
            a: 210,
            r: 170,
            g: 188,
            b: 176,
        },
        start: 2,
        mode: Mode::LinearLight,
        matte: Matte::Alpha,
        opacity: [2835, 4239],
        x: [8, 86],
        y: 35,
        kind: 4,
        params: &[3285, 2897, 1966, 9706, 8569, 1977, 3932],
        layers: &[],
        bytes: &[],
    },
    Drawn {
        number: 2,
        depth: 8,
        comp: 1,
        layer: 2,
        source: Item::Solid {
            width: 37,
            height: 17,
            a: 192,
            r: 23,
            g: 109,
            b: 70,
        },
        start: 2,
        mode: Mode::HardMix,
        matte: Matte::None,
        opacity: [2730, 5466],
        x: [13, 35],
        y: -6,
        kind: 10,
        params: &[-454, 602],
        layers: &[3],
        bytes: &[],
    },
    Drawn {
        number: 4294967295,
        depth: 16,
        comp: 1,
        layer: 7,
        source: Item::Solid {
            width: 38,
            height: 38,
            a: 18330,
            r: 6419,
            g: 18066,
            b: 6020,
        },
        start: 2,
        mode: Mode::HardMix,
        matte: Matte::Alpha,
        opacity: [2720, 3191],
        x: [6, 52],
        y: 39,
        kind: 5,
        params: &[],
        layers: &[],
        bytes: &[
            17, 66, 238, 200, 78, 78, 49, 135, 157, 72, 194, 125, 82, 37, 81, 69, 179, 78, 206, 70,
            176,
        ],
    },
];

fn layer_at(project: &Project, comp: usize, layer: usize) -> Option<&Layer> {
    project
        .comps
        .as_slice()
        .get(comp)?
        .layers
        .as_slice()
        .get(layer)
}

// The keyframe of one value at all times, or the first of two.
fn first_key(value: i64, kind: Ease) -> Keyframe {
    Keyframe {
        time: Time { value: 0, scale: 1 },
        value,
        kind,
    }
}

// The second of two.
fn last_key(value: i64, kind: Ease) -> Keyframe {
    Keyframe {
        time: Time {
            value: 11,
            scale: 24,
        },
        value,
        kind,
    }
}

fn is_effect(rt: &impl Abort, fx: &FxUse, want: &Drawn) {
    assert_eq!(rt; fx.kind, want.kind);
    assert_eq!(rt; fx.params.as_slice().len(), want.params.len());
    for (param, value) in fx.params.as_slice().iter().zip(want.params) {
        assert_eq!(rt; param.keys(), [first_key(*value, Ease::Hold)].as_slice());
    }
    assert_eq!(rt; fx.layers.as_slice(), want.layers);
    assert_eq!(rt; fx.sequence.as_slice(), want.bytes);
}

fn is_drawn(rt: &impl Abort, layer: &Layer, want: &Drawn) {
    assert_eq!(rt; layer.source, want.source);
    assert_eq!(rt;
        layer.start,
        Time {
            value: want.start,
            scale: 24
        }
    );
    assert_eq!(rt; layer.in_point, Time { value: 0, scale: 1 });
    assert_eq!(rt; layer.out_point, None);
    assert_eq!(rt; layer.mode, want.mode);
    assert_eq!(rt; layer.matte, want.matte);
    let opacity = [
        first_key(want.opacity[0], Ease::Linear),
        last_key(want.opacity[1], Ease::Smooth),
    ];
    assert_eq!(rt; layer.opacity.keys(), opacity.as_slice());
    let x = [
        first_key(want.x[0], Ease::Smooth),
        last_key(want.x[1], Ease::Hold),
    ];
    assert_eq!(rt; layer.x.keys(), x.as_slice());
    assert_eq!(rt; layer.y.keys(), [first_key(want.y, Ease::Hold)].as_slice());
    assert_eq!(rt; layer.effects.as_slice().len(), 1);
    for fx in layer.effects.as_slice() {
        is_effect(rt, fx, want);
    }
}

#[test]
fn layers_are_drawn(rt: HostRuntime) -> Result<(), Fail> {
    for want in DRAWN {
        let project = project_of_number(rt.alloc(), want.number)?;
        assert_eq!(rt; project.depth, want.depth);
        let layer = layer_at(&project, want.comp, want.layer).ok_or("no such layer")?;
        is_drawn(&rt, layer, want);
    }
    Ok(())
}
