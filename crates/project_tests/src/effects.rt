//! Which effects a layer may have. All answers were worked by hand.

ghost use Rattle.project_model.specs.Effects.{AreSchemas};

use crate::plain::{SOLID, comp, comp_of, layer};
use crate::schemas::{Used, effects_of, fx, schemas};
use param_stream::{Ease, Keyframe};
use project_model::{
    CheckError, Collection, EffectSchema, PlainComp, PlainFx, PlainProject, Project, check,
};
use rational_time::{Time, TimeBase};
use std::alloc::{AllocError, Global};
use std::process::Abort;
use std::test::Fail;

/// A composition of three layers, of which the second has these effects.
fn comp_with(alloc: Global, effects: Collection<PlainFx>) -> Result<PlainComp, AllocError> {
    let mut second = layer(alloc, SOLID)?;
    second.effects = effects;
    let layers = vec![in alloc; layer(alloc, SOLID)?, second, layer(alloc, SOLID)?]?;
    Ok(comp_of(layers))
}

/// A project whose second composition is that one; the first has four layers without effects.
fn plain(alloc: Global, effects: Collection<PlainFx>) -> Result<PlainProject, AllocError> {
    let comps = vec![in alloc;
        comp(alloc, &[SOLID, SOLID, SOLID, SOLID])?,
        comp_with(alloc, effects)?,
    ]?;
    Ok(PlainProject {
        depth: 8,
        root: 0,
        clips: Collection::from_vec(Vec::new(alloc)),
        comps: Collection::from_vec(comps),
    })
}

/// What becomes of it.
fn made(
    alloc: Global,
    effects: Collection<PlainFx>,
    schemas: &[EffectSchema],
) -> Result<Result<Project, CheckError>, Fail>
    requires { AreSchemas schemas.now }
{
    let plain = plain(alloc, effects)?;
    if !plain.is_formed() {
        return Err("a form")?;
    }
    Ok(Project::of_plain(alloc, plain, schemas))
}

/// Each of these is refused by the rule of its number, in the second layer of the second composition.
fn refuses(rt: &impl Abort, alloc: Global, rows: &[(u8, &[Used])]) -> Result<(), Fail> {
    let schemas = schemas(alloc)?;
    for (rule, uses) in rows {
        let want = CheckError::RuleBroken {
            rule: *rule,
            comp: Some(1),
            layer: Some(1),
        };
        let got = made(alloc, effects_of(alloc, uses)?, &schemas)?.err();
        assert_eq!(rt; got, Some(want), "{uses:?}");
    }
    Ok(())
}

/// Each of these keeps the rules, also in hand.
fn keeps(rt: &impl Abort, alloc: Global, rows: &[&[Used]]) -> Result<(), Fail> {
    let schemas = schemas(alloc)?;
    for uses in rows {
        let project = made(alloc, effects_of(alloc, uses)?, &schemas)?.map_err(|_| "a project")?;
        assert_eq!(rt; check(alloc, &project, &schemas).err(), None, "{uses:?}");
    }
    Ok(())
}

const KEPT: &[&[Used]] = &[
    &[Used(0, &[&[(0, -5)], &[(0, 0)]], &[], Some(0))],
    &[Used(0, &[&[(0, 5)], &[(0, 10)]], &[], Some(0))],
    &[Used(0, &[&[(0, -5), (1, 5), (2, 0)], &[(-7, 3)]], &[], Some(0))],
    &[Used(2, &[], &[0], Some(3))],
    &[Used(2, &[], &[1], Some(6))],
    &[Used(2, &[], &[2], Some(3))],
    &[
        Used(2, &[], &[1], Some(3)),
        Used(0, &[&[(0, 0)], &[(0, 0)]], &[], Some(0)),
        Used(2, &[], &[1], Some(3)),
    ],
];

const PARAMS: &[(u8, &[Used])] = &[
    (37, &[Used(3, &[], &[], Some(0))]),
    (37, &[Used(65535, &[&[(0, 0)], &[(0, 0)]], &[], Some(0))]),
    (37, &[Used(1, &[], &[], Some(0))]),
    (37, &[Used(0, &[&[(0, -6)], &[(0, 0)]], &[], Some(0))]),
    (37, &[Used(0, &[&[(0, 6)], &[(0, 0)]], &[], Some(0))]),
    (37, &[Used(0, &[&[(0, 0)], &[(0, -1)]], &[], Some(0))]),
    (37, &[Used(0, &[&[(0, 0)], &[(0, 11)]], &[], Some(0))]),
    (
        37,
        &[Used(0, &[&[(0, 0), (1, 6)], &[(0, 0)]], &[], Some(0))],
    ),
    (37, &[Used(0, &[], &[], Some(0))]),
    (37, &[Used(0, &[&[(0, 0)]], &[], Some(0))]),
    (
        37,
        &[Used(0, &[&[(0, 0)], &[(0, 0)], &[(0, 0)]], &[], Some(0))],
    ),
    (37, &[Used(2, &[&[(0, 0)]], &[0], Some(3))]),
];

const LAYERS: &[(u8, &[Used])] = &[
    (38, &[Used(0, &[&[(0, 0)], &[(0, 0)]], &[0], Some(0))]),
    (38, &[Used(2, &[], &[], Some(3))]),
    (38, &[Used(2, &[], &[0, 0], Some(3))]),
    (38, &[Used(2, &[], &[3], Some(3))]),
    (38, &[Used(2, &[], &[4294967295], Some(3))]),
];

const BYTES: &[(u8, &[Used])] = &[
    (39, &[Used(0, &[&[(0, 0)], &[(0, 0)]], &[], Some(1))]),
    (39, &[Used(0, &[&[(0, 0)], &[(0, 0)]], &[], None)]),
    (39, &[Used(2, &[], &[0], None)]),
    (39, &[Used(2, &[], &[0], Some(0))]),
    (39, &[Used(2, &[], &[0], Some(2))]),
    (39, &[Used(2, &[], &[0], Some(4))]),
    (39, &[Used(2, &[], &[0], Some(7))]),
    (39, &[Used(2, &[], &[0], Some(9))]),
];

/// Several rules are broken, also in another effect of the layer: the least number is told.
const ORDER: &[(u8, &[Used])] = &[
    (37, &[Used(0, &[&[(0, 9)], &[(0, 0)]], &[9], None)]),
    (38, &[Used(0, &[&[(0, 0)], &[(0, 0)]], &[9], None)]),
    (37, &[Used(2, &[], &[9], None), Used(1, &[], &[], Some(0))]),
    (38, &[Used(2, &[], &[0], None), Used(2, &[], &[3], Some(3))]),
    (
        39,
        &[Used(2, &[], &[0], Some(3)), Used(2, &[], &[0], Some(9))],
    ),
    (23, &[Used(0, &[&[(864001, 9)], &[(0, 0)]], &[], Some(0))]),
    (
        35,
        &[Used(0, &[&[(0, 0)], &[(1, 0), (1, 9)]], &[], Some(0))],
    ),
    (
        35,
        &[Used(9, &[&[(0, 0)], &[(0, 0)], &[(1, 0), (0, 0)]], &[], Some(0))],
    ),
];

#[test]
fn effects_keep_the_rules(rt: HostRuntime) -> Result<(), Fail> {
    let alloc = rt.alloc();
    keeps(&rt, alloc, KEPT)?;
    refuses(&rt, alloc, PARAMS)?;
    refuses(&rt, alloc, LAYERS)?;
    refuses(&rt, alloc, BYTES)?;
    refuses(&rt, alloc, ORDER)
}

const RANGED: Used = Used(0, &[&[(0, 0)], &[(0, 0)]], &[], Some(0));

const MAPPED: Used = Used(2, &[], &[0], Some(3));

/// An effect of kind 0 whose first parameter has so many keyframes, each a tick of this scale behind the one before.
fn long(alloc: Global, count: i32, scale: u32) -> Result<Collection<PlainFx>, AllocError> {
    let mut used = fx(alloc, &RANGED)?;
    let mut keys = Vec::new(alloc);
    for tick in 0..count {
        keys.push(Keyframe {
            time: Time { value: tick, scale },
            value: 1,
            kind: Ease::Hold,
        })?;
    }
    let other = Collection::from_vec(vec![in alloc;
        Keyframe {
            time: Time { value: 0, scale },
            value: 1,
            kind: Ease::Hold
        },
    ]?);
    used.params = Collection::from_vec(vec![in alloc; Collection::from_vec(keys), other]?);
    Ok(Collection::from_vec(vec![in alloc; used]?))
}

/// So many effects of kind 2.
fn several(alloc: Global, count: usize) -> Result<Collection<PlainFx>, AllocError> {
    let mut effects = Vec::new(alloc);
    for _effect in 0..count {
        effects.push(fx(alloc, &MAPPED)?)?;
    }
    Ok(Collection::from_vec(effects))
}

#[test]
fn effects_and_keyframes_are_counted(rt: HostRuntime) -> Result<(), Fail> {
    let alloc = rt.alloc();
    assert!(rt; plain(alloc, several(alloc, 8)?)?.is_formed());
    assert!(rt; !plain(alloc, several(alloc, 9)?)?.is_formed());
    assert!(rt; plain(alloc, long(alloc, 4096, 24)?)?.is_formed());
    assert!(rt; !plain(alloc, long(alloc, 4097, 24)?)?.is_formed());
    assert!(rt; !plain(alloc, long(alloc, 0, 24)?)?.is_formed());
    assert!(rt; !plain(alloc, long(alloc, 1, 0)?)?.is_formed());
    Ok(())
}

#[test]
fn effects_have_the_base_and_the_set_of_their_project(rt: HostRuntime) -> Result<(), Fail> {
    let alloc = rt.alloc();
    let schemas = schemas(alloc)?;
    let broken = |rule, comp, layer| CheckError::RuleBroken { rule, comp, layer };
    let large = made(alloc, long(alloc, 1, 2147483647)?, &schemas)?;
    assert_eq!(rt; large.err(), Some(broken(25, None, None)));
    let mut project = made(alloc, long(alloc, 3, 48)?, &schemas)?.map_err(|_| "a project")?;
    assert_eq!(rt; project.base.ticks, 48);
    assert_eq!(rt; check(alloc, &project, &schemas).err(), None);
    assert_eq!(rt;
        check(alloc, &project, &[]).err(),
        Some(broken(37, Some(1), Some(1)))
    );
    project.base = TimeBase { ticks: 96 };
    assert_eq!(rt;
        check(alloc, &project, &schemas).err(),
        Some(broken(25, None, None))
    );
    Ok(())
}
