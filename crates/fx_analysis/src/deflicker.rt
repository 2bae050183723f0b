ghost use Rattle.std.specs.Prelude.{◌≡◌, ◌≤◌, ◌<◌, ◌+◌, ◌*◌, ◌^◌, ◌==◌, ◌||◌, min, length, map, IfOk, OnOk, if◌then◌else◌};
ghost use Rattle.std.specs.List.{range_with_len};
ghost use Rattle.argb_pixel.specs.Depth.{IsDepth};
ghost use Rattle.argb_world.specs.Picture.{at, SameExtentAndPart};
ghost use Rattle.effect_api.specs.Effects.{Shows};
ghost use Rattle.fx_analysis.specs.Formulas.{relit};
ghost use Rattle.fx_analysis.specs.Counts.{scaled_to, scaled_by};

use crate::levels::less;
use crate::light::Light;
use argb_pixel::Pixel;
use argb_world::World;
use fx_color::{Recolor, recolor_world};
use host_io::Memory;
use std::alloc::Global;

/// Each colour becomes what a table says for it, at most alpha. The table has a number for each colour from 0 to `MAX`.
#[derive(Debug, Drop)]
pub struct Deflicker<const MAX: u32> {
    pub table: Vec<u32>,
    pub ghost whole: { length table.items ≡ MAX + 1 },
}

// A number divided by another: how often that is in it, and what is left.
#[derive(Clone, Copy)]
struct Quotient {
    part: u128,
    rest: u128,
}

// A quotient, held to the greatest colour.
fn held<const MAX: u32>(part: u128) -> u32
    ensures { result ≡ min part MAX }
{
    if part < MAX as u128 { part as u32 } else { MAX }
}

// The quotient of a sum, by those of both terms.
fn sum(first: Quotient, second: Quotient, over: u128) -> Quotient
    requires first { first.rest < over }
    requires second { second.rest < over }
    requires few { first.part + second.part < 2 ^ 127 }
    ensures whole { result.part * over + result.rest ≡ (first.part * over + first.rest) + (second.part * over + second.rest) }
    ensures left { result.rest < over }
{
    let part = first.part + second.part;
    let room = over - second.rest;
    if first.rest < room {
        Quotient {
            part,
            rest: first.rest + second.rest,
        }
    } else {
        Quotient {
            part: part + 1,
            rest: first.rest - room,
        }
    }
}

// Each colour scaled by `times / over`, and held to the greatest. Only one number is divided: each multiple of it is the one
// before and one more.
fn scaled_table<const MAX: u32>(alloc: Global, times: u128, over: u128) -> Result<Vec<u32>, Memory>
    requires depth { IsDepth MAX }
    requires few { times ≤ 2 ^ 92 }
    requires some { 0 < over }
    ensures { IfOk result (λ table. table.items ≡ map (scaled_to MAX times over) (range_with_len 0 (MAX + 1))) }
{
    let mut table = Vec::with_capacity(alloc, MAX as usize + 1)?;
    let step = Quotient {
        part: times / over,
        rest: times % over,
    };
    let mut scaled = Quotient { part: 0, rest: 0 };
    for c in 0..MAX + 1 {
        table.push(held::<MAX>(scaled.part))?;
        scaled = sum(scaled, step, over);
    }
    Ok(table)
}

impl<const MAX: u32> Deflicker<MAX> {
    /// What scales each colour by `times / over`.
    pub fn new(alloc: Global, times: u128, over: u128) -> Result<Deflicker<MAX>, Memory>
        requires depth { IsDepth MAX }
        requires few { times ≤ 2 ^ 92 }
        requires some { 0 < over }
        ensures { IfOk result (λ rule. rule.table.items ≡ map (scaled_to MAX times over) (range_with_len 0 (MAX + 1))) }
    {
        let table = scaled_table::<MAX>(alloc, times, over)?;
        Ok(Deflicker { table })
    }
}

impl<const MAX: u32> Recolor<MAX> for Deflicker<MAX> {
    ghost recolored = { λ rule. scaled_by rule.table.items };

    fn recolor(&self, pixel: Pixel<MAX>) -> Pixel<MAX>
        requires { IsDepth MAX }
        ensures { result ≡ scaled_by self.now.table.items pixel.entry }
    {
        let a = pixel.a();
        Pixel::of_channels(
            a,
            less(self.table[pixel.r() as usize], a),
            less(self.table[pixel.g() as usize], a),
            less(self.table[pixel.b() as usize], a),
        )
    }
}

// What a colour is multiplied by and divided by, both 1 where the pixel stays.
fn scale_between(all: Light, middle: Light) -> (u128, u128)
    requires luma { all.luma ≤ 2 ^ 48 }
    requires middle_alpha { middle.alpha ≤ 2 ^ 44 }
    ensures times { result.0 ≡ if middle.luma == 0 || all.alpha == 0 then 1 else all.luma * middle.alpha }
    ensures over { result.1 ≡ if middle.luma == 0 || all.alpha == 0 then 1 else all.alpha * middle.luma }
    ensures few { result.0 ≤ 2 ^ 92 }
    ensures some { 0 < result.1 }
{
    if middle.luma == 0 || all.alpha == 0 {
        (1, 1)
    } else {
        (
            all.luma as u128 * middle.alpha as u128,
            all.alpha as u128 * middle.luma as u128,
        )
    }
}

/// Each point of the target's part becomes what Deflicker makes of the other picture's pixel there, by the light of all frames
/// around and of the middle one: alpha stays, and each colour `c` becomes `floor(c*L*A0 / (A*L0))`, at most alpha, with the
/// luma `L` and alpha `A` of all, and `L0` and `A0` of the middle. The pixel stays where `L0` or `A` is 0. It takes memory for a
/// row and for a number a colour. This project's own.
pub fn deflicker_world<const MAX: u32>(
    alloc: Global,
    all: Light,
    middle: Light,
    from: &World<MAX>,
    target: &mut World<MAX>,
) -> Result<(), Memory>
    requires depth { IsDepth MAX }
    requires luma { all.luma ≤ 2 ^ 48 }
    requires middle_alpha { middle.alpha ≤ 2 ^ 44 }
    ensures frame { SameExtentAndPart target.old target.new }
    ensures drawn { OnOk result (Shows target.old.part (λ x y. relit all.luma all.alpha middle.luma middle.alpha (at from.now x y)) target.new) }
{
    let _part = from.part();
    let (times, over) = scale_between(all, middle);
    let rule = Deflicker::new(alloc, times, over)?;
    recolor_world(alloc, &rule, from, target)
}
