//! The layers that are drawn.

ghost use Rattle.std.specs.Prelude.{◌≡◌, ◌≤◌, ◌<◌, ◌^◌, length, map, Some, IfOk, OnOk, slice_get};
ghost use Rattle.std.specs.List.{All};
ghost use Rattle.transfer_mode.specs.Names.{modes};
ghost use Rattle.track_matte.specs.Names.{mattes};
ghost use Rattle.project_model.specs.Plain.{plain_layer};
ghost use Rattle.project_model.specs.Ready.{IsBasedLayer};
ghost use Rattle.scene_gen.specs.Layers.{drawn_solid, drawn_source, drawn_start, drawn_mode, drawn_matte, drawn_layer, drawn_layers, layer_count};

use crate::draws::Generator;
use crate::streams::ZERO;
use host_io::Memory;
use project_model::{Collection, Item, Layer};
use rational_time::Time;
use std::alloc::Global;
use track_matte::Matte;
use transfer_mode::Mode;

/// How many layers a composition of a generated project has.
pub fn layer_count(comp: u32) -> u32
    ensures { result ≡ layer_count comp }
{
    if comp == 0 { 4 } else { 8 }
}

impl Generator {
    /// The layers of a composition, from the topmost on, where a channel is at most `most`.
    #[tactic(auto, unfolding(crate::specs::Layers::drawn_layers))]
    pub fn layers(&mut self, alloc: Global, most: u32, comp: u32) -> Result<Vec<Layer>, Memory>
        requires low { 2 ≤ most }
        requires high { most < 2 ^ 16 }
        ensures layers { IfOk result (λ layers. map plain_layer layers.items ≡ (drawn_layers most comp self.old.state).value) }
        ensures state { OnOk result (self.new.state ≡ (drawn_layers most comp self.old.state).state) }
        ensures based { IfOk result (λ layers. All (IsBasedLayer 30000) layers.items) }
        ensures count { IfOk result (λ layers. length layers.items ≡ layer_count comp) }
    {
        let mut layers = Vec::new(alloc);
        for index in 0..layer_count(comp) {
            layers.push(self.layer(alloc, most, comp, index)?)?;
        }
        Ok(layers)
    }

    // A layer, by its number in its composition.
    #[tactic(auto, unfolding(crate::specs::Layers::drawn_layer))]
    fn layer(&mut self, alloc: Global, most: u32, comp: u32, index: u32) -> Result<Layer, Memory>
        requires low { 2 ≤ most }
        requires high { most < 2 ^ 16 }
        ensures layer { IfOk result (λ layer. plain_layer layer ≡ (drawn_layer most comp index self.old.state).value) }
        ensures state { OnOk result (self.new.state ≡ (drawn_layer most comp index self.old.state).state) }
        ensures based { IfOk result (IsBasedLayer 30000) }
    {
        let source = self.source(most, comp, index);
        let start = self.start();
        let mode = self.mode();
        let matte = self.matte(index);
        let opacity = self.opacity(alloc)?;
        let x = self.x(alloc)?;
        let y = self.y(alloc)?;
        let effects = self.effects(alloc, layer_count(comp))?;
        Ok(Layer {
            source,
            start,
            in_point: ZERO,
            out_point: None,
            mode,
            matte,
            opacity,
            x,
            y,
            effects: Collection::from_vec(effects),
        })
    }

    // What a layer shows.
    #[tactic(auto, unfolding(crate::specs::Layers::drawn_source))]
    fn source(&mut self, most: u32, comp: u32, index: u32) -> Item
        requires low { 2 ≤ most }
        requires high { most < 2 ^ 16 }
        ensures value { result ≡ (drawn_source most comp index self.old.state).value }
        ensures state { self.new.state ≡ (drawn_source most comp index self.old.state).state }
    {
        if comp == 1 && (index == 3 || index == 6) {
            Item::Comp(0)
        } else {
            self.solid(most)
        }
    }

    // A solid.
    #[tactic(auto, unfolding(crate::specs::Layers::drawn_solid))]
    fn solid(&mut self, most: u32) -> Item
        requires low { 2 ≤ most }
        requires high { most < 2 ^ 16 }
        ensures value { result ≡ (drawn_solid most self.old.state).value }
        ensures state { self.new.state ≡ (drawn_solid most self.old.state).state }
    {
        let width = 8 + self.draw(64);
        let height = 8 + self.draw(48);
        let a = most - self.draw(most / 2);
        let r = self.draw(a + 1);
        let g = self.draw(a + 1);
        let b = self.draw(a + 1);
        Item::Solid {
            width,
            height,
            a,
            r,
            g,
            b,
        }
    }

    // When a layer starts.
    #[tactic(auto, unfolding(crate::specs::Layers::drawn_start))]
    fn start(&mut self) -> Time
        ensures value { result ≡ (drawn_start self.old.state).value }
        ensures state { self.new.state ≡ (drawn_start self.old.state).state }
        ensures scale { result.scale ≡ 24 }
    {
        Time {
            value: self.draw(4) as i32,
            scale: 24,
        }
    }

    // How a layer lies over what is below it.
    #[tactic(auto, unfolding(crate::specs::Layers::drawn_mode))]
    fn mode(&mut self) -> Mode
        ensures value { Some result ≡ (drawn_mode self.old.state).value }
        ensures state { self.new.state ≡ (drawn_mode self.old.state).state }
    {
        mode_of_number(self.draw(17))
    }

    // What of the layer above lets a layer through.
    #[tactic(auto, unfolding(crate::specs::Layers::drawn_matte))]
    fn matte(&mut self, index: u32) -> Matte
        ensures value { Some result ≡ (drawn_matte index self.old.state).value }
        ensures state { self.new.state ≡ (drawn_matte index self.old.state).state }
    {
        if index % 2 == 0 {
            Matte::None
        } else {
            matte_of_number(self.draw(5))
        }
    }
}

// A mode by its place in the order of the modes, among those that lay a source over a destination.
fn mode_of_number(number: u32) -> Mode
    requires { number < 17 }
    ensures { Some result ≡ slice_get modes number }
{
    match number {
        0 => Mode::Normal,
        1 => Mode::Multiply,
        2 => Mode::Screen,
        3 => Mode::Darken,
        4 => Mode::Lighten,
        5 => Mode::Difference,
        6 => Mode::Exclusion,
        7 => Mode::Add,
        8 => Mode::Subtract,
        9 => Mode::LinearBurn,
        10 => Mode::HardLight,
        11 => Mode::Overlay,
        12 => Mode::LinearLight,
        13 => Mode::PinLight,
        14 => Mode::HardMix,
        15 => Mode::ColorDodge,
        16 => Mode::ColorBurn,
        _ => unreachable!(),
    }
}

// A kind of matte by its place in the order of the kinds.
fn matte_of_number(number: u32) -> Matte
    requires { number < 5 }
    ensures { Some result ≡ slice_get mattes number }
{
    match number {
        0 => Matte::None,
        1 => Matte::Alpha,
        2 => Matte::AlphaInverted,
        3 => Matte::Luma,
        4 => Matte::LumaInverted,
        _ => unreachable!(),
    }
}
