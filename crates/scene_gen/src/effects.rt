//! The uses of effects that are drawn.

ghost use Rattle.std.specs.Prelude.{◌≡◌, ◌≤◌, length, map, IfOk, OnOk};
ghost use Rattle.std.specs.List.{All};
ghost use Rattle.project_model.specs.Plain.{plain_fx};
ghost use Rattle.scene_gen.specs.Draws.{draw, several};
ghost use Rattle.scene_gen.specs.Layers.{drawn_sequence, drawn_effect, drawn_effects};
ghost use Rattle.scene_gen.specs.Streams.{IsMade};

use crate::draws::Generator;
use crate::kinds::{KIND_COUNT, layers_of, ranges_of, unit_of};
use host_io::Memory;
use project_model::{Collection, FxUse};
use std::alloc::Global;

impl Generator {
    /// One use of an effect, or none, in a composition of so many layers.
    #[tactic(auto, unfolding(crate::specs::Layers::drawn_effects))]
    pub fn effects(&mut self, alloc: Global, count: u32) -> Result<Vec<FxUse>, Memory>
        requires { 1 ≤ count }
        ensures effects { IfOk result (λ uses. map plain_fx uses.items ≡ (drawn_effects count self.old.state).value) }
        ensures state { OnOk result (self.new.state ≡ (drawn_effects count self.old.state).state) }
        ensures made { IfOk result (λ uses. All (λ fx. All IsMade fx.params) uses.items) }
        ensures few { IfOk result (λ uses. length uses.items ≤ 1) }
    {
        let mut uses = Vec::new(alloc);
        for _ in 0..self.draw(2) {
            uses.push(self.effect(alloc, count)?)?;
        }
        Ok(uses)
    }

    // A use of an effect.
    #[tactic(auto, unfolding(crate::specs::Layers::drawn_effect))]
    fn effect(&mut self, alloc: Global, count: u32) -> Result<FxUse, Memory>
        requires { 1 ≤ count }
        ensures fx { IfOk result (λ fx. plain_fx fx ≡ (drawn_effect count self.old.state).value) }
        ensures state { OnOk result (self.new.state ≡ (drawn_effect count self.old.state).state) }
        ensures made { IfOk result (λ fx. All IsMade fx.params) }
    {
        let kind = self.draw(KIND_COUNT);
        let params = self.params(alloc, ranges_of(kind))?;
        let layers = self.indices(alloc, layers_of(kind), count)?;
        let sequence = self.sequence(alloc, unit_of(kind))?;
        Ok(FxUse {
            kind: kind as u16,
            params: Collection::from_vec(params),
            layers: Collection::from_vec(layers),
            sequence: Collection::from_vec(sequence),
        })
    }

    // So many indices of a composition's layers.
    fn indices(&mut self, alloc: Global, wanted: u32, count: u32) -> Result<Vec<u32>, Memory>
        requires { 1 ≤ count }
        ensures indices { IfOk result (λ indices. indices.items ≡ (several (λ _. draw count) wanted self.old.state).value) }
        ensures state { OnOk result (self.new.state ≡ (several (λ _. draw count) wanted self.old.state).state) }
    {
        let mut indices = Vec::new(alloc);
        for _ in 0..wanted {
            indices.push(self.draw(count))?;
        }
        Ok(indices)
    }

    // Sequence data: from 2 to 8 entries of so many bytes, and no bytes where an entry has none.
    #[tactic(auto, unfolding(crate::specs::Layers::drawn_sequence))]
    fn sequence(&mut self, alloc: Global, unit: u32) -> Result<Vec<u8>, Memory>
        requires { unit ≤ 3 }
        ensures sequence { IfOk result (λ bytes. bytes.items ≡ (drawn_sequence unit self.old.state).value) }
        ensures state { OnOk result (self.new.state ≡ (drawn_sequence unit self.old.state).state) }
    {
        if unit == 0 {
            return Ok(Vec::new(alloc));
        }
        let entries = 2 + self.draw(7);
        self.bytes(alloc, unit * entries)
    }

    // So many bytes.
    fn bytes(&mut self, alloc: Global, wanted: u32) -> Result<Vec<u8>, Memory>
        ensures bytes { IfOk result (λ bytes. bytes.items ≡ (several (λ _. draw 256) wanted self.old.state).value) }
        ensures state { OnOk result (self.new.state ≡ (several (λ _. draw 256) wanted self.old.state).state) }
    {
        let mut bytes = Vec::new(alloc);
        for _ in 0..wanted {
            bytes.push(self.draw(256) as u8)?;
        }
        Ok(bytes)
    }
}
