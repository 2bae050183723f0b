//! The numbers of a scene's nodes.
ghost use Rattle.std.specs.Prelude.{◌≡◌, ◌↔◌, ◌≤◌, ◌<◌, [], length, slice_get, IsTrue};
ghost use Rattle.std.specs.Option.{option_map_or};
ghost use Rattle.project_model.specs.Bounds.{most_layers_in_all};
ghost use Rattle.project_model.specs.Count.{layer_count};
ghost use Rattle.project_model.specs.Nesting.{layers_in};
ghost use Rattle.project_model.specs.Plain.{plain_comp, plain_of};
ghost use Rattle.scene_meaning.specs.Keys.{layer_number, node_number};
ghost use Rattle.scene_meaning.specs.Nodes.{HasNode, IsOfLayer, effects_in};

use crate::Scene;
use project_model::{Comp, NodeId, Project};

impl Scene {
    /// Whether the scene has the node.
    pub fn has_node(&self, node: NodeId) -> bool
        ensures { IsTrue result ↔ HasNode (plain_of self.now.project) node }
    {
        match node {
            NodeId::Source { comp, layer } => (layer as usize) < layers_of(self.project(), comp),
            NodeId::Fx { comp, layer, index } => {
                (index as usize) < effects_of(self.project(), comp, layer)
            }
            NodeId::Stack { comp } => (comp as usize) < self.project().comps.as_slice().len(),
        }
    }

    /// The number of the source of a layer, or of an effect of one, by which keys name it: nine numbers for each layer of all
    /// compositions in order, the first of which is its source's.
    pub fn node_number(&self, node: NodeId) -> u32
        requires node { HasNode (plain_of self.now.project) node }
        requires layer { IsOfLayer node }
        ensures { result ≡ node_number (plain_of self.now.project) node }
    {
        match node {
            NodeId::Source { comp, layer } => 9 * number_of_layer(self.project(), comp, layer),
            NodeId::Fx { comp, layer, index } => {
                9 * number_of_layer(self.project(), comp, layer) + (index + 1)
            }
            NodeId::Stack { .. } => 0,
        }
    }
}

// How many layers the composition of an index has, 0 where there is none.
fn layers_of(project: &Project, comp: u32) -> usize
    ensures { result ≡ length (layers_in (plain_of project.now) comp) }
{
    match project.comps.as_slice().get(comp as usize) {
        Some(here) => here.layers.as_slice().len(),
        None => 0,
    }
}

// How many effects the layer of these indices has, 0 where there is none.
fn effects_of(project: &Project, comp: u32, layer: u32) -> usize
    ensures { result ≡ length (effects_in (plain_of project.now) comp layer) }
{
    match project.comps.as_slice().get(comp as usize) {
        Some(here) => effects_at(here, layer),
        None => 0,
    }
}

// How many effects the layer of an index has, 0 where there is none.
fn effects_at(comp: &Comp, layer: u32) -> usize
    ensures { result ≡ length (option_map_or (λ here. here.effects) (slice_get (plain_comp comp.now).layers layer) []) }
{
    match comp.layers.as_slice().get(layer as usize) {
        Some(here) => here.effects.as_slice().len(),
        None => 0,
    }
}

// The number of a layer, where those of all compositions are counted in order.
fn number_of_layer(project: &Project, comp: u32, layer: u32) -> u32
    requires { layer < length (layers_in (plain_of project.now) comp) }
    ensures number { result ≡ layer_number (plain_of project.now) comp layer }
    ensures few { result < most_layers_in_all }
{
    count_layers(&project.comps.as_slice()[..comp as usize]) + layer
}

// How many layers these compositions have.
fn count_layers(comps: &[Comp]) -> u32
    requires { layer_count comps.now ≤ most_layers_in_all }
    ensures { result ≡ layer_count comps.now }
{
    let mut count = 0;
    for comp in comps {
        count += comp.layers.as_slice().len() as u32;
    }
    count
}
