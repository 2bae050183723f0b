ghost use Rattle.std.specs.Prelude.{◌≡◌, ℕ, ◌<◌, ◌^◌, map, slice_index_or, IfOk};
ghost use Rattle.std.specs.List.{All};
ghost use Rattle.project_model.specs.Form.{IsFormedComp, IsFormedLayer};
ghost use Rattle.project_model.specs.Nesting.{layer_ranks};
ghost use Rattle.project_model.specs.Nodes.{node_rank_in, rank_in};

use crate::node_ranks::layer_ranks;
use crate::{Collection, NodeId, PlainComp, PlainLayer, PlainProject};
use host_io::Memory;
use std::alloc::Global;
use std::marker::Model;

/// The rank of each node of a project, which is above the ranks of all that the node is drawn from: 0 for the source of a solid
/// or a clip, one more than that of its stack for a nested composition, for an effect one more than the greatest of its input and of
/// the sources of the layers that it names, and for a stack one more than the greatest of its layers' last nodes, or 1 where it has
/// none.
#[derive(Debug, Drop)]
pub struct Ranks {
    pub(crate) stacks: Collection<u32>,
    pub(crate) nodes: Collection<Collection<Collection<u32>>>,
}

impl Model for Ranks {
    ghost use Rattle.project_model.specs.Nesting.{RankTable};

    ghost Value = { RankTable };

    ghost view = { λ r. record { stacks = r.stacks; nodes = r.nodes } };
}

impl Ranks {
    /// The rank of a node, 0 where the project has no such node. It takes no memory.
    pub fn of(&self, node: NodeId) -> u32
        ensures { result ≡ rank_in self.now node }
    {
        match node {
            NodeId::Source { comp, layer } => self.node_rank(comp, layer, 0),
            NodeId::Fx { comp, layer, index } => self.node_rank(comp, layer, index as usize + 1),
            NodeId::Stack { comp } => rank_at(self.stacks.as_slice(), comp as usize),
        }
    }

    // The rank of the node behind so many effects of the layer.
    fn node_rank(&self, comp: u32, layer: u32, before: usize) -> u32
        ensures { result ≡ node_rank_in self.now comp layer before }
    {
        let Some(layers) = self.nodes.as_slice().get(comp as usize) else {
            return 0;
        };
        let Some(nodes) = layers.as_slice().get(layer as usize) else {
            return 0;
        };
        rank_at(nodes.as_slice(), before)
    }
}

// What the list says, if anything.
fn rank_at(ranks: &[u32], index: usize) -> u32
    ensures { result ≡ slice_index_or ranks.now index 0 }
{
    ranks.get(index).copied().unwrap_or(0)
}

/// The table, where the stacks of the project's compositions have these ranks.
pub fn ranks_of(alloc: Global, project: &PlainProject, stacks: Vec<u32>) -> Result<Ranks, Memory>
    requires small { (index : ℕ) → slice_index_or stacks.items index 1 < 2 ^ 16 }
    requires formed { All IsFormedComp project.now.comps }
    ensures { IfOk result (λ ranks. ranks ≡ record {
      stacks = stacks.items;
      nodes = map (λ comp. map (layer_ranks (λ index. slice_index_or stacks.items index 1) comp.layers) comp.layers) project.now.comps;
    }) }
{
    let nodes = nodes_of_comps(alloc, project.comps.as_slice(), stacks.as_slice())?;
    Ok(Ranks {
        stacks: Collection::from_vec(stacks),
        nodes: Collection::from_vec(nodes),
    })
}

// The ranks of the nodes of each composition's layers.
fn nodes_of_comps(
    alloc: Global,
    comps: &[PlainComp],
    stacks: &[u32],
) -> Result<Vec<Collection<Collection<u32>>>, Memory>
    requires small { (index : ℕ) → slice_index_or stacks.now index 1 < 2 ^ 16 }
    requires formed { All IsFormedComp comps.now }
    ensures { IfOk result (λ nodes. nodes.items
        ≡ map (λ comp. map (layer_ranks (λ index. slice_index_or stacks.now index 1) comp.layers) comp.layers) comps.now) }
{
    let mut nodes = Vec::new(alloc);
    for comp in comps {
        nodes.push(nodes_of_layers(alloc, comp.layers.as_slice(), stacks)?)?;
    }
    Ok(nodes)
}

// Those of these layers.
fn nodes_of_layers(
    alloc: Global,
    layers: &[PlainLayer],
    stacks: &[u32],
) -> Result<Collection<Collection<u32>>, Memory>
    requires small { (index : ℕ) → slice_index_or stacks.now index 1 < 2 ^ 16 }
    requires formed { All IsFormedLayer layers.now }
    ensures { IfOk result (λ nodes. nodes ≡ map (layer_ranks (λ index. slice_index_or stacks.now index 1) layers.now) layers.now) }
{
    let mut nodes = Vec::new(alloc);
    for layer in layers {
        nodes.push(Collection::from_vec(layer_ranks(alloc, layers, layer, stacks)?))?;
    }
    Ok(Collection::from_vec(nodes))
}
