//! The ranks of a composition's nodes, where the stacks of all compositions have these ranks.

ghost use Rattle.std.specs.Prelude.{◌≡◌, ℕ, ◌+◌, ◌<◌, ◌≤◌, ◌^◌, length, slice_index_or, IfOk};
ghost use Rattle.std.specs.List.{All};
ghost use Rattle.project_model.specs.Bounds.{most_effects};
ghost use Rattle.project_model.specs.Nesting.{source_rank, source_rank_at, fx_rank, layer_ranks, last_rank, rank_over};

use crate::{Item, PlainFx, PlainLayer};
use host_io::Memory;
use std::alloc::Global;

/// The rank of the stack of these layers.
pub fn rank_over(layers: &[PlainLayer], ranks: &[u32]) -> u32
    requires small { (index : ℕ) → slice_index_or ranks.now index 1 < 2 ^ 16 }
    requires few { All (λ layer. length layer.effects ≤ most_effects) layers.now }
    ensures { result ≡ rank_over (λ index. slice_index_or ranks.now index 1) layers.now }
{
    let mut greatest = 0;
    for layer in layers {
        greatest = greatest.max(last_rank(layers, layer, ranks));
    }
    1 + greatest
}

/// The rank of the last node of a layer among these.
pub fn last_rank(layers: &[PlainLayer], layer: &PlainLayer, ranks: &[u32]) -> u32
    requires small { (index : ℕ) → slice_index_or ranks.now index 1 < 2 ^ 16 }
    requires few { length layer.now.effects ≤ most_effects }
    ensures value { result ≡ last_rank (λ index. slice_index_or ranks.now index 1) layers.now layer.now }
    ensures bound { result ≤ 2 ^ 17 }
{
    let mut rank = source_rank(layer.source, ranks);
    for fx in layer.effects.as_slice() {
        rank = fx_rank(layers, rank, fx, ranks);
    }
    rank
}

/// The ranks of the nodes of a layer among these.
pub fn layer_ranks(
    alloc: Global,
    layers: &[PlainLayer],
    layer: &PlainLayer,
    ranks: &[u32],
) -> Result<Vec<u32>, Memory>
    requires small { (index : ℕ) → slice_index_or ranks.now index 1 < 2 ^ 16 }
    requires few { length layer.now.effects ≤ most_effects }
    ensures { IfOk result (λ nodes. nodes.items ≡ layer_ranks (λ index. slice_index_or ranks.now index 1) layers.now layer.now) }
{
    let mut nodes = Vec::new(alloc);
    let mut rank = source_rank(layer.source, ranks);
    nodes.push(rank)?;
    for fx in layer.effects.as_slice() {
        rank = fx_rank(layers, rank, fx, ranks);
        nodes.push(rank)?;
    }
    Ok(nodes)
}

// The rank of an effect, where its input has this rank.
fn fx_rank(layers: &[PlainLayer], input: u32, fx: &PlainFx, ranks: &[u32]) -> u32
    requires small { (index : ℕ) → slice_index_or ranks.now index 1 < 2 ^ 16 }
    requires input { input ≤ 2 ^ 17 }
    ensures { result ≡ fx_rank (λ index. slice_index_or ranks.now index 1) layers.now input fx.now }
{
    let mut greatest = input;
    for index in fx.layers.as_slice() {
        greatest = greatest.max(source_rank_at(layers, *index, ranks));
    }
    1 + greatest
}

// The rank of the source of the layer of this index, 0 where there is none.
fn source_rank_at(layers: &[PlainLayer], index: u32, ranks: &[u32]) -> u32
    requires { (index : ℕ) → slice_index_or ranks.now index 1 < 2 ^ 16 }
    ensures value { result ≡ source_rank_at (λ index. slice_index_or ranks.now index 1) layers.now index }
    ensures bound { result ≤ 2 ^ 16 }
{
    match layers.get(index as usize) {
        Some(layer) => source_rank(layer.source, ranks),
        None => 0,
    }
}

// The rank of a source.
fn source_rank(source: Item, ranks: &[u32]) -> u32
    requires { (index : ℕ) → slice_index_or ranks.now index 1 < 2 ^ 16 }
    ensures value { result ≡ source_rank (λ index. slice_index_or ranks.now index 1) source }
    ensures bound { result ≤ 2 ^ 16 }
{
    match source {
        Item::Comp(nested) => 1 + rank_at(ranks, nested),
        _ => 0,
    }
}

// What the list says of the composition; one that is not there has no layers.
fn rank_at(ranks: &[u32], index: u32) -> u32
    ensures { result ≡ slice_index_or ranks.now index 1 }
{
    ranks.get(index as usize).copied().unwrap_or(1)
}
