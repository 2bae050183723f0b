//! Which compositions reach themselves through those that are nested, and the ranks of their stacks.

ghost use Rattle.std.specs.Prelude.{◌≡◌, ℕ, ◌<◌, ◌≤◌, ◌^◌, false, map, length, slice_index_or, IfOk};
ghost use Rattle.std.specs.List.{All, range_with_len};
ghost use Rattle.project_model.specs.Bounds.{most_comps, most_effects};
ghost use Rattle.project_model.specs.Form.{IsFormed, IsFormedComp};
ghost use Rattle.project_model.specs.Known.{IsKnown, Tells};
ghost use Rattle.project_model.specs.Nesting.{lead_to, nests_or_leads, reaches, last_rank, rank_over, stack_rank};

use crate::node_ranks::{last_rank, rank_over};
use crate::{Item, PlainComp, PlainLayer, PlainProject};
use host_io::Memory;
use std::alloc::Global;

/// Of each composition, whether it reaches itself, and the rank of its stack.
#[derive(Drop)]
pub struct Nesting {
    pub loops: Vec<bool>,
    pub ranks: Vec<u32>,
}

impl Nesting {
    /// Whether the composition of this index reaches itself.
    pub fn is_loop(&self, index: usize) -> bool
        ensures { result ≡ slice_index_or self.now.loops.items index false }
    {
        self.loops.get(index).copied().unwrap_or(false)
    }

    /// The rank of the last node of a layer among these.
    pub fn last_rank(&self, layers: &[PlainLayer], layer: &PlainLayer) -> u32
        requires small { (index : ℕ) → slice_index_or self.now.ranks.items index 1 < 2 ^ 16 }
        requires few { length layer.now.effects ≤ most_effects }
        ensures { result ≡ last_rank (λ index. slice_index_or self.now.ranks.items index 1) layers.now layer.now }
    {
        last_rank(layers, layer, self.ranks.as_slice())
    }
}

/// Those of the project's compositions.
pub fn nesting_of(alloc: Global, project: &PlainProject) -> Result<Nesting, Memory>
    requires { IsFormed project.now }
    ensures known { IfOk result (λ n. IsKnown project.now n.loops.items n.ranks.items) }
    ensures ranks { IfOk result (λ n. n.ranks.items ≡ map (stack_rank project.now) (range_with_len 0 (length project.now.comps))) }
{
    let loops = loops_of(alloc, project)?;
    let ranks = stack_ranks(alloc, project)?;
    Ok(Nesting { loops, ranks })
}

// Whether each composition reaches itself.
fn loops_of(alloc: Global, project: &PlainProject) -> Result<Vec<bool>, Memory>
    requires { length project.now.comps ≤ most_comps }
    ensures { IfOk result (λ loops. Tells loops.items false (λ index. reaches project.now index index)) }
{
    let mut loops = Vec::new(alloc);
    for index in 0..project.comps.as_slice().len() {
        loops.push(reaches_itself(alloc, project, index as u32)?)?;
    }
    Ok(loops)
}

// Whether this one does.
fn reaches_itself(alloc: Global, project: &PlainProject, index: u32) -> Result<bool, Memory>
    ensures { IfOk result (λ reached. reached ≡ reaches project.now index index) }
{
    let comps = project.comps.as_slice();
    let mut leading = Vec::new(alloc);
    for _step in 0..comps.len() {
        leading = leading_by_one_more(alloc, comps, leading.as_slice(), index)?;
    }
    Ok(is_leading(leading.as_slice(), index))
}

// Which compositions lead to the other one, where these lead to it by a step less.
fn leading_by_one_more(
    alloc: Global,
    comps: &[PlainComp],
    leading: &[bool],
    other: u32,
) -> Result<Vec<bool>, Memory>
    ensures { IfOk result (λ more. more.items
        ≡ map (λ comp. lead_to (λ nested. slice_index_or leading.now nested false) other comp.layers) comps.now) }
{
    let mut more = Vec::new(alloc);
    for comp in comps {
        more.push(lead_to(comp.layers.as_slice(), leading, other))?;
    }
    Ok(more)
}

// Whether one of the layers nests the other composition, or one that leads to it.
fn lead_to(layers: &[PlainLayer], leading: &[bool], other: u32) -> bool
    ensures { result ≡ lead_to (λ nested. slice_index_or leading.now nested false) other layers.now }
{
    layers
        .iter()
        .any(|layer| leads_to(layer.source, leading, other))
}

// Whether this item does.
fn leads_to(source: Item, leading: &[bool], other: u32) -> bool
    ensures { result ≡ nests_or_leads (λ nested. slice_index_or leading.now nested false) other source }
{
    match source {
        Item::Comp(nested) => nested == other || is_leading(leading, nested),
        _ => false,
    }
}

// What the list says of the composition, if anything.
fn is_leading(leading: &[bool], index: u32) -> bool
    ensures { result ≡ slice_index_or leading.now index false }
{
    leading.get(index as usize).copied().unwrap_or(false)
}

// The rank of each composition's stack.
fn stack_ranks(alloc: Global, project: &PlainProject) -> Result<Vec<u32>, Memory>
    requires { IsFormed project.now }
    ensures told { IfOk result (λ ranks. Tells ranks.items 1 (stack_rank project.now)) }
    ensures items { IfOk result (λ ranks. ranks.items ≡ map (stack_rank project.now) (range_with_len 0 (length project.now.comps))) }
{
    let comps = project.comps.as_slice();
    let mut ranks = Vec::new(alloc);
    for _turn in 0..comps.len() {
        ranks = ranks_of_one_more(alloc, comps, ranks.as_slice())?;
    }
    Ok(ranks)
}

// The rank of each composition's stack, where those that are nested have these.
fn ranks_of_one_more(alloc: Global, comps: &[PlainComp], ranks: &[u32]) -> Result<Vec<u32>, Memory>
    requires small { (index : ℕ) → slice_index_or ranks.now index 1 < 2 ^ 16 }
    requires formed { All IsFormedComp comps.now }
    ensures { IfOk result (λ more. more.items
        ≡ map (λ comp. rank_over (λ index. slice_index_or ranks.now index 1) comp.layers) comps.now) }
{
    let mut more = Vec::new(alloc);
    for comp in comps {
        more.push(rank_over(comp.layers.as_slice(), ranks))?;
    }
    Ok(more)
}
