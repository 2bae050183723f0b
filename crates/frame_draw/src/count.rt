//! How often a frame uses what its compositions show.
ghost use Rattle.std.specs.Prelude.{◌<◌, length};
ghost use Rattle.scene_meaning.specs.Parts.{IsCompOf, IsLayerIn, IsLayerOf};

use crate::layers::{has_matte, is_in_time, is_seen, serves_as_matte, since_start};
use crate::planes::{Use, add_use};
use host_io::Memory;
use project_model::{Comp, Item, Layer};
use rational_time::Tick;
use scene_meaning::{Scene, base_of, comp_at, layer_at};

/// Notes the uses that a composition makes of others at a tick, and those that these make in turn, each once.
#[cycle(count)]
pub(crate) fn count_uses(
    scene: &Scene,
    uses: &mut Vec<Use>,
    index: u32,
    tick: Tick,
) -> Result<(), Memory>
    requires { index < length scene.now.project.comps }
{
    let base = base_of(scene);
    let comp = comp_at(scene, index);
    if !is_in_time(base, comp, tick) {
        return Ok(());
    }
    for at in 0..comp.layers.as_slice().len() {
        let layer = layer_at(scene, index, at);
        if is_seen(base, comp, layer, tick) && !serves_as_matte(comp, at) {
            count_layer(scene, uses, index, comp, layer, tick)?;
            if at > 0 && has_matte(layer) {
                let above = layer_at(scene, index, at - 1);
                if is_seen(base, comp, above, tick) {
                    count_layer(scene, uses, index, comp, above, tick)?;
                }
            }
        }
    }
    Ok(())
}

// Notes the use of a layer's source at a tick, and of the sources of the layers that its effects name.
#[cycle(count)]
fn count_layer(
    scene: &Scene,
    uses: &mut Vec<Use>,
    of: u32,
    comp: &Comp,
    layer: &Layer,
    tick: Tick,
) -> Result<(), Memory>
    requires layer { IsLayerIn scene.now.project of comp.now layer.now }
{
    count_source(scene, uses, layer, tick)?;
    for fx in layer.effects.as_slice() {
        for named in fx.layers.as_slice() {
            let named = *named as usize;
            if named < comp.layers.as_slice().len() {
                count_source(scene, uses, layer_at(scene, of, named), tick)?;
            }
        }
    }
    Ok(())
}

// Notes the use of a layer's source at a tick.
#[cycle(count)]
fn count_source(scene: &Scene, uses: &mut Vec<Use>, layer: &Layer, tick: Tick) -> Result<(), Memory>
    requires { IsLayerOf scene.now.project layer.now }
{
    if let Item::Comp(index) = layer.source {
        let since = since_start(base_of(scene), layer, tick);
        if add_use(uses, index, since)? {
            count_uses(scene, uses, index, since)?;
        }
    }
    Ok(())
}
