ghost use Rattle.std.specs.Prelude.{◌≡◌, length, IfOk, OnErr, Some};
ghost use Rattle.project_model.specs.Plain.{plain_of};
ghost use Rattle.compute_cache.specs.Suite.{IsAsBefore, IsOf, job_of};
ghost use Rattle.scene_cache.specs.Sharing.{EndsShare, IsBegunShare, IsOwn, IsShare, IsSharing, NeedsValue, level_in, value_of_share};

use crate::share::Share;
use compute_cache::{Begun, Cache, CacheError, ClassId, Keeps, Made, Pass, Receipt, Turn};
use effect_api::{Draw, Value, set_is_lawful};
use host_io::Memory;
use scene_meaning::{Means, Scene, SceneJob, keys_differ, node_numbers_differ, nodes_are_kept};
use std::alloc::Global;
use std::sync::Wait;

/// How a shared value begins: it is there, it is this pass's turn to compute it, or another pass computes it.
pub enum Begin<K: Keeps> {
    Found(Receipt<K>),
    Mine(Turn<K>),
    Theirs,
}

/// Takes a value that is there, or the turn to compute it where it is not. Where another pass computes it, the call waits for that, or
/// says so. The pass computes nothing of its level or below.
pub fn begin_share<'a, R: Wait, E: Draw<MAX>, const MAX: u32>(
    rt: &R,
    alloc: Global,
    scene: &Scene,
    cache: &Cache<SceneJob<'a, E, MAX>>,
    pass: &mut Pass<SceneJob<'a, E, MAX>>,
    share: &Share,
    wait: bool,
) -> Result<Begin<SceneJob<'a, E, MAX>>, Memory>
    requires job { (job_of cache.now).scene.now ≡ scene.now }
    requires share { IsShare (plain_of scene.now.project) (length E.class_names) share.now }
    requires shared { IsSharing (plain_of scene.now.project) (length E.class_names) (level_in (plain_of scene.now.project) share.now.class share.now.node) cache.now pass.old }
    ensures begun { IfOk result (IsBegunShare (⟦<E as Means<MAX>>⟧.scene scene.now) share.now wait cache.now pass.old pass.new) }
    ensures refused { OnErr result (IsAsBefore pass.old pass.new) }
{
    nodes_are_kept();
    keys_differ();
    node_numbers_differ();
    let _project = scene.project();
    let class = ClassId(share.class);
    match cache.begin(rt, alloc, pass, class, share.key(scene), wait) {
        Ok(Begun::Hit(receipt)) => {
            let _right = receipt.value();
            Ok(Begin::Found(receipt))
        }
        Ok(Begun::Turn(turn)) => Ok(Begin::Mine(turn)),
        Err(CacheError::Pending { .. }) => Ok(Begin::Theirs),
        Err(_) => Err(Memory),
    }
}

/// Ends a turn: the value that was computed is put in, and where there was no memory for it the turn is given up.
pub fn end_share<'a, R: Wait, E: Draw<MAX>, const MAX: u32>(
    rt: &R,
    scene: &Scene,
    cache: &Cache<SceneJob<'a, E, MAX>>,
    pass: &mut Pass<SceneJob<'a, E, MAX>>,
    share: &Share,
    turn: Turn<SceneJob<'a, E, MAX>>,
    made: Result<Made<Value<MAX>>, Memory>,
) -> Result<Receipt<SceneJob<'a, E, MAX>>, Memory>
    requires job { (job_of cache.now).scene.now ≡ scene.now }
    requires share { IsShare (plain_of scene.now.project) (length E.class_names) share.now }
    requires own { IsOf cache.now pass.old }
    requires mine { IsOwn (plain_of scene.now.project) share.now cache.now pass.old turn }
    requires right { IfOk made (λ value. value_of_share (⟦<E as Means<MAX>>⟧.scene scene.now) share.now ≡ Some value) }
    ensures ended { EndsShare (⟦<E as Means<MAX>>⟧.scene scene.now) share.now cache.now pass.old pass.new turn.entry result }
    ensures needs { NeedsValue made.entry result }
{
    nodes_are_kept();
    set_is_lawful::<E>();
    let _project = scene.project();
    match made {
        Ok(value) => Ok(cache.finish(rt, pass, turn, value)),
        Err(Memory) => {
            cache.abandon(rt, pass, turn);
            Err(Memory)
        }
    }
}
