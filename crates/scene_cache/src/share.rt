ghost use Rattle.std.specs.Prelude.{◌≡◌, ◌<◌};
ghost use Rattle.project_model.specs.Plain.{plain_of};
ghost use Rattle.scene_meaning.specs.Nodes.{HasNode, IsOfLayer};
ghost use Rattle.scene_cache.specs.Sharing.{key_of_share};

use project_model::NodeId;
use rational_time::Tick;
use scene_meaning::{Scene, key_of};

/// A value that passes share: under class 0 the plane of a source or an effect of a scene at a tick, and under a class of the effect
/// set what that class answers a question of over that plane.
#[derive(Clone, Copy, Debug, PartialEq, Eq)]
pub struct Share {
    pub class: u8,
    pub node: NodeId,
    pub ask: u32,
    pub tick: Tick,
}

impl Share {
    /// The key under which a cache keeps it.
    pub(crate) fn key(&self, scene: &Scene) -> u128
        requires node { HasNode (plain_of scene.now.project) self.now.node }
        requires layer { IsOfLayer self.now.node }
        requires ask { self.now.ask < 16777216 }
        ensures { result ≡ key_of_share (plain_of scene.now.project) self.now }
    {
        key_of(
            self.class,
            scene.node_number(self.node),
            self.ask,
            self.tick,
        )
    }
}
