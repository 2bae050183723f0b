//! The keys under which a cache keeps what it has of a scene.
ghost use Rattle.std.specs.Prelude.{◌≡◌, ◌<◌};
ghost use Rattle.scene_meaning.specs.Keys.{key_in};

use rational_time::Tick;

/// The key of a class, a node's number, an ask and a tick: the number whose 16 bytes, the highest first, are one for the class, four for
/// the node, three for the ask, and eight for the tick with 2^63 added. The ask is below 16,777,216.
pub fn key_of(class: u8, node: u32, ask: u32, tick: Tick) -> u128
    requires { ask < 16777216 }
    ensures { result ≡ key_in class node ask tick.0 }
{
    let raised = (i128::from(tick.0) + (1 << 63)) as u128;
    let node = (u128::from(class) << 32) + u128::from(node);
    (((node << 24) + u128::from(ask)) << 64) + raised
}
