ghost use Rattle.std.specs.Prelude.{◌≡◌, ◌<◌, ◌≤◌, ◌++◌, ◌∷◌, [], length, IfOk, IfNone, MatchOption, IsTrue, ◌↔◌};
ghost use Rattle.std.specs.Option.{option_copied};
ghost use Rattle.std.specs.List.{All};
ghost use Rattle.comp_stack.specs.Layers.{plane_of};
ghost use Rattle.effect_api.specs.Planes.{HasSides, plane_at};
ghost use Rattle.effect_api.specs.Checked.{HasWorld, IsNew, planes_of, world_in, world_of, world_with};

use argb_world::World;
use compute_cache::{Keeps, Receipt};
use host_io::Memory;
use project_model::Collection;
use std::alloc::Global;
use std::marker::Model;

/// What a cache keeps for effects: a plane, or the sums of an analysis.
#[derive(Debug, Drop)]
pub enum Value<const MAX: u32> {
    Plane(World<MAX>),
    Sums(Collection<u64>),
}

/// What is kept may be a plane.
pub trait Kept {
    ghost is_plane: { Self → Type 0 };

    /// Whether it is a plane.
    fn is_plane(&self) -> bool
        ensures { IsTrue result ↔ is_plane self.now };
}

impl<const MAX: u32> Kept for Value<MAX> {
    ghost use Rattle.effect_api.specs.Checked.{IsPlaneValue};

    ghost is_plane = { IsPlaneValue };

    fn is_plane(&self) -> bool
        ensures { IsTrue result ↔ IsPlaneValue self.now }
    {
        match self {
            Value::Plane(_) => true,
            Value::Sums(_) => false,
        }
    }
}

/// The pixels of a checked-out plane: drawn for this call, or shared through the cache.
pub type Pixels<const MAX: u32, K> = PixelsOf<World<MAX>, K>;

/// The same, for worlds of any type `W`.
pub enum PixelsOf<W, K: Keeps> {
    Drawn(W),
    Shared(Receipt<K>),
}

/// The pixels that an effect checked out, by their ids. Ids differ, and what is shared is a plane. Since receipts are not to
/// be lost, it ends in `end`, when nothing is left in it.
pub type Checkouts<const MAX: u32, K> = CheckoutsOf<World<MAX>, K>;

/// The same, for worlds of any type `W`.
pub struct CheckoutsOf<W, K: Keeps>
where
    K::Value: Kept,
{
    pairs: Vec<(u32, PixelsOf<W, K>)>,
}

impl<W, K: Keeps> Model for CheckoutsOf<W, K>
where
    K::Value: Kept,
{
    ghost use Rattle.std.specs.Prelude.{vec_capacity};
    ghost use Rattle.effect_api.specs.Checked.{Pairs, IsChecked};

    ghost Value = { Pairs W K K.Value };

    ghost view = { λ c. record { pairs = c.pairs.items; room = vec_capacity c.pairs } };

    ghost invariant = { λ c. IsChecked K.Value.is_plane record { pairs = c.pairs.items; room = vec_capacity c.pairs } };
}

impl<const MAX: u32, K: Keeps<Value = Value<MAX>>> Checkouts<MAX, K> {
    /// No pair, and room for so many.
    pub fn with_room(alloc: Global, pairs: usize) -> Result<Checkouts<MAX, K>, Memory>
        ensures { IfOk result (λ checkouts. (checkouts.pairs ≡ []) × (pairs ≤ checkouts.room)) }
    {
        let pairs = Vec::with_capacity(alloc, pairs)?;
        Ok(CheckoutsOf { pairs })
    }

    /// Adds a pair at the end. There is room, the id is new, and a shared value is a plane.
    pub fn put(&mut self, id: u32, pixels: Pixels<MAX, K>)
        requires room { length self.old.pairs < self.old.room }
        requires fresh { IsNew id self.old.pairs }
        requires plane { HasWorld pixels }
        ensures pairs { self.new.pairs ≡ self.old.pairs ++ (id, pixels) ∷ [] }
        ensures room { self.new.room ≡ self.old.room }
    {
        self.pairs.push_reserved((id, pixels));
    }

    /// The last pair, which is gone from it. None where there is no pair.
    pub fn take(&mut self) -> Option<(u32, Pixels<MAX, K>)>
        ensures last { MatchOption result (self.old.pairs ≡ []) (λ pair. self.old.pairs ≡ self.new.pairs ++ pair ∷ []) }
        ensures none { IfNone result (self.new.pairs ≡ self.old.pairs) }
        ensures room { self.new.room ≡ self.old.room }
    {
        self.pairs.pop()
    }

    /// Gives the emptied value up.
    pub fn end(self)
        requires { self.pairs ≡ [] }
    {
        let CheckoutsOf { pairs } = self;
        pairs.destroy_empty();
    }

    /// The SDK's `checkout_layer_pixels`: the world with the id. None exactly where no pair has the id.
    pub fn checkout_layer_pixels(&self, id: u32) -> Option<&World<MAX>>
        ensures found { option_copied result ≡ world_with id self.now.pairs }
        ensures none { MatchOption result (IsNew id self.now.pairs) (λ _. ¬ IsNew id self.now.pairs) }
    {
        find_world(&self.pairs, id)
    }

    /// The world of a want by its number, where there is a pair for each want, in their order.
    pub fn checkout_want(&self, number: u32) -> &World<MAX>
        requires { number < length self.now.pairs }
        ensures plane { plane_of result.now ≡ plane_at (planes_of self.now.pairs) number }
        ensures near { All (λ pair. HasSides (world_of pair.1).extent) self.now.pairs → HasSides result.now.extent }
    {
        nth_world(&self.pairs, number as usize)
    }
}

// The world of the pair at a place.
fn nth_world<const MAX: u32, K: Keeps<Value = Value<MAX>>>(
    pairs: &[(u32, Pixels<MAX, K>)],
    place: usize,
) -> &World<MAX>
    requires there { place < length pairs.now }
    requires worlds { All (λ pair. HasWorld pair.1) pairs.now }
    ensures plane { plane_of result.now ≡ plane_at (planes_of pairs.now) place }
    ensures near { All (λ pair. HasSides (world_of pair.1).extent) pairs.now → HasSides result.now.extent }
{
    whole_world(&pairs[place].1)
}

// The world of pixels that have one.
fn whole_world<const MAX: u32, K: Keeps<Value = Value<MAX>>>(pixels: &Pixels<MAX, K>) -> &World<MAX>
    requires { HasWorld pixels.now }
    ensures { result.now ≡ world_of pixels.now }
{
    match pixels {
        Pixels::Drawn(world) => world,
        Pixels::Shared(receipt) => match receipt.value() {
            Value::Plane(world) => world,
            Value::Sums(_) => unreachable!(),
        },
    }
}

// The world with the id.
fn find_world<const MAX: u32, K: Keeps<Value = Value<MAX>>>(
    pairs: &[(u32, Pixels<MAX, K>)],
    id: u32,
) -> Option<&World<MAX>>
    ensures { option_copied result ≡ world_with id pairs.now }
{
    for pair in pairs {
        if pair.0 == id {
            return world_in(&pair.1);
        }
    }
    None
}

// The world of pixels.
fn world_in<const MAX: u32, K: Keeps<Value = Value<MAX>>>(
    pixels: &Pixels<MAX, K>,
) -> Option<&World<MAX>>
    ensures { option_copied result ≡ world_in pixels.now }
{
    match pixels {
        Pixels::Drawn(world) => Some(world),
        Pixels::Shared(receipt) => match receipt.value() {
            Value::Plane(world) => Some(world),
            Value::Sums(_) => None,
        },
    }
}
