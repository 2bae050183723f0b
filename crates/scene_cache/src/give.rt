ghost use Rattle.std.specs.Prelude.{◌∷◌, []};
ghost use Rattle.compute_cache.specs.Suite.{IsOf};
ghost use Rattle.scene_cache.specs.Sharing.{AreGivenBack, AreOpenHere, receipt_of, receipts_of};

use compute_cache::{Cache, Keeps, Pass, Receipt};
use effect_api::{Checkouts, Pixels, Value};
use std::sync::Wait;

/// Gives a receipt back, wherever it stands among the open ones.
pub fn checkin_one<R: Wait, K: Keeps>(
    rt: &R,
    cache: &Cache<K>,
    pass: &mut Pass<K>,
    receipt: Receipt<K>,
)
    requires own { IsOf cache.now pass.old }
    requires open { AreOpenHere cache.now pass.old (receipt ∷ []) }
    ensures { AreGivenBack cache.now (receipt ∷ []) pass.old pass.new }
{
    let _number = pass.number();
    cache.checkin(rt, pass, receipt);
}

/// Gives receipts back that were opened one after another.
pub fn checkin_all<R: Wait, K: Keeps>(
    rt: &R,
    cache: &Cache<K>,
    pass: &mut Pass<K>,
    mut receipts: Vec<Receipt<K>>,
)
    requires own { IsOf cache.now pass.old }
    requires open { AreOpenHere cache.now pass.old receipts.items }
    ensures { AreGivenBack cache.now receipts.items pass.old pass.new }
{
    while let Some(receipt) = receipts.pop() {
        checkin_one(rt, cache, pass, receipt);
    }
    receipts.destroy_empty();
}

/// Lets go of pixels that were checked out: what is shared is given back.
pub fn checkin_pixels<R: Wait, K: Keeps<Value = Value<MAX>>, const MAX: u32>(
    rt: &R,
    cache: &Cache<K>,
    pass: &mut Pass<K>,
    mut pixels: Checkouts<MAX, K>,
)
    requires own { IsOf cache.now pass.old }
    requires open { AreOpenHere cache.now pass.old (receipts_of pixels.pairs) }
    ensures { AreGivenBack cache.now (receipts_of pixels.pairs) pass.old pass.new }
{
    while let Some((_, last)) = pixels.take() {
        checkin_shared(rt, cache, pass, last);
    }
    pixels.end();
}

// Gives pixels back if they are shared, and drops others.
fn checkin_shared<R: Wait, K: Keeps<Value = Value<MAX>>, const MAX: u32>(
    rt: &R,
    cache: &Cache<K>,
    pass: &mut Pass<K>,
    pixels: Pixels<MAX, K>,
)
    requires own { IsOf cache.now pass.old }
    requires open { AreOpenHere cache.now pass.old (receipt_of pixels) }
    ensures { AreGivenBack cache.now (receipt_of pixels) pass.old pass.new }
{
    match pixels {
        Pixels::Drawn(_) => {}
        Pixels::Shared(receipt) => checkin_one(rt, cache, pass, receipt),
    }
}
