//! Laws over the definitions, each the contract of a function that does nothing.
ghost use Rattle.scene_meaning.specs.Right.{KeptIsRight, NodesAreKept};
ghost use Rattle.scene_meaning.specs.Shown.{ShownIsOfWhatIsShown, MoreTurnsChangeNothing};
ghost use Rattle.scene_meaning.specs.Keys.{KeysDiffer, KeyIsSpelled, NodeNumbersDiffer};
ghost use Rattle.scene_meaning.specs.Nodes.{NodesAreDrawn};
ghost use Rattle.scene_meaning.specs.Worked.{TwoPixelsAreDrawn, EndedIsNotDrawn, MovingIsDrawn, HalfIsDrawn, SixteenBitsAreDrawn, MatteIsDrawn, ModeIsDrawn, NestedIsDrawn, ClipIsDrawn, ClipIsWidened, ClipIsNarrowed};

/// A composition shows its layers, whose nested compositions show what they show.
pub fn shown_is_of_what_is_shown()
    ensures { ShownIsOfWhatIsShown }
{}

/// What a composition shows is told in as many turns as it takes; more of them change nothing.
pub fn more_turns_change_nothing()
    ensures { MoreTurnsChangeNothing }
{}

/// Each effect is drawn from what it wants, a layer of a nested composition shows that composition's stack, and a composition shows the
/// last node of each layer.
pub fn nodes_are_drawn()
    ensures { NodesAreDrawn }
{}

/// The file of the worked example, computed by the definitions: two pixels, 37 bytes.
#[tactic(auto, unfolding(frame_file::specs::Afr::header_bytes))]
pub fn two_pixels_are_drawn()
    ensures { TwoPixelsAreDrawn }
{}

/// A solid that ends at time 0 leaves the frame transparent.
#[tactic(auto, unfolding(frame_file::specs::Afr::header_bytes))]
pub fn ended_is_not_drawn()
    ensures { EndedIsNotDrawn }
{}

/// A solid that moves to the right by a pixel a frame, over three frames.
#[tactic(auto, unfolding(frame_file::specs::Afr::header_bytes))]
pub fn moving_is_drawn()
    ensures { MovingIsDrawn }
{}

/// A solid that is partly outside the frame, at half its opacity.
#[tactic(auto, unfolding(frame_file::specs::Afr::header_bytes))]
pub fn half_is_drawn()
    ensures { HalfIsDrawn }
{}

/// A pixel of 16 bits a channel.
#[tactic(auto, unfolding(frame_file::specs::Afr::header_bytes))]
pub fn sixteen_bits_are_drawn()
    ensures { SixteenBitsAreDrawn }
{}

/// A layer under an alpha matte, which is not drawn itself.
#[tactic(auto, unfolding(frame_file::specs::Afr::header_bytes))]
pub fn matte_is_drawn()
    ensures { MatteIsDrawn }
{}

/// A layer in another mode than Normal.
#[tactic(auto, unfolding(frame_file::specs::Afr::header_bytes))]
pub fn mode_is_drawn()
    ensures { ModeIsDrawn }
{}

/// A composition that is nested from the third frame on.
#[tactic(auto, unfolding(frame_file::specs::Afr::header_bytes))]
pub fn nested_is_drawn()
    ensures { NestedIsDrawn }
{}

/// A clip of two pictures, from the second frame on: nothing is shown before the first picture, and after the last.
#[tactic(auto, unfolding(frame_file::specs::Afr::header_bytes))]
pub fn clip_is_drawn()
    ensures { ClipIsDrawn }
{}

/// A clip of 8 bits a channel in a project of 16.
#[tactic(auto, unfolding(frame_file::specs::Afr::header_bytes))]
pub fn clip_is_widened()
    ensures { ClipIsWidened }
{}

/// A clip of 16 bits a channel in a project of 8.
#[tactic(auto, unfolding(frame_file::specs::Afr::header_bytes))]
pub fn clip_is_narrowed()
    ensures { ClipIsNarrowed }
{}

/// Keys of different classes, nodes, asks or ticks differ.
pub fn keys_differ()
    ensures { KeysDiffer }
{}

/// The bytes of a key, worked by hand.
pub fn key_is_spelled()
    ensures { KeyIsSpelled }
{}

/// Different nodes of a project have different numbers, where no layer has more than eight effects.
pub fn node_numbers_differ()
    ensures { NodeNumbersDiffer }
{}

/// Under the key of a node, an ask and a held tick the job of a scene keeps the value of that node's plane.
pub fn nodes_are_kept()
    ensures { NodesAreKept }
{}

/// What the job keeps under a key is exactly what is right there: the value of the plane of the node and tick that the key spells.
pub fn kept_is_right()
    ensures { KeptIsRight }
{}
