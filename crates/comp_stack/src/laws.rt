//! Laws of the stack, each as the contract of a function that does nothing.
ghost use Rattle.comp_stack.specs.Laws.{OpaqueHides, TransparentLeaves, StackIsPremultiplied, OneLayerIsItself};

/// Where a Normal layer brings an opaque pixel, it hides what is below it.
pub fn opaque_hides()
    ensures { OpaqueHides }
{}

/// Where a layer brings nothing, it leaves what is below it, in each mode but StencilAlpha and StencilLuma.
pub fn transparent_leaves()
    ensures { TransparentLeaves }
{}

/// What a stack of premultiplied layers shows over a premultiplied ground is premultiplied.
pub fn stack_is_premultiplied()
    ensures { StackIsPremultiplied }
{}

/// A stack of one Normal layer with no matte at full opacity shows that layer.
pub fn one_layer_is_itself()
    ensures { OneLayerIsItself }
{}
