/// What is drawn as one plane: a layer's source, an effect of it, or the stack of a composition's layers. All are indices.
#[derive(Clone, Copy, Debug, PartialEq, Eq)]
pub enum NodeId {
    /// The source of a layer of a composition.
    Source { comp: u32, layer: u32 },
    /// What the layer is behind this effect, the first of which is number 0.
    Fx { comp: u32, layer: u32, index: u32 },
    /// The stack of a composition.
    Stack { comp: u32 },
}
