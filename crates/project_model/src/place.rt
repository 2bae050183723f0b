/// Where a rule is broken first: in the project outside its compositions, in a composition outside its layers, or in a
/// layer of a composition. Both are indices.
#[derive(Clone, Copy, Debug, PartialEq, Eq)]
pub enum Place {
    Project,
    Comp(u32),
    Layer(u32, u32),
}

/// A broken rule, by its number, and the first place where it is broken.
#[derive(Clone, Copy, Debug, PartialEq, Eq)]
pub struct Breach {
    pub number: u8,
    pub place: Place,
}
