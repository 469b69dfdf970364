/// What a layer is.
#[derive(Clone, Copy, Debug, PartialEq, Eq)]
pub enum LayerKind {
    /// A layer proper: each of its labels names itself.
    Layer,
    /// A policy: a label that ends in `*` is a pattern.
    Policy,
}
