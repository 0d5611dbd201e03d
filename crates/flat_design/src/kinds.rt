/// A kind of objects that have names.
#[derive(Clone, Copy, Debug)]
pub enum Kind {
    /// The port bits of the top and of all instances.
    Bits,
    Instances,
}
