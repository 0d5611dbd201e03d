/// A port bit of a module, by its place among the port bits: of the module itself, or of its instance of a number.
#[derive(Clone, Copy, Debug, PartialEq, Eq)]
pub struct LocalPin {
    pub instance: Option<u32>,
    pub bit: u32,
}

/// A wire of a module, from the pin that drives a net bit to a pin that hangs on it.
#[derive(Clone, Copy, Debug, PartialEq, Eq)]
pub struct LocalWire {
    pub from: LocalPin,
    pub to: LocalPin,
}
