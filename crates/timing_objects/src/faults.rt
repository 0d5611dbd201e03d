use bud_base::Text;
use thiserror::Error;

/// Why a timing command is refused. The name is that of the clock or the text of the object; for an object that names all
/// of a kind it is its word, as `all_inputs`.
#[derive(Debug, Drop, Error)]
pub enum ResolveFault {
    /// No port, pin or cell of the kind asked for has this name.
    #[error("unknown object")]
    UnknownObject(Text),
    /// No earlier command made a clock of this name.
    #[error("unknown clock")]
    UnknownClock(Text),
    /// A clock's source that is no input port of the top and no output of a leaf.
    #[error("not a source")]
    NotASource(Text),
    /// An object where paths can't begin.
    #[error("not a start")]
    NotAStart(Text),
    /// An object where paths can't end.
    #[error("not an end")]
    NotAnEnd(Text),
    /// An object in a group that is no port or pin.
    #[error("not a pin")]
    NotAPin(Text),
    /// An earlier command made a clock of this name, or with this source.
    #[error("clock twice")]
    ClockTwice(Text),
    /// A clock without `period >= 2` and `rise < fall < rise + period`.
    #[error("bad waveform")]
    BadWaveform(Text),
    /// Want of memory.
    #[error("memory")]
    NoMemory,
}
