use crate::faults::SdcFault;
use bud_base::Listed;
use bud_syntax::Object;
use tcl_words::Word;

/// An object, and where the word begins that names it.
#[derive(Drop)]
pub struct Found {
    pub at: usize,
    pub object: Object,
}

/// Objects up to the first word that is refused, and that refusal.
#[derive(Drop)]
pub struct Finds {
    pub found: Listed<Found>,
    pub refusal: Option<SdcFault>,
}

/// What a name in a list names.
#[derive(Clone, Copy)]
pub enum NameKind {
    Ports,
    Pins,
    Cells,
    Clocks,
    Any,
}

/// An object command.
#[derive(Clone, Copy)]
pub enum ObjectCommand {
    /// `get_ports` and the like, with a list of names.
    Get(NameKind),
    AllInputs,
    AllOutputs,
    AllClocks,
    /// `list`, with names and object commands.
    List,
}

/// What stands between brackets.
#[derive(Drop)]
pub enum Inside {
    /// No object command.
    Refused(SdcFault),
    /// No words.
    Empty,
    /// An object command, where its name begins, where its list of names begins, if it has one, and what it finds.
    Command(ObjectCommand, usize, Option<usize>, Finds),
}

/// A word, and for one in brackets what stands between them.
#[derive(Drop)]
pub struct Opened {
    pub word: Word,
    pub inside: Option<Inside>,
}
