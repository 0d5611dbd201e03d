ghost use Rattle.std.specs.Prelude.{◌≡◌};
ghost use Rattle.sdc_reader.specs.Options.{kind_of, unit_option, clock_option, delay_option, false_path_option, multicycle_option, max_delay_option, option_of, takes_word, has, excludes, with_option, none_seen};

/// A command of constraints.
#[derive(Clone, Copy)]
pub enum CommandKind {
    /// `set sdc_version`
    Version,
    Units,
    Design,
    CreateClock,
    InputDelay,
    OutputDelay,
    FalsePath,
    Multicycle,
    MaxDelay,
}

/// An option of a command.
#[derive(Clone, Copy)]
pub enum SdcOption {
    Time,
    Resistance,
    Capacitance,
    Current,
    Voltage,
    Power,
    Period,
    Name,
    Waveform,
    Comment,
    Clock,
    ClockFall,
    Max,
    Min,
    AddDelay,
    Setup,
    Hold,
    Start,
    End,
    From,
    Through,
    To,
}

/// The options that were given so far.
#[derive(Clone, Copy)]
pub struct Seen {
    pub time: bool,
    pub resistance: bool,
    pub capacitance: bool,
    pub current: bool,
    pub voltage: bool,
    pub power: bool,
    pub period: bool,
    pub name: bool,
    pub waveform: bool,
    pub comment: bool,
    pub clock: bool,
    pub clock_fall: bool,
    pub max: bool,
    pub min: bool,
    pub add_delay: bool,
    pub setup: bool,
    pub hold: bool,
    pub start: bool,
    pub end: bool,
    pub from: bool,
    pub to: bool,
}

/// The command of this name.
pub fn kind_of(name: &[u8]) -> Option<CommandKind>
    ensures { result ≡ kind_of name.now }
{
    if name == b"set".as_slice() {
        Some(CommandKind::Version)
    } else if name == b"set_units".as_slice() {
        Some(CommandKind::Units)
    } else if name == b"current_design".as_slice() {
        Some(CommandKind::Design)
    } else if name == b"create_clock".as_slice() {
        Some(CommandKind::CreateClock)
    } else if name == b"set_input_delay".as_slice() {
        Some(CommandKind::InputDelay)
    } else if name == b"set_output_delay".as_slice() {
        Some(CommandKind::OutputDelay)
    } else if name == b"set_false_path".as_slice() {
        Some(CommandKind::FalsePath)
    } else if name == b"set_multicycle_path".as_slice() {
        Some(CommandKind::Multicycle)
    } else if name == b"set_max_delay".as_slice() {
        Some(CommandKind::MaxDelay)
    } else {
        None
    }
}

fn unit_option(name: &[u8]) -> Option<SdcOption>
    ensures { result ≡ unit_option name.now }
{
    if name == b"-time".as_slice() {
        Some(SdcOption::Time)
    } else if name == b"-resistance".as_slice() {
        Some(SdcOption::Resistance)
    } else if name == b"-capacitance".as_slice() {
        Some(SdcOption::Capacitance)
    } else if name == b"-current".as_slice() {
        Some(SdcOption::Current)
    } else if name == b"-voltage".as_slice() {
        Some(SdcOption::Voltage)
    } else if name == b"-power".as_slice() {
        Some(SdcOption::Power)
    } else {
        None
    }
}

fn clock_option(name: &[u8]) -> Option<SdcOption>
    ensures { result ≡ clock_option name.now }
{
    if name == b"-period".as_slice() {
        Some(SdcOption::Period)
    } else if name == b"-name".as_slice() {
        Some(SdcOption::Name)
    } else if name == b"-waveform".as_slice() {
        Some(SdcOption::Waveform)
    } else if name == b"-comment".as_slice() {
        Some(SdcOption::Comment)
    } else {
        None
    }
}

fn delay_option(name: &[u8]) -> Option<SdcOption>
    ensures { result ≡ delay_option name.now }
{
    if name == b"-clock".as_slice() {
        Some(SdcOption::Clock)
    } else if name == b"-clock_fall".as_slice() {
        Some(SdcOption::ClockFall)
    } else if name == b"-max".as_slice() {
        Some(SdcOption::Max)
    } else if name == b"-min".as_slice() {
        Some(SdcOption::Min)
    } else if name == b"-add_delay".as_slice() {
        Some(SdcOption::AddDelay)
    } else {
        None
    }
}

fn false_path_option(name: &[u8]) -> Option<SdcOption>
    ensures { result ≡ false_path_option name.now }
{
    if name == b"-setup".as_slice() {
        Some(SdcOption::Setup)
    } else if name == b"-hold".as_slice() {
        Some(SdcOption::Hold)
    } else if name == b"-from".as_slice() {
        Some(SdcOption::From)
    } else if name == b"-through".as_slice() {
        Some(SdcOption::Through)
    } else if name == b"-to".as_slice() {
        Some(SdcOption::To)
    } else if name == b"-comment".as_slice() {
        Some(SdcOption::Comment)
    } else {
        None
    }
}

fn multicycle_option(name: &[u8]) -> Option<SdcOption>
    ensures { result ≡ multicycle_option name.now }
{
    if name == b"-setup".as_slice() {
        Some(SdcOption::Setup)
    } else if name == b"-hold".as_slice() {
        Some(SdcOption::Hold)
    } else if name == b"-start".as_slice() {
        Some(SdcOption::Start)
    } else if name == b"-end".as_slice() {
        Some(SdcOption::End)
    } else if name == b"-from".as_slice() {
        Some(SdcOption::From)
    } else if name == b"-through".as_slice() {
        Some(SdcOption::Through)
    } else if name == b"-to".as_slice() {
        Some(SdcOption::To)
    } else if name == b"-comment".as_slice() {
        Some(SdcOption::Comment)
    } else {
        None
    }
}

fn max_delay_option(name: &[u8]) -> Option<SdcOption>
    ensures { result ≡ max_delay_option name.now }
{
    if name == b"-from".as_slice() {
        Some(SdcOption::From)
    } else if name == b"-through".as_slice() {
        Some(SdcOption::Through)
    } else if name == b"-to".as_slice() {
        Some(SdcOption::To)
    } else if name == b"-comment".as_slice() {
        Some(SdcOption::Comment)
    } else {
        None
    }
}

/// The option of this name that the command has.
pub fn option_of(kind: CommandKind, name: &[u8]) -> Option<SdcOption>
    ensures { result ≡ option_of kind name.now }
{
    match kind {
        CommandKind::Version | CommandKind::Design => None,
        CommandKind::Units => unit_option(name),
        CommandKind::CreateClock => clock_option(name),
        CommandKind::InputDelay | CommandKind::OutputDelay => delay_option(name),
        CommandKind::FalsePath => false_path_option(name),
        CommandKind::Multicycle => multicycle_option(name),
        CommandKind::MaxDelay => max_delay_option(name),
    }
}

impl SdcOption {
    /// Whether a word belongs to the option.
    pub fn takes_word(self) -> bool
        ensures { result ≡ takes_word self }
    {
        match self {
            SdcOption::ClockFall
            | SdcOption::Max
            | SdcOption::Min
            | SdcOption::AddDelay
            | SdcOption::Setup
            | SdcOption::Hold
            | SdcOption::Start
            | SdcOption::End => false,
            _ => true,
        }
    }
}

impl Seen {
    /// No option.
    pub fn new() -> Seen
        ensures { result ≡ none_seen }
    {
        Seen {
            time: false,
            resistance: false,
            capacitance: false,
            current: false,
            voltage: false,
            power: false,
            period: false,
            name: false,
            waveform: false,
            comment: false,
            clock: false,
            clock_fall: false,
            max: false,
            min: false,
            add_delay: false,
            setup: false,
            hold: false,
            start: false,
            end: false,
            from: false,
            to: false,
        }
    }

    /// Whether the option was given, and may not be given again.
    pub fn has(&self, option: SdcOption) -> bool
        ensures { result ≡ has self.now option }
    {
        match option {
            SdcOption::Time => self.time,
            SdcOption::Resistance => self.resistance,
            SdcOption::Capacitance => self.capacitance,
            SdcOption::Current => self.current,
            SdcOption::Voltage => self.voltage,
            SdcOption::Power => self.power,
            SdcOption::Period => self.period,
            SdcOption::Name => self.name,
            SdcOption::Waveform => self.waveform,
            SdcOption::Comment => self.comment,
            SdcOption::Clock => self.clock,
            SdcOption::ClockFall => self.clock_fall,
            SdcOption::Max => self.max,
            SdcOption::Min => self.min,
            SdcOption::AddDelay => self.add_delay,
            SdcOption::Setup => self.setup,
            SdcOption::Hold => self.hold,
            SdcOption::Start => self.start,
            SdcOption::End => self.end,
            SdcOption::From => self.from,
            // it may be repeated
            SdcOption::Through => false,
            SdcOption::To => self.to,
        }
    }

    /// Whether an option was given beside which this one may not stand.
    pub fn excludes(&self, option: SdcOption) -> bool
        ensures { result ≡ excludes self.now option }
    {
        match option {
            SdcOption::Start => self.end,
            SdcOption::End => self.start,
            _ => false,
        }
    }

    /// The same, and this option.
    pub fn with_option(self, option: SdcOption) -> Seen
        ensures { result ≡ with_option option self }
    {
        let mut seen = self;
        match option {
            SdcOption::Time => seen.time = true,
            SdcOption::Resistance => seen.resistance = true,
            SdcOption::Capacitance => seen.capacitance = true,
            SdcOption::Current => seen.current = true,
            SdcOption::Voltage => seen.voltage = true,
            SdcOption::Power => seen.power = true,
            SdcOption::Period => seen.period = true,
            SdcOption::Name => seen.name = true,
            SdcOption::Waveform => seen.waveform = true,
            SdcOption::Comment => seen.comment = true,
            SdcOption::Clock => seen.clock = true,
            SdcOption::ClockFall => seen.clock_fall = true,
            SdcOption::Max => seen.max = true,
            SdcOption::Min => seen.min = true,
            SdcOption::AddDelay => seen.add_delay = true,
            SdcOption::Setup => seen.setup = true,
            SdcOption::Hold => seen.hold = true,
            SdcOption::Start => seen.start = true,
            SdcOption::End => seen.end = true,
            SdcOption::From => seen.from = true,
            SdcOption::Through => {}
            SdcOption::To => seen.to = true,
        }
        seen
    }
}
