// How a call of the program ended, and the exit status that says so. For the top call and for the program.
ghost use Rattle.std.specs.Prelude.{◌≡◌};
ghost use Rattle.smv_command.specs.Numbers.{number_of};

/// How a call ended.
#[derive(Clone, Copy, Debug, PartialEq, Eq)]
pub enum Status {
    /// Every unit of the design is true.
    AllProved,
    /// A unit that was asked about is false.
    SomeFalse,
    /// No unit that was asked about is false, and one is unknown.
    SomeUnknown,
    /// The text has a fault, or no unit has the name that was asked for.
    Refused,
    /// The words are no command.
    Usage,
    /// The source failed in this call.
    ReadFault,
    /// The sink failed in this call.
    WriteFault,
    /// Memory ran out.
    OutOfMemory,
    /// The one unit that was asked about is true.
    PartProved,
    /// The tree was written.
    Printed,
    /// Every unit of the generated design is true.
    Generated,
    /// Every unit of the design is true, and its proof document was written.
    Documented,
    /// The proof document proves its design.
    Checked,
    /// It does not, or is no proof document.
    Rejected,
    /// Every unit of the design is true, by old sets too, and its proof document was written.
    Resumed,
    /// At the given sizes each instance of the unit holds.
    HoldsHere,
    /// At the given sizes a run of the design breaks an instance of the unit.
    Real,
    /// Every unit of the strengthened text is true, so that every unit of the text that was read holds.
    Inducted,
    /// Every unit of the translated text is true, so that every unit of the text that was read holds, and so do its formulas over several times.
    AllFormulas,
}

impl Status {
    /// The exit status of the program.
    pub fn number(self) -> u8
        ensures { result ≡ number_of self }
    {
        match self {
            Status::AllProved => 0,
            Status::SomeFalse => 1,
            Status::SomeUnknown => 2,
            Status::Refused => 3,
            Status::Usage => 4,
            Status::ReadFault => 5,
            Status::WriteFault => 6,
            Status::OutOfMemory => 7,
            Status::PartProved => 8,
            Status::Printed => 0,
            Status::Generated => 0,
            Status::Documented => 0,
            Status::Checked => 0,
            Status::Rejected => 9,
            Status::Resumed => 0,
            Status::HoldsHere => 10,
            Status::Real => 11,
            Status::Inducted => 0,
            Status::AllFormulas => 0,
        }
    }
}
