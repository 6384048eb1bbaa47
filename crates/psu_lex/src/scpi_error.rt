//! The errors of SCPI that the instrument reports.
ghost use Rattle.std.specs.Prelude.{◌≡◌, ◌≤◌};
ghost use Rattle.psu_lex.specs.Errors.{class_bit, magnitude, text, class_of, event_bit};
ghost use Rattle.psu_lex.specs.declared.scpi_error.ScpiError.TheVariants.{OutOfMemory, QueueOverflow};

use std::alloc::AllocError;

/// The class of an error (IEEE 488.2, 11.5.1), each with a bit of its own in the event status register.
#[derive(Clone, Copy, Debug, PartialEq, Eq)]
pub enum ErrorClass {
    /// The message can't be parsed: -100 to -199.
    Command,
    /// The command can't be executed: -200 to -299.
    Execution,
    /// A device-specific error: -300 to -399.
    Device,
}

impl ErrorClass {
    /// Returns the bit of the event status register: CME (bit 5), EXE (bit 4) or DDE (bit 3).
    pub fn event_bit(self) -> u8
        ensures { result ≡ class_bit self }
    {
        match self {
            ErrorClass::Command => 32,
            ErrorClass::Execution => 16,
            ErrorClass::Device => 8,
        }
    }
}

/// An error of SCPI-1999 (volume 2, chapter 21), by its name there. Its number is negative.
#[derive(Clone, Copy, Debug, PartialEq, Eq)]
pub enum ScpiError {
    /// A byte that is not allowed at its position in a message.
    InvalidCharacter,
    /// The unit violates the grammar.
    SyntaxError,
    /// A parameter of another class than the one required.
    DataTypeError,
    /// More parameters than the header accepts.
    ParameterNotAllowed,
    /// Fewer parameters than the header requires.
    MissingParameter,
    /// A header that the instrument does not have.
    UndefinedHeader,
    /// A numeric suffix of a header outside its range.
    HeaderSuffixOutOfRange,
    /// An exponent beyond 32000 either way.
    ExponentTooLarge,
    /// A number of more than 255 digits, not counting leading zeros.
    TooManyDigits,
    /// A suffix of a number that is not one of those accepted.
    InvalidSuffix,
    /// A string that does not end, or is followed by other bytes.
    InvalidStringData,
    /// A block whose length is wrong, or that is followed by other bytes.
    InvalidBlockData,
    /// The command is protected, and protection is on.
    CommandProtected,
    /// A trigger while nothing waits for one.
    TriggerIgnored,
    /// The command conflicts with the present settings.
    SettingsConflict,
    /// A number outside its range.
    DataOutOfRange,
    /// More bytes than there is room for.
    TooMuchData,
    /// A word that is not one of the accepted ones.
    IllegalParameterValue,
    /// An allocation failed; nothing else has changed.
    OutOfMemory,
    /// A file does not contain what is to be loaded from it.
    MassStorageError,
    /// The nonvolatile memory has no room for the result.
    MediaFull,
    /// There is no file of this name.
    FileNameNotFound,
    /// An invalid file name, or the name of an existing file.
    FileNameError,
    /// An invalid macro label.
    IllegalMacroLabel,
    /// A number of parameters other than the one that the macro takes.
    MacroParameterError,
    /// A macro body that is too long.
    MacroDefinitionTooLong,
    /// A macro call inside an expansion.
    MacroRecursionError,
    /// A macro of this label already exists.
    MacroRedefinitionNotAllowed,
    /// There is no macro of this label.
    MacroHeaderNotFound,
    /// The nonvolatile memory is not reliable.
    StorageFault,
    /// Errors were lost because the queue was full.
    QueueOverflow,
}

impl ScpiError {
    /// Returns the error number without its sign, which is always a minus.
    pub fn magnitude(self) -> u16
        ensures value { result ≡ magnitude self }
        ensures most { result ≤ 350 }
    {
        match self {
            ScpiError::InvalidCharacter => 101,
            ScpiError::SyntaxError => 102,
            ScpiError::DataTypeError => 104,
            ScpiError::ParameterNotAllowed => 108,
            ScpiError::MissingParameter => 109,
            ScpiError::UndefinedHeader => 113,
            ScpiError::HeaderSuffixOutOfRange => 114,
            ScpiError::ExponentTooLarge => 123,
            ScpiError::TooManyDigits => 124,
            ScpiError::InvalidSuffix => 131,
            ScpiError::InvalidStringData => 151,
            ScpiError::InvalidBlockData => 161,
            ScpiError::CommandProtected => 203,
            ScpiError::TriggerIgnored => 211,
            ScpiError::SettingsConflict => 221,
            ScpiError::DataOutOfRange => 222,
            ScpiError::TooMuchData => 223,
            ScpiError::IllegalParameterValue => 224,
            ScpiError::OutOfMemory => 225,
            ScpiError::MassStorageError => 250,
            ScpiError::MediaFull => 254,
            ScpiError::FileNameNotFound => 256,
            ScpiError::FileNameError => 257,
            ScpiError::IllegalMacroLabel => 273,
            ScpiError::MacroParameterError => 274,
            ScpiError::MacroDefinitionTooLong => 275,
            ScpiError::MacroRecursionError => 276,
            ScpiError::MacroRedefinitionNotAllowed => 277,
            ScpiError::MacroHeaderNotFound => 278,
            ScpiError::StorageFault => 320,
            ScpiError::QueueOverflow => 350,
        }
    }

    /// Returns the error text that `SYSTem:ERRor?` returns between quotes.
    pub fn text(self) -> &'static str
        ensures { result.now ≡ text self }
    {
        match self {
            ScpiError::InvalidCharacter => "Invalid character",
            ScpiError::SyntaxError => "Syntax error",
            ScpiError::DataTypeError => "Data type error",
            ScpiError::ParameterNotAllowed => "Parameter not allowed",
            ScpiError::MissingParameter => "Missing parameter",
            ScpiError::UndefinedHeader => "Undefined header",
            ScpiError::HeaderSuffixOutOfRange => "Header suffix out of range",
            ScpiError::ExponentTooLarge => "Exponent too large",
            ScpiError::TooManyDigits => "Too many digits",
            ScpiError::InvalidSuffix => "Invalid suffix",
            ScpiError::InvalidStringData => "Invalid string data",
            ScpiError::InvalidBlockData => "Invalid block data",
            ScpiError::CommandProtected => "Command protected",
            ScpiError::TriggerIgnored => "Trigger ignored",
            ScpiError::SettingsConflict => "Settings conflict",
            ScpiError::DataOutOfRange => "Data out of range",
            ScpiError::TooMuchData => "Too much data",
            ScpiError::IllegalParameterValue => "Illegal parameter value",
            ScpiError::OutOfMemory => "Out of memory",
            ScpiError::MassStorageError => "Mass storage error",
            ScpiError::MediaFull => "Media full",
            ScpiError::FileNameNotFound => "File name not found",
            ScpiError::FileNameError => "File name error",
            ScpiError::IllegalMacroLabel => "Illegal macro label",
            ScpiError::MacroParameterError => "Macro parameter error",
            ScpiError::MacroDefinitionTooLong => "Macro definition too long",
            ScpiError::MacroRecursionError => "Macro recursion error",
            ScpiError::MacroRedefinitionNotAllowed => "Macro redefinition not allowed",
            ScpiError::MacroHeaderNotFound => "Macro header not found",
            ScpiError::StorageFault => "Storage fault",
            ScpiError::QueueOverflow => "Queue overflow",
        }
    }

    /// Returns the class, determined by the number.
    pub fn class(self) -> ErrorClass
        ensures { result ≡ class_of self }
    {
        match self.magnitude() {
            0..200 => ErrorClass::Command,
            200..300 => ErrorClass::Execution,
            _ => ErrorClass::Device,
        }
    }

    /// Returns the bit of the event status register that the error sets.
    pub fn event_bit(self) -> u8
        ensures { result ≡ event_bit self }
    {
        self.class().event_bit()
    }
}

/// A failed allocation is an error of its own.
impl From<AllocError> for ScpiError {
    ghost from_gives = { λ _ error. error ≡ OutOfMemory };

    fn from(_refused: AllocError) -> ScpiError {
        ScpiError::OutOfMemory
    }
}

/// The error that fills the unused places of a list of fixed capacity.
impl Default for ScpiError {
    fn default() -> Self
        ensures { result ≡ QueueOverflow }
    {
        ScpiError::QueueOverflow
    }
}
