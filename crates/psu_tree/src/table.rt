//! The table of commands.
use crate::Form::{
    Action, ClearTrip, Contents, Define, Enable, File, Filter, Flag, Level, LevelQuery, Load,
    Macro, MacroFile, Names, OutputQuery, PowerOn, Protect, Query, Register, StateFile, Switch,
    UserData,
};
use crate::{
    Action as A, Enable as E, Flag as G, Kind, Level as L, Node, OnFile, OnMacro, OnNames,
    OnRegister, OutputQuery as O, Query as Q, Row, Section, Switch as S, Transfer,
};
use psu_status::Filter as F;
use psu_status::Group::{Operation, Questionable};

// A node, in the standard's notation.
macro_rules! node {
    (*) => { Node { name: "*", kind: Kind::Must } };
    ([$name:ident <n> :]) => { Node { name: stringify!($name), kind: Kind::MaybeNumbered } };
    ([: $name:ident]) => { Node { name: stringify!($name), kind: Kind::Maybe } };
    ($name:ident <n>) => { Node { name: stringify!($name), kind: Kind::Numbered } };
    ($name:ident) => { Node { name: stringify!($name), kind: Kind::Must } };
}

// The nodes of a header, in the standard's notation.
macro_rules! nodes {
    (@ [$($done:expr),*]) => { &[$($done),*] };
    (@ [$($done:expr),*] : $($rest:tt)+) => { nodes!(@ [$($done),*] $($rest)+) };
    (@ [$($done:expr),*] $name:ident <n> $($rest:tt)*) => { nodes!(@ [$($done,)* node!($name <n>)] $($rest)*) };
    (@ [$($done:expr),*] $part:tt $($rest:tt)*) => { nodes!(@ [$($done,)* node!($part)] $($rest)*) };
    ($($part:tt)*) => { nodes!(@ [] $($part)*) };
}

// A header that is a command, a query, or both.
macro_rules! row {
    ({$($part:tt)*} $command:expr, $query:expr) => { Row { nodes: nodes!($($part)*), command: Some($command), query: Some($query) } };
    ({$($part:tt)*} $command:expr) => { Row { nodes: nodes!($($part)*), command: Some($command), query: None } };
    ({$($part:tt)*}? $query:expr) => { Row { nodes: nodes!($($part)*), command: None, query: Some($query) } };
}

// The commands that programs send most often come first, since the rows are tried in this order.
const COMMON: [Row; 20] = [
    row!({ESR}? Query(Q::EventStatus)),
    row!({STB}? Query(Q::StatusByte)),
    row!({OPC} Action(A::OperationComplete), Query(Q::OperationComplete)),
    row!({CLS} Action(A::ClearStatus)),
    row!({ESE} Enable(E::EventStatus), Query(Q::Enable(E::EventStatus))),
    row!({SRE} Enable(E::ServiceRequest), Query(Q::Enable(E::ServiceRequest))),
    row!({IDN}? Query(Q::Identification)),
    row!({TST}? Query(Q::SelfTest)),
    row!({RST} Action(A::Reset)),
    row!({WAI} Action(A::Wait)),
    row!({PSC} Flag(G::PowerOnClear), Query(Q::Flag(G::PowerOnClear))),
    row!({SAV} Register(OnRegister::Save)),
    row!({RCL} Register(OnRegister::Recall)),
    row!({PUD} UserData, Query(Q::UserData)),
    row!({DMC} Define),
    row!({GMC}? Macro(OnMacro::Ask)),
    row!({RMC} Macro(OnMacro::Remove)),
    row!({LMC}? Query(Q::Labels)),
    row!({PMC} Action(A::PurgeMacros)),
    row!({EMC} Flag(G::Macros), Query(Q::Flag(G::Macros))),
];

const SYSTEM: [Row; 3] = [
    row!({ERRor[:NEXT]}? Query(Q::NextError)),
    row!({ERRor:COUNt}? Query(Q::ErrorCount)),
    row!({VERSion}? Query(Q::Version)),
];

const STATUS: [Row; 11] = [
    row!({OPERation[:EVENt]}? Query(Q::Event(Operation))),
    row!({OPERation:CONDition}? Query(Q::Condition(Operation))),
    row!({OPERation:ENABle} Filter(Operation, F::Enable), Query(Q::Filter(Operation, F::Enable))),
    row!({OPERation:PTRansition} Filter(Operation, F::Positive), Query(Q::Filter(Operation, F::Positive))),
    row!({OPERation:NTRansition} Filter(Operation, F::Negative), Query(Q::Filter(Operation, F::Negative))),
    row!({QUEStionable[:EVENt]}? Query(Q::Event(Questionable))),
    row!({QUEStionable:CONDition}? Query(Q::Condition(Questionable))),
    row!({QUEStionable:ENABle} Filter(Questionable, F::Enable), Query(Q::Filter(Questionable, F::Enable))),
    row!({QUEStionable:PTRansition} Filter(Questionable, F::Positive), Query(Q::Filter(Questionable, F::Positive))),
    row!({QUEStionable:NTRansition} Filter(Questionable, F::Negative), Query(Q::Filter(Questionable, F::Negative))),
    row!({PRESet} Action(A::PresetStatus)),
];

const OUTPUT: [Row; 1] = [row!({[:STATe]} Switch(S::Output), OutputQuery(O::State))];

const POWER_ON: [Row; 1] = [row!({PON:STATe} PowerOn, Query(Q::Flag(G::Recall)))];

const MEASURE: [Row; 2] = [
    row!({[:SCALar]:VOLTage[:DC]}? OutputQuery(O::Voltage)),
    row!({[:SCALar]:CURRent[:DC]}? OutputQuery(O::Current)),
];

const SIMULATION: [Row; 1] = [row!({LOAD<n>} Load, OutputQuery(O::Load))];

const DIAGNOSTIC: [Row; 1] = [row!({PUD:PROTect} Protect, Query(Q::Flag(G::UserDataProtection)))];

const MEMORY: [Row; 9] = [
    row!({CATalog}? Query(Q::Catalog)),
    row!({DATA} Contents, File(OnFile::Ask)),
    row!({DELete} File(OnFile::Delete)),
    row!({COPY} Names(OnNames::Copy)),
    row!({MOVE} Names(OnNames::Move)),
    row!({STORe:STATe} StateFile(Transfer::Store)),
    row!({LOAD:STATe} StateFile(Transfer::Load)),
    row!({STORe:MACRo} MacroFile(Transfer::Store)),
    row!({LOAD:MACRo} MacroFile(Transfer::Load)),
];

const SOURCE: [Row; 6] = [
    row!({VOLTage[:LEVel][:IMMediate][:AMPLitude]} Level(L::Voltage), LevelQuery(L::Voltage)),
    row!({CURRent[:LEVel][:IMMediate][:AMPLitude]} Level(L::Current), LevelQuery(L::Current)),
    row!({VOLTage:PROTection[:LEVel]} Level(L::Protection), LevelQuery(L::Protection)),
    row!({VOLTage:PROTection:STATe} Switch(S::Protection), OutputQuery(O::Protection)),
    row!({VOLTage:PROTection:TRIPped}? OutputQuery(O::Tripped)),
    row!({VOLTage:PROTection:CLEar} ClearTrip),
];

/// The table of commands, by the first nodes of the headers. Sections whose first node is optional come last, since
/// their rows are tried for each header that no earlier row matched.
pub static PATTERNS: [Section; 10] = [
    Section {
        first: b'*',
        second: 0,
        root: node!(*),
        rows: &COMMON,
    },
    Section {
        first: b'S',
        second: b'Y',
        root: node!(SYSTem),
        rows: &SYSTEM,
    },
    Section {
        first: b'S',
        second: b'T',
        root: node!(STATus),
        rows: &STATUS,
    },
    Section {
        first: b'O',
        second: b'U',
        root: node!(OUTPut <n>),
        rows: &OUTPUT,
    },
    Section {
        first: b'O',
        second: b'U',
        root: node!(OUTPut),
        rows: &POWER_ON,
    },
    Section {
        first: b'M',
        second: b'E',
        root: node!(MEASure <n>),
        rows: &MEASURE,
    },
    Section {
        first: b'S',
        second: b'I',
        root: node!(SIMulation),
        rows: &SIMULATION,
    },
    Section {
        first: b'D',
        second: b'I',
        root: node!(DIAGnostic),
        rows: &DIAGNOSTIC,
    },
    Section {
        first: b'M',
        second: b'M',
        root: node!(MMEMory),
        rows: &MEMORY,
    },
    Section {
        first: b'S',
        second: b'O',
        root: node!([SOURce<n>:]),
        rows: &SOURCE,
    },
];
