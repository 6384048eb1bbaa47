//! The parameters of the table's commands, form by form.
ghost use Rattle.std.specs.Prelude.{List};
ghost use Rattle.psu_lex.specs.Shown.{HoldsData};
ghost use Rattle.psu_lex.specs.Syntax.{Datum as DatumData};
ghost use Rattle.psu_tree.specs.Commands.{CommandReads};
ghost use Rattle.psu_tree.specs.declared.form.Form.TheVariants as f;
ghost use Rattle.psu_settings.specs.declared.output.Output.{Output as SomeOutput};

use crate::counts::alone;
use crate::double::{label_and_body, label_and_name, name_and_bytes, register_and_name, two_names};
use crate::parameters::LAST_REGISTER;
use crate::single::{
    one_block, one_count, one_flag, one_label, one_level, one_name, one_recall, one_switch,
    perhaps_extreme,
};
use crate::{
    Command, Enable, Flag, Form, Level, OnFile, OnMacro, OnNames, OnRegister, Switch, Transfer,
};
use psu_lex::{Data, FILE_MOST, ScpiError, USER_DATA_MOST};
use psu_settings::Output;
use psu_status::{Filter, Group};

// Parses an enable register command: the value of the register.
fn enable<'a>(which: Enable, parameters: &Data<'a>) -> Result<Command<'a>, ScpiError>
    ensures { (output : SomeOutput) (list : List DatumData) → HoldsData parameters.now list → CommandReads (f.Enable which) output list result }
{
    let value = one_count(parameters, 0, 255)?;
    Ok(Command::Enable(which, value as u8))
}

// Parses a flag command, whose parameter is a number.
fn flag<'a>(which: Flag, parameters: &Data<'a>) -> Result<Command<'a>, ScpiError>
    ensures { (output : SomeOutput) (list : List DatumData) → HoldsData parameters.now list → CommandReads (f.Flag which) output list result }
{
    let value = one_flag(parameters)?;
    Ok(Command::Flag(which, value))
}

// Parses a command for a register of a status group: its value, without bit 15.
fn filter<'a>(group: Group, which: Filter, parameters: &Data<'a>) -> Result<Command<'a>, ScpiError>
    ensures { (output : SomeOutput) (list : List DatumData) → HoldsData parameters.now list → CommandReads (f.Filter group which) output list result }
{
    let value = one_count(parameters, 0, 65_535)?;
    Ok(Command::Filter(group, which, (value % 32_768) as u16))
}

// Parses a command on a register of settings: its number.
fn register<'a>(what: OnRegister, parameters: &Data<'a>) -> Result<Command<'a>, ScpiError>
    ensures { (output : SomeOutput) (list : List DatumData) → HoldsData parameters.now list → CommandReads (f.Register what) output list result }
{
    let value = one_count(parameters, 0, LAST_REGISTER)?;
    Ok(Command::Register(what, value as u8))
}

// Parses a load command.
fn load<'a>(output: Output, parameters: &Data<'a>) -> Result<Command<'a>, ScpiError>
    ensures { (list : List DatumData) → HoldsData parameters.now list → CommandReads f.Load output list result }
{
    let value = one_count(parameters, 1, 10_000_000)?;
    Ok(Command::Load(output, value))
}

// Parses a level command.
fn level<'a>(which: Level, output: Output, parameters: &Data<'a>) -> Result<Command<'a>, ScpiError>
    ensures { (list : List DatumData) → HoldsData parameters.now list → CommandReads (f.Level which) output list result }
{
    let value = one_level(parameters, which)?;
    Ok(Command::Level(which, output, value))
}

// Parses a level query.
fn level_query<'a>(
    which: Level,
    output: Output,
    parameters: &Data<'a>,
) -> Result<Command<'a>, ScpiError>
    ensures { (list : List DatumData) → HoldsData parameters.now list → CommandReads (f.LevelQuery which) output list result }
{
    let value = perhaps_extreme(parameters)?;
    Ok(Command::LevelQuery(which, output, value))
}

// Parses a switch command for an output.
fn switch<'a>(
    which: Switch,
    output: Output,
    parameters: &Data<'a>,
) -> Result<Command<'a>, ScpiError>
    ensures { (list : List DatumData) → HoldsData parameters.now list → CommandReads (f.Switch which) output list result }
{
    let value = one_switch(parameters)?;
    Ok(Command::Switch(which, output, value))
}

// Parses the command that protects user data.
fn protect<'a>(parameters: &Data<'a>) -> Result<Command<'a>, ScpiError>
    ensures { (output : SomeOutput) (list : List DatumData) → HoldsData parameters.now list → CommandReads f.Protect output list result }
{
    let value = one_switch(parameters)?;
    Ok(Command::Flag(Flag::UserDataProtection, value))
}

// Parses the command that chooses the settings at power-on.
fn power_on<'a>(parameters: &Data<'a>) -> Result<Command<'a>, ScpiError>
    ensures { (output : SomeOutput) (list : List DatumData) → HoldsData parameters.now list → CommandReads f.PowerOn output list result }
{
    let value = one_recall(parameters)?;
    Ok(Command::Flag(Flag::Recall, value))
}

// Parses the user data command.
fn user_data<'a>(parameters: &Data<'a>) -> Result<Command<'a>, ScpiError>
    ensures { (output : SomeOutput) (list : List DatumData) → HoldsData parameters.now list → CommandReads f.UserData output list result }
{
    let value = one_block(parameters, USER_DATA_MOST)?;
    Ok(Command::UserData(value))
}

// Parses a macro definition.
fn define<'a>(parameters: &Data<'a>) -> Result<Command<'a>, ScpiError>
    ensures { (output : SomeOutput) (list : List DatumData) → HoldsData parameters.now list → CommandReads f.Define output list result }
{
    let value = label_and_body(parameters)?;
    Ok(Command::Define(value.0, value.1))
}

// Parses a command on a macro.
fn on_macro<'a>(what: OnMacro, parameters: &Data<'a>) -> Result<Command<'a>, ScpiError>
    ensures { (output : SomeOutput) (list : List DatumData) → HoldsData parameters.now list → CommandReads (f.Macro what) output list result }
{
    let value = one_label(parameters)?;
    Ok(Command::Macro(what, value))
}

// Parses the command that writes the contents of a file.
fn contents<'a>(parameters: &Data<'a>) -> Result<Command<'a>, ScpiError>
    ensures { (output : SomeOutput) (list : List DatumData) → HoldsData parameters.now list → CommandReads f.Contents output list result }
{
    let value = name_and_bytes(parameters, FILE_MOST)?;
    Ok(Command::Contents(value.0, value.1))
}

// Parses a command on a file.
fn on_file<'a>(what: OnFile, parameters: &Data<'a>) -> Result<Command<'a>, ScpiError>
    ensures { (output : SomeOutput) (list : List DatumData) → HoldsData parameters.now list → CommandReads (f.File what) output list result }
{
    let value = one_name(parameters)?;
    Ok(Command::File(what, value))
}

// Parses a command on two files.
fn on_names<'a>(what: OnNames, parameters: &Data<'a>) -> Result<Command<'a>, ScpiError>
    ensures { (output : SomeOutput) (list : List DatumData) → HoldsData parameters.now list → CommandReads (f.Names what) output list result }
{
    let value = two_names(parameters)?;
    Ok(Command::Names(what, value.0, value.1))
}

// Parses a transfer of a register to or from a file.
fn state_file<'a>(what: Transfer, parameters: &Data<'a>) -> Result<Command<'a>, ScpiError>
    ensures { (output : SomeOutput) (list : List DatumData) → HoldsData parameters.now list → CommandReads (f.StateFile what) output list result }
{
    let value = register_and_name(parameters)?;
    Ok(Command::StateFile(what, value.0, value.1))
}

// Parses a transfer of a macro to or from a file.
fn macro_file<'a>(what: Transfer, parameters: &Data<'a>) -> Result<Command<'a>, ScpiError>
    ensures { (output : SomeOutput) (list : List DatumData) → HoldsData parameters.now list → CommandReads (f.MacroFile what) output list result }
{
    let value = label_and_name(parameters)?;
    Ok(Command::MacroFile(what, value.0, value.1))
}

/// Returns the command of a form at an output with its data, or their first error.
pub(crate) fn command_of<'a>(
    form: Form,
    output: Output,
    parameters: &Data<'a>,
) -> Result<Command<'a>, ScpiError>
    ensures { (list : List DatumData) → HoldsData parameters.now list → CommandReads form output list result }
{
    match form {
        Form::Action(action) => alone(Command::Action(action), parameters),
        Form::Query(query) => alone(Command::Query(query), parameters),
        Form::OutputQuery(query) => alone(Command::OutputQuery(query, output), parameters),
        Form::ClearTrip => alone(Command::ClearTrip(output), parameters),
        Form::Enable(which) => enable(which, parameters),
        Form::Flag(which) => flag(which, parameters),
        Form::Filter(group, which) => filter(group, which, parameters),
        Form::Register(what) => register(what, parameters),
        Form::Load => load(output, parameters),
        Form::Level(which) => level(which, output, parameters),
        Form::LevelQuery(which) => level_query(which, output, parameters),
        Form::Switch(which) => switch(which, output, parameters),
        Form::Protect => protect(parameters),
        Form::PowerOn => power_on(parameters),
        Form::UserData => user_data(parameters),
        Form::Define => define(parameters),
        Form::Macro(what) => on_macro(what, parameters),
        Form::Contents => contents(parameters),
        Form::File(what) => on_file(what, parameters),
        Form::Names(what) => on_names(what, parameters),
        Form::StateFile(what) => state_file(what, parameters),
        Form::MacroFile(what) => macro_file(what, parameters),
    }
}
