//! The nonvolatile commands.
use crate::{FileBytes, Register, UserData};
use psu_settings::Settings;
use psu_status::Enables;

/// A nonvolatile command with its parameters. What it borrows is copied once, into the contents.
#[derive(Drop)]
pub enum NvCommand<'a> {
    /// `*SRE` while the power-on status clear flag is false.
    ServiceEnable(u8),
    /// `*ESE` while the flag is false.
    EventEnable(u8),
    /// `*PSC`: the present SRE and ESE if the flag becomes false, `None` if it becomes true.
    PowerOnClear(Option<Enables>),
    /// `*SAV` of the present settings.
    Save(Register, Settings),
    /// `*PUD`.
    User(UserData),
    /// `*DMC` of a label and a body.
    DefineMacro(&'a [u8], &'a [u8]),
    /// `*RMC` of a label.
    RemoveMacro(&'a [u8]),
    /// `*PMC`.
    PurgeMacros,
    /// `MMEMory:DATA` of a name and bytes.
    StoreBytes(&'a [u8], FileBytes<'a>),
    /// `MMEMory:DELete` of a name.
    Delete(&'a [u8]),
    /// `MMEMory:COPY` of a name to another.
    Copy(&'a [u8], &'a [u8]),
    /// `MMEMory:MOVE` of a name to another.
    Move(&'a [u8], &'a [u8]),
    /// `MMEMory:STORe:STATe` of a register in a file.
    StoreState(Register, &'a [u8]),
    /// `MMEMory:LOAD:STATe` of a register from a file.
    LoadState(Register, &'a [u8]),
    /// `MMEMory:STORe:MACRo` of a label in a file.
    StoreMacro(&'a [u8], &'a [u8]),
    /// `MMEMory:LOAD:MACRo` of a label from a file.
    LoadMacro(&'a [u8], &'a [u8]),
    /// `OUTPut:PON:STATe`: whether the settings at power-on are those of register 0.
    Recall(bool),
}
