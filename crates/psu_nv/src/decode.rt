//! Decoding contents from the map that stores them.
ghost use Rattle.std.specs.Prelude.{◌≡◌, ◌∷◌, [], ◌<◌, ◌≤◌, ◌++◌, List, ℕ, Option, true, length, slice_index_or, slice_set, IfOk, IfErr, IfSome, IfNone, option_map, bit_and};
ghost use Rattle.psu_nv.specs.declared.decode.DecodeFault.TheVariants.{Memory, BadValue};
ghost use Rattle.std.specs.Option.{ForSome};
ghost use Rattle.std.specs.List.{AllByRecursion};
ghost use Rattle.psu_settings.specs.declared.output_settings.OutputSettings.{OutputSettings as Each};
ghost use Rattle.psu_settings.specs.Settings.{AreSettings, reset};
ghost use Rattle.psu_map.specs.Map.{get};
ghost use Rattle.psu_nv.specs.Contents.{Macro, IsContents, contents_of, enables_items, register_items, user_items, macros_items, items_of, IsMacro, HasDistinct};
ghost use Rattle.psu_nv.specs.Parts.{value_in};
ghost use Rattle.psu_nv.specs.Decoding.{has_keys, RepresentsContents, IsFault, files_in};

use crate::files::Files;
use crate::keys::{files_of, fit_files, has_keys};
use crate::macros::Macros;
use crate::part::{ENABLES_KEY, MACROS_KEY, RECALL_KEY, REGISTER_KEY, USER_KEY};
use crate::recall::recall_in;
use crate::registers::Registers;
use crate::written::{Written, WrittenMacros, macros_of};
use crate::{Contents, REGISTERS, Register, UserData};
use arrayvec::ArrayVec;
use psu_map::Items;
use psu_settings::Settings;
use psu_status::Enables;
use std::alloc::{AllocError, AllocFailed, Allocator};

/// Why a map is not decoded: it encodes no contents, or an allocation failed.
#[derive(Clone, Copy, Debug, PartialEq, Eq, Drop)]
pub enum DecodeFault {
    /// A key that no contents have.
    BadKey,
    /// The keys are valid, but no contents have these values.
    BadValue,
    /// An allocation failed.
    Memory,
}

impl From<AllocError> for DecodeFault {
    ghost from_gives = { λ _ fault. fault ≡ Memory };

    fn from(_: AllocError) -> Self {
        DecodeFault::Memory
    }
}

impl<T: Drop> From<AllocFailed<T>> for DecodeFault {
    ghost from_gives = { λ _ fault. fault ≡ Memory };

    fn from(_: AllocFailed<T>) -> Self {
        DecodeFault::Memory
    }
}

// All parts but the files, as a map encodes them. They are read before anything is allocated.
#[derive(Drop)]
struct Read<'a> {
    enables: Option<Enables>,
    registers: Registers,
    user: UserData,
    macros: WrittenMacros<'a>,
    recall: bool,
}

impl<A: Allocator + Copy> Contents<A> {
    /// Decodes the contents that this map encodes. A map that encodes no contents is refused: BadKey for a key that no
    /// contents have, else BadValue. An allocation can fail only for a map that encodes contents.
    pub fn decode_items(alloc: A, items: &Items<A>) -> Result<Contents<A>, DecodeFault>
        ensures items { IfOk result (λ contents. items_of contents ≡ items.now) }
        ensures are { IfOk result IsContents }
        ensures fault { IfErr result (IsFault items.now) }
    {
        if !has_keys(items.pairs()) {
            return Err(DecodeFault::BadKey);
        }
        let read = parts_of(items)?;
        Ok(build(alloc, &read, items)?)
    }
}

// Reads the parts of a map, if it encodes contents.
fn parts_of<A: Allocator + Copy>(items: &Items<A>) -> Result<Read<'_>, DecodeFault>
    requires { has_keys items.now ≡ true }
    ensures are { IfOk result (λ r. IsContents (contents_of r.registers r.user r.macros.items r.enables (files_in items.now) r.recall)) }
    ensures items { IfOk result (λ r. items_of (contents_of r.registers r.user r.macros.items r.enables (files_in items.now) r.recall) ≡ items.now) }
    ensures bad { IfErr result (λ e. e ≡ BadValue) }
    ensures none { IfErr result (λ e. RepresentsContents items.now → ⊥) }
{
    let enables = enables_in(items.get(&[ENABLES_KEY]))?;
    let registers = registers_in(items)?;
    let user = user_in(items.get(&[USER_KEY]))?;
    let macros = macros_in(items.get(&[MACROS_KEY]))?;
    let recall = recall_in(items.get(&[RECALL_KEY]))?;
    if !fit_files(items.pairs()) {
        return Err(DecodeFault::BadValue);
    }
    Ok(Read {
        enables,
        registers,
        user,
        macros,
        recall,
    })
}

// Builds the contents from the parts that were read.
fn build<A: Allocator + Copy>(
    alloc: A,
    read: &Read<'_>,
    items: &Items<A>,
) -> Result<Contents<A>, AllocError>
    requires { IsContents (contents_of read.now.registers read.now.user read.now.macros.items read.now.enables (files_in items.now) read.now.recall) }
    ensures { IfOk result (λ c. c ≡ contents_of read.now.registers read.now.user read.now.macros.items read.now.enables (files_in items.now) read.now.recall) }
{
    Ok(Contents {
        alloc,
        registers: read.registers.copy(),
        user: read.user.copy(),
        macros: defined(alloc, read.macros.as_slice())?,
        enables: read.enables,
        files: Files::of(files_of(alloc, items)?),
        recall: read.recall,
    })
}

// Copies the macros into memory of their own.
fn defined<A: Allocator + Copy>(alloc: A, all: &[Written<'_>]) -> Result<Macros<A>, AllocError>
    requires good { AllByRecursion IsMacro all.now }
    requires distinct { HasDistinct all.now }
    ensures { IfOk result (λ macros. macros ≡ all.now) }
{
    let mut macros = Macros::new(alloc);
    for written in all {
        written.define(alloc, &mut macros)?;
    }
    Ok(macros)
}

// Reads SRE and ESE from the value of their key; `None` if it has none.
fn enables_in(value: Option<&[u8]>) -> Result<Option<Enables>, DecodeFault>
    ensures found { IfOk result (λ enables. value_in (enables_items enables) ≡ option_map (λ v. v.now) value.entry) }
    ensures mss { IfOk result (λ enables. ForSome enables (λ e. bit_and e.sre 64 ≡ 0)) }
    ensures bad { IfErr result (λ e. e ≡ BadValue) }
    ensures none { IfErr result (λ e. (enables : Option Enables) → ForSome enables (λ e. bit_and e.sre 64 ≡ 0)
        → value_in (enables_items enables) ≡ option_map (λ v. v.now) value.entry → ⊥) }
{
    match value {
        None => Ok(None),
        Some([sre, ese]) => {
            if *sre & 64 != 0 {
                return Err(DecodeFault::BadValue);
            }
            Ok(Some(Enables {
                sre: *sre,
                ese: *ese,
            }))
        }
        Some(_) => Err(DecodeFault::BadValue),
    }
}

// Reads the registers from the values of their keys.
fn registers_in<A: Allocator + Copy>(items: &Items<A>) -> Result<Registers, DecodeFault>
    ensures count { IfOk result (λ registers. length registers ≡ 100) }
    ensures are { IfOk result (λ registers. AllByRecursion AreSettings registers) }
    ensures found { IfOk result (λ registers. (r : ℕ) → r < 100 → value_in (register_items r (slice_index_or registers r reset)) ≡ get items.now (2 ∷ r ∷ [])) }
    ensures bad { IfErr result (λ e. e ≡ BadValue) }
    ensures none { IfErr result (λ e. RepresentsContents items.now → ⊥) }
{
    let mut registers = Registers::reset();
    for number in 0..REGISTERS as u8 {
        put_register(
            &mut registers,
            number,
            register_in(items.get(&[REGISTER_KEY, number]))?,
        );
    }
    Ok(registers)
}

// Stores settings in the register with this number.
fn put_register(registers: &mut Registers, number: u8, settings: Settings)
    requires { number < 100 }
    ensures { registers.new ≡ slice_set registers.old number settings }
{
    if let Some(register) = Register::of(number) {
        registers.set(register, settings);
    }
}

// Reads the settings of a register from the value of its key.
fn register_in(value: Option<&[u8]>) -> Result<Settings, DecodeFault>
    ensures found { IfOk result (λ settings. (r : ℕ) → value_in (register_items r settings) ≡ option_map (λ v. v.now) value.entry) }
    ensures are { IfOk result AreSettings }
    ensures bad { IfErr result (λ e. e ≡ BadValue) }
    ensures none { IfErr result (λ e. (settings : List Each) → (r : ℕ) → AreSettings settings
        → value_in (register_items r settings) ≡ option_map (λ v. v.now) value.entry → ⊥) }
{
    let reset = Settings::reset();
    let Some(bytes) = value else {
        return Ok(reset);
    };
    if bytes == reset.to_bytes().as_slice() {
        return Err(DecodeFault::BadValue);
    }
    match Settings::of_bytes(bytes) {
        Some(settings) => Ok(settings),
        None => Err(DecodeFault::BadValue),
    }
}

// Reads user data from the value of its key.
fn user_in(value: Option<&[u8]>) -> Result<UserData, DecodeFault>
    ensures found { IfOk result (λ user. value_in (user_items user) ≡ option_map (λ v. v.now) value.entry) }
    ensures most { IfOk result (λ user. length user ≤ 63) }
    ensures bad { IfErr result (λ e. e ≡ BadValue) }
    ensures none { IfErr result (λ e. (user : List ℕ) → length user ≤ 63 → value_in (user_items user) ≡ option_map (λ v. v.now) value.entry → ⊥) }
{
    match value {
        None => Ok(UserData::none()),
        Some([]) => Err(DecodeFault::BadValue),
        Some(bytes) => match UserData::of(bytes) {
            Some(user) => Ok(user),
            None => Err(DecodeFault::BadValue),
        },
    }
}

// Reads the macros from the value of their key.
fn macros_in(value: Option<&[u8]>) -> Result<WrittenMacros<'_>, DecodeFault>
    ensures found { IfOk result (λ macros. value_in (macros_items macros.items) ≡ option_map (λ v. v.now) value.entry) }
    ensures are { IfOk result (λ macros. AllByRecursion IsMacro macros.items) }
    ensures distinct { IfOk result (λ macros. HasDistinct macros.items) }
    ensures most { IfOk result (λ macros. length macros.items ≤ 32) }
    ensures bad { IfErr result (λ e. e ≡ BadValue) }
    ensures none { IfErr result (λ e. (macros : List Macro) → AllByRecursion IsMacro macros → HasDistinct macros
        → length macros ≤ 32 → value_in (macros_items macros) ≡ option_map (λ v. v.now) value.entry → ⊥) }
{
    match value {
        None => Ok(ArrayVec::new()),
        Some([]) => Err(DecodeFault::BadValue),
        Some(bytes) => match macros_of(bytes) {
            Some(macros) => Ok(macros),
            None => Err(DecodeFault::BadValue),
        },
    }
}
