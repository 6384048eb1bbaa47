//! Files.
ghost use Rattle.std.specs.Prelude.{◌≡◌, ℕ, ◌++◌, Bool, IfOk, OnOk, OnErr};
ghost use Rattle.psu_lex.specs.ByteStorage.{NeedsAllocation};
ghost use Rattle.psu_nv.specs.Contents.{Contents as Kept};
ghost use Rattle.psu_instrument.specs.Files.{catalog_text, entries, entry_of, macro_moved, on_name, on_two, state_moved, stored};
ghost use Rattle.psu_instrument.specs.Instrument.{Instrument as State};
ghost use Rattle.psu_instrument.specs.Meaning.{ActsAs, situation};

use crate::Act;
use crate::macros::text_of;
use psu_lex::{Bytes, ScpiError, definite, is_name};
use psu_map::{PAGE_SIZE, Pair};
use psu_nv::{Contents, FileBytes, FileKind, NvCommand, Register};
use psu_tree::{OnFile, OnNames, Text, Transfer};
use std::alloc::{AllocError, Allocator};

// `MMEMory:DATA`.
pub(crate) fn stored<'c, A: Allocator + Copy>(
    name: &Option<Text<'c>>,
    bytes: &Text<'c>,
) -> Result<Act<'c, A>, ScpiError>
    ensures { (limit : ℕ) (contents : Kept) (i : State) (available : Bool)
        → ActsAs (stored (situation limit contents i available) name.now bytes.now) i result i }
{
    let Some(file) = FileBytes::of(bytes.as_slice()) else {
        return Err(ScpiError::TooMuchData);
    };
    Ok(Act::Keep(NvCommand::StoreBytes(text_of(name), file)))
}

// `MMEMory:DATA?`, `MMEMory:DELete`.
pub(crate) fn on_name<'c, A: Allocator + Copy>(
    alloc: A,
    contents: &Contents<A>,
    what: OnFile,
    name: &Option<Text<'c>>,
) -> Result<Act<'c, A>, ScpiError>
    ensures { (limit : ℕ) (i : State) (available : Bool) → ActsAs (on_name (situation limit contents.now i available) what name.now) i result i }
{
    let name = text_of(name);
    match what {
        OnFile::Ask => {
            if !is_name(name) {
                return Err(ScpiError::FileNameError);
            }
            if !contents.has_file(name) {
                return Err(ScpiError::FileNameNotFound);
            }
            Ok(Act::Answer(definite(alloc, contents.bytes_of(name))?))
        }
        OnFile::Delete => Ok(Act::Keep(NvCommand::Delete(name))),
    }
}

// `MMEMory:COPY`, `MMEMory:MOVE`.
pub(crate) fn on_two<'c, A: Allocator + Copy>(
    what: OnNames,
    from: &Option<Text<'c>>,
    to: &Option<Text<'c>>,
) -> Result<Act<'c, A>, ScpiError>
    ensures { (limit : ℕ) (contents : Kept) (i : State) (available : Bool)
        → ActsAs (on_two (situation limit contents i available) what from.now to.now) i result i }
{
    let from = text_of(from);
    let to = text_of(to);
    match what {
        OnNames::Copy => Ok(Act::Keep(NvCommand::Copy(from, to))),
        OnNames::Move => Ok(Act::Keep(NvCommand::Move(from, to))),
    }
}

// `MMEMory:STORe:STATe`, `MMEMory:LOAD:STATe`.
pub(crate) fn state_moved<'c, A: Allocator + Copy>(
    way: Transfer,
    number: u8,
    name: &Option<Text<'c>>,
) -> Result<Act<'c, A>, ScpiError>
    ensures { (limit : ℕ) (contents : Kept) (i : State) (available : Bool)
        → ActsAs (state_moved (situation limit contents i available) way number name.now) i result i }
{
    let Some(register) = Register::of(number) else {
        return Err(ScpiError::DataOutOfRange);
    };
    let name = text_of(name);
    match way {
        Transfer::Store => Ok(Act::Keep(NvCommand::StoreState(register, name))),
        Transfer::Load => Ok(Act::Keep(NvCommand::LoadState(register, name))),
    }
}

// `MMEMory:STORe:MACRo`, `MMEMory:LOAD:MACRo`.
pub(crate) fn macro_moved<'c, A: Allocator + Copy>(
    way: Transfer,
    label: &Option<Text<'c>>,
    name: &Option<Text<'c>>,
) -> Result<Act<'c, A>, ScpiError>
    ensures { (limit : ℕ) (contents : Kept) (i : State) (available : Bool)
        → ActsAs (macro_moved (situation limit contents i available) way label.now name.now) i result i }
{
    let label = text_of(label);
    let name = text_of(name);
    match way {
        Transfer::Store => Ok(Act::Keep(NvCommand::StoreMacro(label, name))),
        Transfer::Load => Ok(Act::Keep(NvCommand::LoadMacro(label, name))),
    }
}

// Appends a file's name, type and size.
fn put_entry<A: Allocator + Copy>(
    text: &mut Bytes<A>,
    name: &[u8],
    value: &[u8],
) -> Result<(), AllocError>
    ensures ok { OnOk result (text.new ≡ text.old ++ entry_of name.now value.now) }
    ensures many { OnErr result (NeedsAllocation (text.old ++ entry_of name.now value.now)) }
{
    let [code, bytes @ ..] = value else {
        return Ok(());
    };
    text.put(b",\"")?;
    text.put(name)?;
    text.put(b",")?;
    text.put(FileKind::of_stored(*code).text())?;
    text.put(b",")?;
    text.put_number(bytes.len() as u128)?;
    text.put(b"\"")
}

// Appends the name, type and size of each file.
fn put_entries<A: Allocator + Copy>(
    text: &mut Bytes<A>,
    files: &[Pair<A>],
) -> Result<(), AllocError>
    ensures ok { OnOk result (text.new ≡ text.old ++ entries files.now) }
    ensures many { OnErr result (NeedsAllocation (text.old ++ entries files.now)) }
{
    for file in files {
        put_entry(text, file.key(), file.value())?;
    }
    Ok(())
}

// Returns the response to `MMEMory:CATalog?`, whose unit of space is a page.
pub(crate) fn catalog_text<A: Allocator + Copy>(
    alloc: A,
    limit: u16,
    contents: &Contents<A>,
) -> Result<Bytes<A>, AllocError>
    ensures ok { IfOk result (λ text. text ≡ catalog_text limit contents.now) }
    ensures many { OnErr result (NeedsAllocation (catalog_text limit contents.now)) }
{
    let cost = contents.cost();
    let left = (limit as u128).saturating_sub(cost);
    let mut text = Bytes::new(alloc);
    text.put_number(PAGE_SIZE as u128 * cost)?;
    text.put(b",")?;
    text.put_number(PAGE_SIZE as u128 * left)?;
    put_entries(&mut text, contents.names())?;
    Ok(text)
}
