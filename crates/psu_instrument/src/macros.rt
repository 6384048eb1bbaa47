//! Macros.
ghost use Rattle.std.specs.Prelude.{◌≡◌, ℕ, ◌++◌, Bool, IfOk, OnOk, OnErr};
ghost use Rattle.psu_lex.specs.ByteStorage.{NeedsAllocation};
ghost use Rattle.psu_instrument.specs.Instrument.{Instrument as State};
ghost use Rattle.psu_instrument.specs.Macros.{labels_text, more_labels, on_label, quoted};
ghost use Rattle.psu_instrument.specs.Meaning.{ActsAs, situation, text_of};

use crate::Act;
use psu_lex::{Bytes, ScpiError, definite};
use psu_nv::{Contents, Label, NvCommand};
use psu_tree::{OnMacro, Text};
use std::alloc::{AllocError, Allocator};

// Returns a label or a name; an invalid one is the empty text.
pub(crate) fn text_of<'c>(text: &Option<Text<'c>>) -> &'c [u8]
    ensures { result.now ≡ text_of text.now }
{
    match text {
        Some(text) => text.as_slice(),
        None => &[],
    }
}

// `*GMC?`, `*RMC`.
pub(crate) fn on_label<'c, A: Allocator + Copy>(
    alloc: A,
    contents: &Contents<A>,
    what: OnMacro,
    label: &Option<Text<'c>>,
) -> Result<Act<'c, A>, ScpiError>
    ensures { (limit : ℕ) (i : State) (available : Bool) → ActsAs (on_label (situation limit contents.now i available) what label.now) i result i }
{
    let label = text_of(label);
    match what {
        OnMacro::Ask => match contents.body(label) {
            Some(body) => Ok(Act::Answer(definite(alloc, body)?)),
            None => Err(ScpiError::MacroHeaderNotFound),
        },
        OnMacro::Remove => Ok(Act::Keep(NvCommand::RemoveMacro(label))),
    }
}

// Appends a text in quotes.
pub(crate) fn put_quoted<A: Allocator + Copy>(
    text: &mut Bytes<A>,
    bytes: &[u8],
) -> Result<(), AllocError>
    ensures ok { OnOk result (text.new ≡ text.old ++ quoted bytes.now) }
    ensures many { OnErr result (NeedsAllocation (text.old ++ quoted bytes.now)) }
{
    text.put(b"\"")?;
    text.put(bytes)?;
    text.put(b"\"")
}

// Appends labels that follow a first one.
fn put_more<A: Allocator + Copy>(text: &mut Bytes<A>, labels: &[Label]) -> Result<(), AllocError>
    ensures ok { OnOk result (text.new ≡ text.old ++ more_labels labels.now) }
    ensures many { OnErr result (NeedsAllocation (text.old ++ more_labels labels.now)) }
{
    for label in labels {
        text.put(b",")?;
        put_quoted(text, label.bytes())?;
    }
    Ok(())
}

// Returns the labels as response data.
pub(crate) fn labels_text<A: Allocator + Copy>(
    alloc: A,
    labels: &[Label],
) -> Result<Bytes<A>, AllocError>
    ensures ok { IfOk result (λ text. text ≡ labels_text labels.now) }
    ensures many { OnErr result (NeedsAllocation (labels_text labels.now)) }
{
    let mut text = Bytes::new(alloc);
    match labels {
        [] => put_quoted(&mut text, &[])?,
        [first, others @ ..] => {
            put_quoted(&mut text, first.bytes())?;
            put_more(&mut text, others)?;
        }
    }
    Ok(text)
}
