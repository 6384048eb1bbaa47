//! Whether the settings at power-on are those of register 0.
ghost use Rattle.std.specs.Prelude.{◌≡◌, ◌≤◌, Bool, IfOk, IfErr, option_map};
ghost use Rattle.psu_map.specs.Map.{cost};
ghost use Rattle.psu_nv.specs.declared.decode.DecodeFault.TheVariants.{BadValue};
ghost use Rattle.psu_nv.specs.Contents.{recall_items};
ghost use Rattle.psu_nv.specs.Commands.{apply};
ghost use Rattle.psu_nv.specs.Parts.{value_in};
ghost use Rattle.psu_nv.specs.Views.{command_of};

use crate::{Contents, DecodeFault, NvCommand};
use std::alloc::{AllocError, Allocator};

impl<A: Allocator + Copy> Contents<A> {
    /// Whether the settings at power-on are those of register 0; else they are those of `*RST`.
    pub fn recall(&self) -> bool
        ensures { result ≡ self.now.recall }
    {
        self.recall
    }

    pub(crate) fn set_recall(&mut self, on: bool)
        ensures { self.new ≡ record self.old { recall = on } }
    {
        self.recall = on;
    }

    // The value of the setting's item; `None` if the settings at power-on are those of `*RST`.
    pub(crate) fn recall_value(&self, alloc: A) -> Result<Option<Vec<u8, A>>, AllocError>
        ensures { IfOk result (λ value. option_map (λ bytes. bytes.items) value ≡ value_in (recall_items self.now.recall)) }
    {
        if self.recall {
            Ok(Some([1].to_vec(alloc)?))
        } else {
            Ok(None)
        }
    }

    // The pages of the setting's item after a command.
    #[tactic(auto, unfolding(crate::specs::Commands::apply))]
    pub(crate) fn recall_after(&self, command: &NvCommand) -> u8
        ensures { result ≡ cost (recall_items (apply self.now (command_of command.now)).recall) }
    {
        match command {
            NvCommand::Recall(on) => recall_pages(*on),
            _ => recall_pages(self.recall),
        }
    }
}

// The pages of the setting's item.
pub(crate) fn recall_pages(recall: bool) -> u8
    ensures { result ≡ cost (recall_items recall) }
{
    if recall { 2 } else { 0 }
}

// Whether the settings at power-on are those of register 0, by the value of the key; false if it has none.
pub(crate) fn recall_in(value: Option<&[u8]>) -> Result<bool, DecodeFault>
    ensures found { IfOk result (λ recall. value_in (recall_items recall) ≡ option_map (λ v. v.now) value.entry) }
    ensures bad { IfErr result (λ e. e ≡ BadValue) }
    ensures none { IfErr result (λ e. (recall : Bool) → value_in (recall_items recall) ≡ option_map (λ v. v.now) value.entry → ⊥) }
{
    match value {
        None => Ok(false),
        Some([1]) => Ok(true),
        Some(_) => Err(DecodeFault::BadValue),
    }
}
