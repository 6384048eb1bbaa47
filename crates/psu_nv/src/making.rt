//! Changes of the parts of contents. Each one that allocates does so before it changes anything.
ghost use Rattle.std.specs.Prelude.{◌≡◌, ◌<◌, ◌≤◌, ◌++◌, ◌∷◌, [], length, slice_set, true, false, OnOk, OnErr, IfOk, bit_and};
ghost use Rattle.std.specs.Option.{ForSome};
ghost use Rattle.psu_map.specs.Map.{put, without};
ghost use Rattle.psu_lex.specs.Names.{is_label, is_name};
ghost use Rattle.psu_nv.specs.Contents.{has_label, begins_with_kind};
ghost use Rattle.psu_nv.specs.Commands.{macro_of, without_label, without_mss, kept, with_service, with_event};

use crate::body::Body;
use crate::{Contents, Label, Register, UserData};
use psu_settings::Settings;
use psu_status::Enables;
use std::alloc::{AllocError, Allocator};

impl<A: Allocator + Copy> Contents<A> {
    pub(crate) fn set_register(&mut self, register: Register, settings: Settings)
        ensures { self.new ≡ record self.old { registers = slice_set self.old.registers register.number settings } }
    {
        // Settings that a call returns lie within their ranges.
        let _ = settings.outputs();
        self.registers.set(register, settings);
    }

    pub(crate) fn set_user(&mut self, user: &UserData)
        ensures { self.new ≡ record self.old { user = user.now } }
    {
        let _ = user.bytes();
        self.user = user.copy();
    }

    pub(crate) fn purge(&mut self)
        ensures { self.new ≡ record self.old { macros = [] } }
    {
        self.macros.clear();
    }

    pub(crate) fn set_enables(&mut self, enables: Option<Enables>)
        ensures { self.new ≡ record self.old { enables = kept enables } }
    {
        self.enables = match enables {
            Some(kept) => Some(Enables {
                sre: without_mss(kept.sre),
                ..kept
            }),
            None => None,
        };
    }

    pub(crate) fn set_service(&mut self, bits: u8)
        ensures { self.new ≡ record self.old { enables = with_service self.old.enables bits } }
    {
        if let Some(kept) = self.enables {
            self.enables = Some(Enables {
                sre: without_mss(bits),
                ..kept
            });
        }
    }

    pub(crate) fn set_event(&mut self, bits: u8)
        ensures { self.new ≡ record self.old { enables = with_event self.old.enables bits } }
    {
        if let Some(kept) = self.enables {
            self.enables = Some(Enables { ese: bits, ..kept });
        }
    }

    // The type byte and the bytes of a file, as they are stored.
    pub(crate) fn value_with(&self, code: u8, bytes: &[u8]) -> Result<Vec<u8, A>, AllocError>
        ensures { IfOk result (λ value. value.items ≡ code ∷ bytes.now) }
    {
        let mut value = Vec::new(self.alloc);
        value.push(code)?;
        value.extend_from_slice(bytes)?;
        Ok(value)
    }

    pub(crate) fn put_file(&mut self, name: &[u8], value: Vec<u8, A>) -> Result<(), AllocError>
        requires name { is_name name.now ≡ true }
        requires kind { begins_with_kind value.items ≡ true }
        requires most { length value.items ≤ 32769 }
        ensures ok { OnOk result (self.new ≡ record self.old { files = put self.old.files name.now value.items }) }
        ensures err { OnErr result (self.new ≡ self.old) }
    {
        self.files.insert(name.to_vec(self.alloc)?, value)?;
        Ok(())
    }

    pub(crate) fn drop_file(&mut self, name: &[u8])
        ensures { self.new ≡ record self.old { files = without self.old.files name.now } }
    {
        self.files.remove(name);
    }

    pub(crate) fn put_macro(&mut self, label: &[u8], body: Body<A>) -> Result<(), AllocError>
        requires label { is_label label.now ≡ true }
        requires body { length body ≤ 1024 }
        requires free { has_label self.old.macros label.now ≡ false }
        requires room { length self.old.macros < 32 }
        ensures ok { OnOk result (self.new ≡ record self.old { macros = self.old.macros ++ macro_of label.now body ∷ [] }) }
        ensures err { OnErr result (self.new ≡ self.old) }
    {
        self.macros.define(Label::new(label), body)?;
        Ok(())
    }

    pub(crate) fn remove_macro(&mut self, label: &[u8])
        ensures { self.new ≡ record self.old { macros = without_label self.old.macros label.now } }
    {
        if let Some(label) = Label::of(label) {
            self.macros.remove(&label);
        }
    }
}

// Bit 6 of the service request enable register is ignored and reads 0.
fn without_mss(bits: u8) -> u8
    ensures value { result ≡ without_mss bits }
    ensures mss { bit_and result 64 ≡ 0 }
{
    bits & 191
}
