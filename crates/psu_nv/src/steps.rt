//! The changes that read another part of the contents, or allocate.
ghost use Rattle.std.specs.Prelude.{◌≡◌, ◌<◌, ◌≤◌, None, length, OnOk, OnErr};
ghost use Rattle.psu_nv.specs.Commands.{DefineMacro, StoreBytes, Copy, Move, StoreState, LoadState, StoreMacro, LoadMacro, apply, refused};

use crate::body::Body;
use crate::{Contents, Register};
use std::alloc::{AllocError, Allocator};

impl<A: Allocator + Copy> Contents<A> {
    #[tactic(auto, unfolding(crate::specs::Commands::apply))]
    pub(crate) fn load_state(&mut self, register: Register, name: &[u8])
        requires { refused self.old (LoadState register.number name.now) ≡ None }
        ensures { self.new ≡ apply self.old (LoadState register.number name.now) }
    {
        let settings = self.state_of(name);
        self.set_register(register, settings);
    }

    #[tactic(auto, unfolding(crate::specs::Commands::apply))]
    pub(crate) fn define(&mut self, label: &[u8], body: &[u8]) -> Result<(), AllocError>
        requires found { refused self.old (DefineMacro label.now body.now) ≡ None }
        requires room { length self.old.macros < 32 }
        ensures ok { OnOk result (self.new ≡ apply self.old (DefineMacro label.now body.now)) }
        ensures err { OnErr result (self.new ≡ self.old) }
    {
        let body = Body::of(self.alloc, body)?;
        self.put_macro(label, body)
    }

    #[tactic(auto, unfolding(crate::specs::Commands::apply))]
    pub(crate) fn load_macro(&mut self, label: &[u8], name: &[u8]) -> Result<(), AllocError>
        requires found { refused self.old (LoadMacro label.now name.now) ≡ None }
        requires room { length self.old.macros < 32 }
        ensures ok { OnOk result (self.new ≡ apply self.old (LoadMacro label.now name.now)) }
        ensures err { OnErr result (self.new ≡ self.old) }
    {
        let body = Body::of(self.alloc, self.bytes_of(name))?;
        self.put_macro(label, body)
    }

    #[tactic(auto, unfolding(crate::specs::Commands::apply))]
    pub(crate) fn store_bytes(&mut self, name: &[u8], bytes: &[u8]) -> Result<(), AllocError>
        requires found { refused self.old (StoreBytes name.now bytes.now) ≡ None }
        requires most { length bytes.now ≤ 32768 }
        ensures ok { OnOk result (self.new ≡ apply self.old (StoreBytes name.now bytes.now)) }
        ensures err { OnErr result (self.new ≡ self.old) }
    {
        let value = self.value_with(0, bytes)?;
        self.put_file(name, value)
    }

    #[tactic(auto, unfolding(crate::specs::Commands::apply))]
    pub(crate) fn store_state(&mut self, register: Register, name: &[u8]) -> Result<(), AllocError>
        requires { refused self.old (StoreState register.number name.now) ≡ None }
        ensures ok { OnOk result (self.new ≡ apply self.old (StoreState register.number name.now)) }
        ensures err { OnErr result (self.new ≡ self.old) }
    {
        let value = self.value_with(1, &self.register(register).to_bytes())?;
        self.put_file(name, value)
    }

    #[tactic(auto, unfolding(crate::specs::Commands::apply))]
    pub(crate) fn store_macro(&mut self, label: &[u8], name: &[u8]) -> Result<(), AllocError>
        requires { refused self.old (StoreMacro label.now name.now) ≡ None }
        ensures ok { OnOk result (self.new ≡ apply self.old (StoreMacro label.now name.now)) }
        ensures err { OnErr result (self.new ≡ self.old) }
    {
        let value = self.value_with(2, self.body_of(label))?;
        self.put_file(name, value)
    }

    #[tactic(auto, unfolding(crate::specs::Commands::apply))]
    pub(crate) fn copy_file(&mut self, from: &[u8], to: &[u8]) -> Result<(), AllocError>
        requires { refused self.old (Copy from.now to.now) ≡ None }
        ensures ok { OnOk result (self.new ≡ apply self.old (Copy from.now to.now)) }
        ensures err { OnErr result (self.new ≡ self.old) }
    {
        let value = self.value_of(from).to_vec(self.alloc)?;
        self.put_file(to, value)
    }

    #[tactic(auto, unfolding(crate::specs::Commands::apply))]
    pub(crate) fn move_file(&mut self, from: &[u8], to: &[u8]) -> Result<(), AllocError>
        requires { refused self.old (Move from.now to.now) ≡ None }
        ensures ok { OnOk result (self.new ≡ apply self.old (Move from.now to.now)) }
        ensures err { OnErr result (self.new ≡ self.old) }
    {
        let value = self.value_of(from).to_vec(self.alloc)?;
        self.put_file(to, value)?;
        self.drop_file(from);
        Ok(())
    }
}
