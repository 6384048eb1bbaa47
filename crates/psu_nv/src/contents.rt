//! The nonvolatile contents, as one value.
ghost use Rattle.std.specs.Prelude.{◌≡◌, ◌≤◌, length, map, IfOk, IfSome, option_map, Option, Some, None};
ghost use Rattle.psu_map.specs.Map.{get};
ghost use Rattle.psu_settings.specs.Settings.{is_reset};
ghost use Rattle.psu_nv.specs.Contents.{fresh};
ghost use Rattle.psu_nv.specs.Commands.{settings_at};

use crate::files::Files;
use crate::macros::Macros;
use crate::registers::Registers;
use crate::{File, FileKind, Label, Register, UserData};
use psu_map::Pair;
use psu_settings::Settings;
use psu_status::Enables;
use std::alloc::{AllocError, Allocator};
use std::marker::Model;

/// The nonvolatile contents: a hundred registers of settings, user data, macros, the enables where the power-on status
/// clear flag is false, files, and whether the settings at power-on are those of register 0. Contracts see the
/// `Contents` of `specs/`.
#[derive(Drop)]
pub struct Contents<A: Allocator + Copy> {
    pub(crate) alloc: A,
    pub(crate) registers: Registers,
    pub(crate) user: UserData,
    pub(crate) macros: Macros<A>,
    pub(crate) enables: Option<Enables>,
    pub(crate) files: Files<A>,
    pub(crate) recall: bool,
}

impl<A: Allocator + Copy> Model for Contents<A> {
    ghost use Rattle.psu_nv.specs.Contents.{Contents, contents_of, IsContents};

    ghost Value = { Contents };

    ghost view = { λ c. contents_of c.registers c.user c.macros c.enables c.files c.recall };

    ghost invariant = { λ c. IsContents (contents_of c.registers c.user c.macros c.enables c.files c.recall) };
}

impl<A: Allocator + Copy> Contents<A> {
    /// Returns freshly formatted contents: reset settings in each register, the power-on status clear flag true, and
    /// nothing else.
    pub fn fresh(alloc: A) -> Contents<A>
        ensures { result ≡ fresh }
    {
        Contents {
            alloc,
            registers: Registers::reset(),
            user: UserData::none(),
            macros: Macros::new(alloc),
            enables: None,
            files: Files::new(alloc),
            recall: false,
        }
    }

    /// The settings of a register.
    pub fn register(&self, register: Register) -> Settings
        ensures { result ≡ settings_at self.now.registers register.number }
    {
        self.registers.get(register)
    }

    /// Whether a register holds the settings of `*RST`, and so has no item.
    pub fn is_reset(&self, register: Register) -> bool
        ensures { result ≡ is_reset (settings_at self.now.registers register.number) }
    {
        self.registers.is_reset(register)
    }

    /// The user data.
    pub fn user(&self) -> &[u8]
        ensures value { result.now ≡ self.now.user }
        ensures most { length result.now ≤ 63 }
    {
        self.user.bytes()
    }

    /// SRE and ESE if the power-on status clear flag is false; `None` if it is true.
    pub fn enables(&self) -> Option<Enables>
        ensures { result ≡ self.now.enables }
    {
        self.enables
    }

    /// The labels of the macros as they were written, in order of definition.
    pub fn labels(&self) -> &[Label]
        ensures { result.now ≡ map (λ m. m.label) self.now.macros }
    {
        self.macros.labels()
    }
}

impl<A: Allocator + Copy> Contents<A> {
    ghost use Rattle.std.specs.Prelude.{◌∷◌, MatchOption};
    ghost use Rattle.psu_nv.specs.Contents.{body_at};
    ghost use Rattle.psu_nv.specs.Views.{code_of};

    /// The body of the macro with this label, compared without regard to case; `None` if no macro has it.
    pub fn body(&self, label: &[u8]) -> Option<&[u8]>
        ensures value { option_map (λ body. body.now) result ≡ body_at self.now.macros label.now }
        ensures most { IfSome result (λ body. length body.now ≤ 1024) }
    {
        self.macros.body(&Label::of(label)?)
    }

    /// The file with this name; `None` if there is none.
    pub fn file(&self, name: &[u8]) -> Option<File<'_>>
        ensures { MatchOption result (get self.now.files name.now ≡ None) (λ file. get self.now.files name.now ≡ Some (code_of file.kind ∷ file.bytes.now)) }
    {
        match self.files.get(name)? {
            [] => None,
            [code, bytes @ ..] => match FileKind::of_code(*code) {
                Some(kind) => Some(File { kind, bytes }),
                None => None,
            },
        }
    }

    /// The files in byte order of their names: each pair has the name, and the byte of its type followed by its bytes.
    pub fn names(&self) -> &[Pair<A>]
        ensures { result.now ≡ self.now.files }
    {
        self.files.pairs()
    }
}
