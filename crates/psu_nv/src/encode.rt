//! Encoding contents as the map that stores them.
ghost use Rattle.std.specs.Prelude.{◌≡◌, ℕ, ◌++◌, ◌∷◌, [], map, IfOk, OnOk, OnErr, option_map};
ghost use Rattle.std.specs.List.{AllByRecursion};
ghost use Rattle.psu_map.specs.Map.{Item, Before};
ghost use Rattle.psu_nv.specs.Contents.{items_of, enables_items, register_items, registers_items, user_items, macros_items, file_item};
ghost use Rattle.psu_nv.specs.Parts.{key_of, part_items, value_in, edit_of};
ghost use Rattle.psu_nv.specs.Views.{part_of};

use crate::{Contents, Part, REGISTERS, Register};
use psu_map::{Batch, Items, Value};
use psu_settings::Settings;
use psu_status::Enables;
use std::alloc::{AllocError, Allocator};

impl<A: Allocator + Copy> Contents<A> {
    /// Encodes the contents as the map that stores them.
    pub fn encode_items(&self, alloc: A) -> Result<Items<A>, AllocError>
        ensures { IfOk result (λ items. items ≡ items_of self.now) }
    {
        let mut items = Items::new(alloc);
        self.append(alloc, &mut items, Part::Enables)?;
        self.append_registers(alloc, &mut items)?;
        self.append(alloc, &mut items, Part::User)?;
        self.append(alloc, &mut items, Part::Macros)?;
        self.append_files(alloc, &mut items)?;
        self.append(alloc, &mut items, Part::Recall)?;
        Ok(items)
    }

    // Appends the items of the registers after those of the enables.
    fn append_registers(&self, alloc: A, items: &mut Items<A>) -> Result<(), AllocError>
        requires { items.old ≡ enables_items self.now.enables }
        ensures { OnOk result (items.new ≡ enables_items self.now.enables ++ registers_items 0 self.now.registers) }
    {
        // A field is named, so that the proof has the invariant of the contents.
        let _ = &self.alloc;
        for number in 0..REGISTERS as u8 {
            if let Some(register) = Register::of(number) {
                self.append(alloc, items, Part::Register(register))?;
            }
        }
        Ok(())
    }

    // Appends the items of the files after those of all parts before them.
    fn append_files(&self, alloc: A, items: &mut Items<A>) -> Result<(), AllocError>
        requires { items.old ≡ ((enables_items self.now.enables ++ registers_items 0 self.now.registers) ++
            user_items self.now.user) ++ macros_items self.now.macros }
        ensures { OnOk result (items.new ≡ items.old ++ map file_item self.now.files) }
    {
        for pair in self.files.pairs() {
            let key = Part::File(pair.key()).key(alloc)?;
            items.append(key, pair.share_value()?)?;
        }
        Ok(())
    }

    /// Encodes the value of one part; `None` if the part is absent.
    pub fn encode_part(&self, alloc: A, part: Part<'_>) -> Result<Option<Vec<u8, A>>, AllocError>
        ensures { IfOk result (λ value. option_map (λ bytes. bytes.items) value ≡ value_in (part_items self.now (part_of part.entry))) }
    {
        match part {
            Part::Enables => match self.enables {
                Some(Enables { sre, ese }) => Ok(Some([sre, ese].to_vec(alloc)?)),
                None => Ok(None),
            },
            Part::Register(register) => settings_value(alloc, self.register(register)),
            Part::User => some_bytes(alloc, self.user.bytes()),
            Part::Macros => self.macros_value(alloc),
            Part::File(name) => match self.files.get(name) {
                Some(value) => Ok(Some(value.to_vec(alloc)?)),
                None => Ok(None),
            },
            Part::Recall => self.recall_value(alloc),
        }
    }

    /// Appends the edit that gives a map what these contents have of one part: the part's key with its value, or with
    /// `None` if the part is absent.
    pub fn edit(&self, alloc: A, batch: &mut Batch<A>, part: Part<'_>) -> Result<(), AllocError>
        ensures ok { OnOk result (batch.new ≡ batch.old ++ edit_of self.now (part_of part.entry) ∷ []) }
        ensures err { OnErr result (batch.new ≡ batch.old) }
    {
        let key = part.key(alloc)?;
        match self.encode_part(alloc, part)? {
            Some(value) => batch.assign(key, Value::new(value)?),
            None => batch.remove(key),
        }
    }

    // Appends the item of a part after all others, if the part is not absent.
    fn append(&self, alloc: A, items: &mut Items<A>, part: Part<'_>) -> Result<(), AllocError>
        requires { AllByRecursion (λ (i : Item). Before i.key (key_of (part_of part))) items.old }
        ensures { OnOk result (items.new ≡ items.old ++ part_items self.now (part_of part.entry)) }
    {
        if let Some(value) = self.encode_part(alloc, part)? {
            items.append(part.key(alloc)?, Value::new(value)?)?;
        }
        Ok(())
    }

    // Encodes the macros; `None` if there are none.
    fn macros_value(&self, alloc: A) -> Result<Option<Vec<u8, A>>, AllocError>
        ensures { IfOk result (λ value. option_map (λ bytes. bytes.items) value ≡ value_in (macros_items self.now.macros)) }
    {
        if self.macros.is_empty() {
            return Ok(None);
        }
        Ok(Some(self.macros.value(alloc)?))
    }
}

// Encodes settings in 28 bytes; `None` for those of `*RST`.
fn settings_value<A: Allocator + Copy>(
    alloc: A,
    settings: Settings,
) -> Result<Option<Vec<u8, A>>, AllocError>
    ensures { IfOk result (λ value. (number : ℕ) → option_map (λ bytes. bytes.items) value ≡ value_in (register_items number settings)) }
{
    if settings.is_reset() {
        return Ok(None);
    }
    Ok(Some(settings.to_bytes().to_vec(alloc)?))
}

// Copies the bytes; `None` if there are none.
fn some_bytes<A: Allocator + Copy>(alloc: A, bytes: &[u8]) -> Result<Option<Vec<u8, A>>, AllocError>
    ensures { IfOk result (λ value. option_map (λ kept. kept.items) value ≡ value_in (user_items bytes.now)) }
{
    if bytes.is_empty() {
        return Ok(None);
    }
    Ok(Some(bytes.to_vec(alloc)?))
}
