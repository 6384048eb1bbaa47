//! Which pages of a disk are free.
ghost use Rattle.std.specs.Prelude.{◌≡◌, ◌<◌, ◌≤◌, ◌^◌, ◌↔◌, ℕ, true, false, length, take, replicate, slice_set, IfOk, OnOk, IsErrOf, IsTrue};
ghost use Rattle.std.specs.List.{AllByRecursion};
ghost use Rattle.psu_pages.specs.Free.{is_free, free_pages, AreClaimed, Marks};
ghost use Rattle.psu_pages.specs.Image.{AreApart, pages_of};
ghost use Rattle.psu_pages.specs.declared.faults.PageFault.TheVariants.{NoPage, Device, Memory};

use crate::{Head, PageFault};
use std::alloc::{AllocError, Allocator};
use std::marker::Model;

/// The set of the free pages, out of a fixed number of pages. Contracts see a mark for each page.
#[derive(Drop)]
pub struct FreeMap<A: Allocator + Copy> {
    free: Vec<bool, A>,
}

impl<A: Allocator + Copy> Model for FreeMap<A> {
    ghost use Rattle.std.specs.Prelude.{List, Bool};

    ghost Value = { List Bool };

    ghost view = { λ m. m.free.items };
}

impl<A: Allocator + Copy> FreeMap<A> {
    /// Returns a map of so many pages, all free. Allocates the memory of the map: no later call enlarges it.
    pub fn new(alloc: A, pages: u16) -> Result<FreeMap<A>, AllocError>
        ensures { IfOk result (λ map. map ≡ replicate pages true) }
    {
        Ok(FreeMap {
            free: vec![in alloc; true; pages as usize]?,
        })
    }

    /// Whether a page is free.
    pub fn is_free(&self, page: u16) -> bool
        requires { page < length self.now }
        ensures { result ≡ is_free self.now page }
    {
        self.free[usize::from(page)]
    }

    /// Claims a page that is free.
    pub fn claim(&mut self, page: u16)
        requires { is_free self.old page ≡ true }
        ensures { self.new ≡ slice_set self.old page false }
    {
        self.keep(page);
    }

    /// Releases a claimed page.
    pub fn free(&mut self, page: u16)
        requires there { page < length self.old }
        requires claimed { is_free self.old page ≡ false }
        ensures { self.new ≡ slice_set self.old page true }
    {
        self.free[page as usize] = true;
    }

    /// Releases claimed pages.
    pub(crate) fn free_all(&mut self, pages: &[u16])
        requires there { AllByRecursion (λ page. page < length self.old) pages.now }
        requires claimed { AllByRecursion (λ page. is_free self.old page ≡ false) pages.now }
        requires apart { AreApart pages.now }
        ensures { Marks true pages.now self.old self.new }
    {
        for page in pages {
            self.free(*page);
        }
    }

    /// Releases the pages of a head.
    pub(crate) fn free_head(&mut self, head: &Head<A>)
        requires there { AllByRecursion (λ page. page < length self.old) (pages_of head.now) }
        requires claimed { AreClaimed self.old (pages_of head.now) }
        requires apart { AreApart (pages_of head.now) }
        ensures { Marks true (pages_of head.now) self.old self.new }
    {
        self.free(head.at());
        self.free_all(head.pages());
    }

    /// Claims a page, whether or not it is free.
    pub(crate) fn keep(&mut self, page: u16)
        requires { page < length self.old }
        ensures { self.new ≡ slice_set self.old page false }
    {
        self.free[page as usize] = false;
    }

    /// Claims pages, whether or not they are free.
    pub(crate) fn keep_all(&mut self, pages: &[u16])
        requires { AllByRecursion (λ page. page < length self.old) pages.now }
        ensures { Marks false pages.now self.old self.new }
    {
        for page in pages {
            self.keep(*page);
        }
    }

    /// Claims the pages of a head, whether or not they are free.
    pub(crate) fn keep_head(&mut self, head: &Head<A>)
        requires { AllByRecursion (λ page. page < length self.old) (pages_of head.now) }
        ensures { Marks false (pages_of head.now) self.old self.new }
    {
        self.keep(head.at());
        self.keep_all(head.pages());
    }

    /// Claims a page if it is free. Returns whether it was.
    pub(crate) fn take(&mut self, page: u16) -> bool
        ensures was { result ≡ is_free self.old page }
        ensures taken { result ≡ true → self.new ≡ slice_set self.old page false }
        ensures refused { result ≡ false → self.new ≡ self.old }
    {
        let at = page as usize;
        if at >= self.free.len() || !self.free[at] {
            return false;
        }
        self.free[at] = false;
        true
    }

    /// Claims pages in their order, up to the first that isn't free. Returns whether all of them were claimed.
    pub(crate) fn take_all(&mut self, pages: &[u16]) -> bool
        ensures size { length self.new ≡ length self.old }
        ensures were_free { result ≡ true → AllByRecursion (λ page. is_free self.old page ≡ true) pages.now }
        ensures apart { result ≡ true → AreApart pages.now }
        ensures taken { result ≡ true → Marks false pages.now self.old self.new }
        ensures refused { result ≡ false → AllByRecursion (λ page. is_free self.old page ≡ true) pages.now → AreApart pages.now → ⊥ }
    {
        for page in pages {
            if !self.take(*page) {
                return false;
            }
        }
        true
    }

    /// Returns the first free pages, as many as requested. They are searched for once, and counted only if an
    /// allocation fails.
    pub(crate) fn pick_free(&self, alloc: A, count: usize) -> Result<Vec<u16, A>, PageFault>
        requires { length self.now ≤ 2 ^ 16 }
        ensures pages { IfOk result (λ pages. pages.items ≡ take count (free_pages self.now)) }
        ensures enough { OnOk result (count ≤ length (free_pages self.now)) }
        ensures no_page { IsErrOf result NoPage → length (free_pages self.now) < count }
        ensures memory { IsErrOf result Memory → count ≤ length (free_pages self.now) }
        ensures no_call { IsErrOf result Device → ⊥ }
    {
        match self.first_free(alloc, count) {
            Ok(pages) if pages.len() == count => Ok(pages),
            Err(AllocError) if self.has_free(count) => Err(PageFault::Memory),
            Ok(_) | Err(AllocError) => Err(PageFault::NoPage),
        }
    }

    /// Whether at least so many pages are free. The search goes no further than the last of them.
    pub(crate) fn has_free(&self, count: usize) -> bool
        ensures { IsTrue result ↔ (count ≤ length (free_pages self.now)) }
    {
        let mut wanted = count;
        for free in &self.free {
            if wanted == 0 {
                return true;
            }
            if *free {
                wanted -= 1;
            }
        }
        wanted == 0
    }

    /// Returns the first free pages: as many as requested, or all if there are fewer. The search goes no further than
    /// the last of them.
    pub(crate) fn first_free(&self, alloc: A, count: usize) -> Result<Vec<u16, A>, AllocError>
        requires { length self.now ≤ 2 ^ 16 }
        ensures { IfOk result (λ pages. pages.items ≡ take count (free_pages self.now)) }
    {
        let mut pages = Vec::with_capacity(alloc, count)?;
        if count == 0 {
            return Ok(pages);
        }
        for (page, free) in self.free.iter().enumerate() {
            if *free {
                pages.push(page as u16)?;
                if pages.len() == count {
                    return Ok(pages);
                }
            }
        }
        Ok(pages)
    }
}
