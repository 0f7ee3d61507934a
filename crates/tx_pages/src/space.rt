//! The pages of a process, by their numbers.
ghost use Rattle.std.specs.Bool.{OnTrue};
ghost use Rattle.std.specs.Option.{option_copied};
ghost use Rattle.std.specs.Prelude.{◌≡◌, ◌≢◌, ◌<◌, ◌≤◌, ℕ, ◌+◌, ◌++◌, ◌-◌, ◌/◌, ◌%◌, IfOk, IfErr, IfSome, OnOk, OnErr, is_some, length, min, slice_set};
ghost use Rattle.tx_model.specs.Book.{map, unmap, protect, store};
ghost use Rattle.tx_model.specs.Forms.{Caller};
ghost use Rattle.tx_model.specs.Memory.{no_memory, page_at, all_good, bytes_from, put_bytes, is_good};
ghost use Rattle.tx_pages.specs.Access.{test_of};
ghost use Rattle.tx_pages.specs.Frames.{written};
ghost use Rattle.tx_pages.specs.Outcomes.{Remembers, Loads, Takes, Patches, with_new, with_all_new, with_pages, AreNumbered};
ghost use Rattle.tx_pages.specs.Places.{are_on_page};
ghost use Rattle.tx_pages.specs.declared.errors.PageError.TheVariants.{Invalid, Fault};

use crate::access::Access;
use crate::errors::PageError;
use crate::page::Page;
use crate::plans::{NewPage, NewPages};
use smallvec::SmallVec;
use std::alloc::Global;
use std::marker::Model;
use std::mem;
use tx_base::{ADDRESSES, NoMemory, PAGE_BYTES, PAGES, number_below};

/// What the bytes of a page that is not mapped are shown as.
const NOT_MAPPED: &[u8] = &[0; PAGE_BYTES];

/// The pages of a process: numbers 0 to 15, addresses 0 to 1,023. Contracts see what each number
/// has.
#[derive(Drop)]
pub struct Space {
    pages: [Option<Page>; PAGES],
}

impl Model for Space {
    ghost use Rattle.std.specs.Prelude.{◌≡◌, length};
    ghost use Rattle.tx_model.specs.Memory.{Memory};

    ghost Value = { Memory };

    ghost view = { λ space. space.pages };

    ghost invariant = { λ space. length space.pages ≡ 16 };
}

impl Space {
    /// No page is mapped.
    pub fn new() -> Space
        ensures { result ≡ no_memory }
    {
        Space { pages: vacant() }
    }

    /// What a page number has; nothing where there is no such number.
    pub fn page(&self, number: usize) -> Option<&Page>
        ensures { option_copied result ≡ page_at self.now number }
    {
        match self.pages.get(number) {
            Some(page) => page.as_ref(),
            None => None,
        }
    }

    /// Exchanges what a page number has: 0 to 15. It takes no memory.
    pub fn swap_page(&mut self, number: usize, page: &mut Option<Page>)
        requires { number < 16 }
        ensures exchanged { self.new ≡ slice_set self.old number page.old }
        ensures given { page.new ≡ page_at self.old number }
    {
        mem::swap(&mut self.pages[number], page);
    }

    /// An equal copy of what a page number has, which shares the frame; nothing where there is no
    /// such number.
    ///
    /// NoMemory where the frame can't be shared again.
    pub fn copy_page(&self, number: usize) -> Result<Option<Page>, NoMemory>
        ensures { IfOk result (λ page. page ≡ page_at self.now number) }
    {
        match self.page(number) {
            Some(page) => Ok(Some(page.share()?)),
            None => Ok(None),
        }
    }

    /// Equal pages, which share their frames.
    ///
    /// NoMemory where a frame can't be shared again.
    pub fn copy(&self) -> Result<Space, NoMemory>
        ensures { IfOk result (λ space. space ≡ self.now) }
    {
        let mut space = Space::new();
        space.share(self)?;
        Ok(space)
    }

    /// Shares the frames of the pages of another, where no page is mapped here.
    ///
    /// NoMemory where a frame can't be shared again. Some of the pages may then be there.
    pub fn share(&mut self, from: &Space) -> Result<(), NoMemory>
        requires { self.old ≡ no_memory }
        ensures { OnOk result (self.new ≡ from.now) }
    {
        for i in 0..PAGES {
            if let Some(page) = &from.pages[i] {
                self.pages[i] = Some(page.share()?);
            }
        }
        Ok(())
    }

    /// Maps a page of zeros that may be written. Own rule.
    ///
    /// Invalid where the number is not 0 to 15 or is mapped; NoMemory where a growth is refused.
    /// The pages are then as they were.
    pub fn map(&mut self, alloc: Global, page: i64) -> Result<(), PageError>
        ensures answer { (c : Caller) → c.process.memory ≡ self.old →
            Remembers result self.new (map page) c }
        ensures errors { IfErr result (λ why. why ≢ Fault) }
        ensures err { OnErr result (self.new ≡ self.old) }
    {
        let mut new = self.plan_map(alloc, page)?;
        self.swap_page(new.number, &mut new.page);
        Ok(())
    }

    /// Takes a page out. Own rule.
    ///
    /// Invalid where the number is not one of a mapped page. The pages are then as they were.
    pub fn unmap(&mut self, page: i64) -> Result<(), PageError>
        ensures answer { (c : Caller) → c.process.memory ≡ self.old →
            Remembers result self.new (unmap page) c }
        ensures errors { IfErr result (λ why. why ≡ Invalid) }
        ensures err { OnErr result (self.new ≡ self.old) }
    {
        let mut new = self.plan_unmap(page)?;
        self.swap_page(new.number, &mut new.page);
        Ok(())
    }

    /// Sets whether a page may be written. Own rule.
    ///
    /// Invalid where the number is not one of a mapped page. The pages are then as they were.
    pub fn protect(&mut self, page: i64, writable: bool) -> Result<(), PageError>
        ensures answer { (c : Caller) → c.process.memory ≡ self.old →
            Remembers result self.new (protect page writable) c }
        ensures errors { IfErr result (λ why. why ≡ Invalid) }
        ensures err { OnErr result (self.new ≡ self.old) }
    {
        let Some(number) = number_below(PAGES, page) else {
            return Err(PageError::Invalid);
        };
        let slot = &mut self.pages[number];
        if let Some(present) = slot {
            present.set_writable(writable);
            return Ok(());
        }
        Err(PageError::Invalid)
    }

    /// Stores bytes from an address on, all of them or none. Own rule.
    ///
    /// Fault where the range is not empty and does not lie in 0 to 1,023 on pages that may be
    /// written; NoMemory where a growth is refused. The pages are then as they were.
    pub fn store(&mut self, alloc: Global, address: i64, bytes: &[u8]) -> Result<(), PageError>
        ensures answer { (c : Caller) → c.process.memory ≡ self.old →
            Remembers result self.new (store address bytes.now) c }
        ensures errors { IfErr result (λ why. why ≢ Invalid) }
        ensures err { OnErr result (self.new ≡ self.old) }
    {
        let new = self.plan_store(alloc, address, bytes)?;
        self.put_pages(new);
        Ok(())
    }

    /// Whether so many bytes from an address on are good for the purpose: there are none, or they
    /// lie in 0 to 1,023 on mapped pages, which may be written where that is the purpose. Own rule.
    pub fn is_good(&self, access: Access, address: i64, count: usize) -> bool
        ensures { result ≡ is_good (test_of access) self.now address count }
    {
        if count == 0 {
            return true;
        }
        match number_below(ADDRESSES, address) {
            Some(start) => self.is_good_at(access, start, count),
            None => false,
        }
    }

    /// The byte at an address. Own rule.
    ///
    /// Fault where the address is not 0 to 1,023 or lies on a page that is not mapped.
    pub fn load(&self, address: i64) -> Result<u8, PageError>
        ensures { Loads self.now address result }
    {
        let Some(start) = number_below(ADDRESSES, address) else {
            return Err(PageError::Fault);
        };
        match &self.pages[start / PAGE_BYTES] {
            Some(page) => Ok(page.bytes()[start % PAGE_BYTES]),
            None => Err(PageError::Fault),
        }
    }

    /// The bytes from an address on, up to the end of its page, but at most so many: zeros where the
    /// page is not mapped. The address must be 0 to 1,023.
    pub fn part(&self, address: usize, most: usize) -> &[u8]
        requires { address < 1024 }
        ensures bytes { result.now ≡ bytes_from self.now address (length result.now) }
        ensures rest { (n : ℕ) →
            bytes_from self.now address (length result.now + n)
            ≡ result.now ++ bytes_from self.now (address + length result.now) n }
        ensures count { length result.now ≡ min most (64 - address % 64) }
    {
        let offset = address % PAGE_BYTES;
        let count = most.min(PAGE_BYTES - offset);
        match self.page(address / PAGE_BYTES) {
            Some(page) => &page.bytes()[offset..offset + count],
            None => &NOT_MAPPED[..count],
        }
    }

    /// Copies bytes out from an address on, as many as there is room for. Own rule.
    ///
    /// Fault where the range is not empty and does not lie in 0 to 1,023 on mapped pages. The room
    /// is then as it was.
    pub fn take(&self, address: i64, out: &mut [u8]) -> Result<(), PageError>
        ensures { Takes self.now address out.old result out.new }
    {
        if out.is_empty() {
            return Ok(());
        }
        let Some(start) = number_below(ADDRESSES, address) else {
            return Err(PageError::Fault);
        };
        if !self.is_good_at(Access::Read, start, out.len()) {
            return Err(PageError::Fault);
        }
        self.copy_out(start, out);
        Ok(())
    }

    /// The page that a map puts in place. Nothing is changed.
    ///
    /// Invalid and NoMemory as at `map`.
    pub fn plan_map(&self, alloc: Global, page: i64) -> Result<NewPage, PageError>
        ensures answer { (c : Caller) → c.process.memory ≡ self.now →
            Remembers result (with_new self.now result) (map page) c }
        ensures errors { IfErr result (λ why. why ≢ Fault) }
        ensures number { IfOk result (λ new. new.number < 16) }
    {
        let Some(number) = number_below(PAGES, page) else {
            return Err(PageError::Invalid);
        };
        if self.pages[number].is_some() {
            return Err(PageError::Invalid);
        }
        let zero = Page::zero(alloc)?;
        Ok(NewPage {
            number,
            page: Some(zero),
        })
    }

    /// Which page number will have nothing, by an unmap. Nothing is changed.
    ///
    /// Invalid as at `unmap`.
    pub fn plan_unmap(&self, page: i64) -> Result<NewPage, PageError>
        ensures answer { (c : Caller) → c.process.memory ≡ self.now →
            Remembers result (with_new self.now result) (unmap page) c }
        ensures errors { IfErr result (λ why. why ≡ Invalid) }
        ensures number { IfOk result (λ new. new.number < 16) }
    {
        let Some(number) = number_below(PAGES, page) else {
            return Err(PageError::Invalid);
        };
        if self.pages[number].is_none() {
            return Err(PageError::Invalid);
        }
        Ok(NewPage { number, page: None })
    }

    /// The page with the flag, which shares the frame of the present one. Nothing is changed.
    ///
    /// Invalid as at `protect`; NoMemory where the frame can't be shared again.
    pub fn plan_protect(&self, page: i64, writable: bool) -> Result<NewPage, PageError>
        ensures answer { (c : Caller) → c.process.memory ≡ self.now →
            Remembers result (with_new self.now result) (protect page writable) c }
        ensures errors { IfErr result (λ why. why ≢ Fault) }
        ensures number { IfOk result (λ new. new.number < 16) }
    {
        let Some(number) = number_below(PAGES, page) else {
            return Err(PageError::Invalid);
        };
        let Some(present) = &self.pages[number] else {
            return Err(PageError::Invalid);
        };
        let mut page = present.share()?;
        page.set_writable(writable);
        Ok(NewPage {
            number,
            page: Some(page),
        })
    }

    /// The pages that a store puts in place, each with a frame of its own. Nothing is changed.
    ///
    /// Fault and NoMemory as at `store`.
    pub fn plan_store(
        &self,
        alloc: Global,
        address: i64,
        bytes: &[u8],
    ) -> Result<NewPages, PageError>
        ensures answer { (c : Caller) → c.process.memory ≡ self.now →
            Remembers result (with_all_new self.now result) (store address bytes.now) c }
        ensures errors { IfErr result (λ why. why ≢ Invalid) }
        ensures numbers { IfOk result (λ new. AreNumbered new.pages.items) }
    {
        if bytes.is_empty() {
            return Ok(NewPages {
                pages: SmallVec::new(alloc),
            });
        }
        let Some(start) = number_below(ADDRESSES, address) else {
            return Err(PageError::Fault);
        };
        if !self.is_good_at(Access::Write, start, bytes.len()) {
            return Err(PageError::Fault);
        }
        let pages = self.plan_good_store(alloc, start, bytes)?;
        Ok(NewPages { pages })
    }

    /// The page that a store puts in place whose bytes lie on one page, with a frame of its own;
    /// nothing where there are no bytes, or they lie on several pages, or not in 0 to 1,023:
    /// `plan_store` plans these. Nothing is changed.
    ///
    /// Fault where the page is not mapped or may not be written; NoMemory where a growth is
    /// refused.
    pub fn plan_store_on_page(
        &self,
        alloc: Global,
        address: i64,
        bytes: &[u8],
    ) -> Option<Result<NewPage, PageError>>
        ensures answer { IfSome result (λ plan. (c : Caller) → c.process.memory ≡ self.now →
            Remembers plan (with_new self.now plan) (store address bytes.now) c) }
        ensures errors { IfSome result (λ plan. IfErr plan (λ why. why ≢ Invalid)) }
        ensures number { IfSome result (λ plan. IfOk plan (λ new. new.number < 16)) }
        ensures some { is_some result ≡ are_on_page address (length bytes.now) }
    {
        let _ = &self.pages;
        let start = number_below(ADDRESSES, address)?;
        let offset = start % PAGE_BYTES;
        if bytes.is_empty() || bytes.len() > PAGE_BYTES - offset {
            return None;
        }
        Some(self.plan_patch(alloc, start / PAGE_BYTES, offset, bytes))
    }

    /// Puts planned pages in place, the first one first. Each number must be 0 to 15.
    pub fn put_pages(&mut self, new: NewPages)
        requires { AreNumbered new.pages.items }
        ensures { self.new ≡ with_pages self.old new.pages.items }
    {
        let mut pages = new.pages;
        for i in 0..pages.len() {
            let planned = &mut pages[i];
            self.swap_page(planned.number, &mut planned.page);
        }
    }

    /// The new pages for a range that may be written.
    fn plan_good_store(
        &self,
        alloc: Global,
        start: usize,
        bytes: &[u8],
    ) -> Result<SmallVec<NewPage, 2>, NoMemory>
        requires { start + length bytes.now ≤ 1024 }
        ensures after { IfOk result (λ pages.
            with_pages self.now pages.items ≡ put_bytes self.now start bytes.now) }
        ensures numbers { IfOk result (λ pages. AreNumbered pages.items) }
    {
        let _ = &self.pages;
        let mut number = start / PAGE_BYTES;
        let mut offset = start % PAGE_BYTES;
        let count = (offset + bytes.len()).div_ceil(PAGE_BYTES);
        let mut pages = SmallVec::with_capacity(alloc, count)?;
        let mut rest = bytes;
        while !rest.is_empty() {
            let (front, back) = rest.split_at(rest.len().min(PAGE_BYTES - offset));
            let page = self.patched(alloc, number, offset, front)?;
            pages.push(NewPage { number, page })?;
            number += 1;
            offset = 0;
            rest = back;
        }
        Ok(pages)
    }

    /// The new page of a store on one page: some of its bytes replaced, in a frame of its own.
    ///
    /// Fault where it is not mapped or may not be written; NoMemory where a growth is refused.
    fn plan_patch(
        &self,
        alloc: Global,
        number: usize,
        offset: usize,
        patch: &[u8],
    ) -> Result<NewPage, PageError>
        requires number { number < 16 }
        requires fits { offset + length patch.now ≤ 64 }
        ensures { Patches self.now number offset patch.now result }
    {
        match &self.pages[number] {
            Some(page) if page.is_writable() => Ok(NewPage {
                number,
                page: Some(page.patched(alloc, offset, patch)?),
            }),
            _ => Err(PageError::Fault),
        }
    }

    /// A page with some of its bytes replaced, in a frame of its own.
    fn patched(
        &self,
        alloc: Global,
        number: usize,
        offset: usize,
        patch: &[u8],
    ) -> Result<Option<Page>, NoMemory>
        requires number { number < 16 }
        requires fits { offset + length patch.now ≤ 64 }
        ensures { IfOk result (λ page. page ≡ written self.now number offset patch.now) }
    {
        match &self.pages[number] {
            Some(page) => Ok(Some(page.patched(alloc, offset, patch)?)),
            None => Ok(None),
        }
    }

    /// Whether the page that holds an address serves the purpose.
    fn serves(&self, access: Access, address: usize) -> bool
        requires { address < 1024 }
        ensures { result ≡ test_of access (page_at self.now (address / 64)) }
    {
        let slot = &self.pages[address / PAGE_BYTES];
        match access {
            Access::Read => slot.is_some(),
            Access::Write => match slot {
                Some(page) => page.is_writable(),
                None => false,
            },
        }
    }

    /// Whether a range of bytes is good for the purpose: one test for each page.
    fn is_good_at(&self, access: Access, start: usize, count: usize) -> bool
        requires { start < 1024 }
        ensures tested { result ≡ all_good (test_of access) self.now start count }
        ensures inside { OnTrue result (start + count ≤ 1024) }
    {
        let mut address = start;
        let mut left = count;
        while left > 0 {
            if address >= ADDRESSES || !self.serves(access, address) {
                return false;
            }
            let some = left.min(PAGE_BYTES - address % PAGE_BYTES);
            address += some;
            left -= some;
        }
        true
    }

    /// Copies the bytes from an address on, page by page.
    fn copy_out(&self, start: usize, out: &mut [u8])
        requires { start + length out.old ≤ 1024 }
        ensures { out.new ≡ bytes_from self.now start (length out.old) }
    {
        let mut done = 0;
        while done < out.len() {
            let part = self.part(start + done, out.len() - done);
            out[done..done + part.len()].copy_from_slice(part);
            done += part.len();
        }
    }
}

/// No page at any number.
fn vacant() -> [Option<Page>; PAGES]
    ensures { result ≡ no_memory }
{
    [
        None, None, None, None, None, None, None, None, None, None, None, None, None, None, None,
        None,
    ]
}
