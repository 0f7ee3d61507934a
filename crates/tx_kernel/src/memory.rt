//! The calls on the memory of their process.
ghost use Rattle.std.specs.Prelude.{◌≡◌, ◌<◌, ◌++◌, map as list_map, IfOk, OnOk, OnErr, slice_set};
ghost use Rattle.tx_kernel.specs.Actors.{effect_by};
ghost use Rattle.tx_kernel.specs.Own.{ComesTo, PlansOwn, page_change};
ghost use Rattle.tx_kernel.specs.Plans.{Extends};
ghost use Rattle.tx_model.specs.Book.{load, map, protect, store, unmap, with_memory};
ghost use Rattle.tx_model.specs.Forms.{Rule};
ghost use Rattle.tx_pages.specs.Outcomes.{with_pages, AreNumbered};

use crate::actor::Actor;
use crate::planned::Outcome;
use arrayvec::ArrayVec;
use std::alloc::Global;
use tx_base::{Errno, NoMemory};
use tx_change::Log;
use tx_pages::{NewPage, NewPages, PageError};
use tx_proc::Part;

impl Actor<'_> {
    /// Maps a page of zeros that may be written. Own rule.
    pub(crate) fn plan_map(
        &self,
        alloc: Global,
        page: i64,
        log: &mut Log,
    ) -> Result<Outcome, NoMemory>
        ensures ok { IfOk result (λ outcome. PlansOwn self.now log.old log.new outcome
            (effect_by self.now (map page))) }
        ensures err { OnErr result (Extends log.old log.new) }
    {
        match self.proc.space.plan_map(alloc, page) {
            Ok(new) => self.plan_page(new, log),
            Err(PageError::NoMemory) => Err(NoMemory),
            Err(_) => self.plan_error(Errno::InvalidArgument, log),
        }
    }

    /// Takes a page out. Own rule.
    pub(crate) fn plan_unmap(&self, page: i64, log: &mut Log) -> Result<Outcome, NoMemory>
        ensures ok { IfOk result (λ outcome. PlansOwn self.now log.old log.new outcome
            (effect_by self.now (unmap page))) }
        ensures err { OnErr result (Extends log.old log.new) }
    {
        match self.proc.space.plan_unmap(page) {
            Ok(new) => self.plan_page(new, log),
            Err(_) => self.plan_error(Errno::InvalidArgument, log),
        }
    }

    /// Sets whether a page may be written. Own rule.
    pub(crate) fn plan_protect(
        &self,
        page: i64,
        writable: bool,
        log: &mut Log,
    ) -> Result<Outcome, NoMemory>
        ensures ok { IfOk result (λ outcome. PlansOwn self.now log.old log.new outcome
            (effect_by self.now (protect page writable))) }
        ensures err { OnErr result (Extends log.old log.new) }
    {
        match self.proc.space.plan_protect(page, writable) {
            Ok(new) => self.plan_page(new, log),
            Err(PageError::NoMemory) => Err(NoMemory),
            Err(_) => self.plan_error(Errno::InvalidArgument, log),
        }
    }

    /// Stores bytes from an address on, all of them or none. Own rule.
    pub(crate) fn plan_store(
        &self,
        alloc: Global,
        address: i64,
        bytes: &ArrayVec<u8, 64>,
        log: &mut Log,
    ) -> Result<Outcome, NoMemory>
        ensures ok { IfOk result (λ outcome. PlansOwn self.now log.old log.new outcome
            (effect_by self.now (store address bytes.now.items))) }
        ensures err { OnErr result (Extends log.old log.new) }
    {
        let bytes = bytes.as_slice();
        // Most often the bytes are on one page, and no list of pages is needed.
        match self.proc.space.plan_store_on_page(alloc, address, bytes) {
            Some(Ok(new)) => self.plan_page(new, log),
            Some(Err(PageError::NoMemory)) => Err(NoMemory),
            Some(Err(_)) => self.plan_error(Errno::BadAddress, log),
            None => self.plan_store_on_pages(alloc, address, bytes, log),
        }
    }

    /// Stores bytes from an address on, all of them or none, on however many pages they are. Own
    /// rule.
    #[inline(never)] // inlined, it would have room for its list made for every store
    fn plan_store_on_pages(
        &self,
        alloc: Global,
        address: i64,
        bytes: &[u8],
        log: &mut Log,
    ) -> Result<Outcome, NoMemory>
        ensures ok { IfOk result (λ outcome. PlansOwn self.now log.old log.new outcome
            (effect_by self.now (store address bytes.now))) }
        ensures err { OnErr result (Extends log.old log.new) }
    {
        match self.proc.space.plan_store(alloc, address, bytes) {
            Ok(new) => self.plan_pages(new, log),
            Err(PageError::NoMemory) => Err(NoMemory),
            Err(_) => self.plan_error(Errno::BadAddress, log),
        }
    }

    /// Reads the byte at an address. Own rule.
    pub(crate) fn plan_load(&self, address: i64, log: &mut Log) -> Result<Outcome, NoMemory>
        ensures ok { IfOk result (λ outcome. PlansOwn self.now log.old log.new outcome
            (effect_by self.now (load address))) }
        ensures err { OnErr result (log.new ≡ log.old) }
    {
        match self.proc.space.load(address) {
            Ok(byte) => self.plan_answer(byte as i64, log),
            Err(_) => self.plan_error(Errno::BadAddress, log),
        }
    }

    /// Plans the page of one number, and the answer 0.
    fn plan_page(&self, new: NewPage, log: &mut Log) -> Result<Outcome, NoMemory>
        requires { new.number < 16 }
        ensures page { (page : Rule) →
            ComesTo self.now page
            (λ c. with_memory (slice_set c.process.memory new.number new.page) c) →
            IfOk result (λ outcome.
            PlansOwn self.now log.old log.new outcome (effect_by self.now page)) }
        ensures err { OnErr result (Extends log.old log.new) }
    {
        self.plan_part(Part::Page(new.number, new.page), 0, log)
    }

    /// Plans these pages, and the answer 0.
    fn plan_pages(&self, new: NewPages, log: &mut Log) -> Result<Outcome, NoMemory>
        requires { AreNumbered new.pages.items }
        ensures ok { IfOk result (λ outcome. PlansOwn self.now log.old log.new outcome
            (effect_by self.now
            (λ c. with_memory (with_pages c.process.memory new.pages.items) c))) }
        ensures err { OnErr result (Extends log.old log.new) }
    {
        self.push_pages(new, log)?;
        self.push_answer(0, log)?;
        Ok(Outcome::Done(0))
    }

    /// Appends the exchanges that put these pages in place.
    pub(crate) fn push_pages(&self, new: NewPages, log: &mut Log) -> Result<(), NoMemory>
        ensures ok { OnOk result
            (log.new ≡ log.old ++ list_map (page_change self.now.pid) new.pages.items) }
        ensures err { OnErr result (Extends log.old log.new) }
    {
        for page in new.pages {
            self.push(Part::Page(page.number, page.page), log)?;
        }
        Ok(())
    }
}
