//! One page: a flag, and a frame of bytes that other pages may share.
ghost use Rattle.std.specs.Prelude.{◌≡◌, ◌+◌, ◌≤◌, IfOk, length};
ghost use Rattle.tx_model.specs.Memory.{zero_page};
ghost use Rattle.tx_pages.specs.Frames.{overlaid};

use std::alloc::Global;
use std::marker::Model;
use std::sync::Arc;
use tx_base::{NoMemory, PAGE_BYTES};

/// A page: whether it may be written, and its 64 bytes. Contracts see these two.
#[derive(Drop)]
pub struct Page {
    writable: bool,
    frame: Arc<[u8; PAGE_BYTES]>,
}

impl Model for Page {
    ghost use Rattle.std.specs.Arc.{arc_value};
    ghost use Rattle.std.specs.Prelude.{◌≡◌, length};
    ghost use Rattle.tx_model.specs.Memory.{PageView};

    ghost Value = { PageView };

    ghost view = { λ page. record { writable = page.writable; bytes = arc_value page.frame } };

    ghost invariant = { λ page. length (arc_value page.frame) ≡ 64 };
}

impl Page {
    /// A page of zeros that may be written, in a frame of its own. Own rule.
    ///
    /// NoMemory where a growth is refused.
    pub fn zero(alloc: Global) -> Result<Page, NoMemory>
        ensures { IfOk result (λ page. page ≡ zero_page) }
    {
        let frame = Arc::new(alloc, [0; PAGE_BYTES])?;
        Ok(Page {
            writable: true,
            frame,
        })
    }

    /// An equal page, which shares the frame.
    ///
    /// NoMemory where the frame can't be shared again.
    pub fn share(&self) -> Result<Page, NoMemory>
        ensures { IfOk result (λ page. page ≡ self.now) }
    {
        let frame = Arc::try_clone(&self.frame)?;
        Ok(Page {
            writable: self.writable,
            frame,
        })
    }

    /// Whether it may be written.
    pub fn is_writable(&self) -> bool
        ensures { result ≡ self.now.writable }
    {
        self.writable
    }

    /// Its bytes.
    pub fn bytes(&self) -> &[u8; PAGE_BYTES]
        ensures bytes { result.now ≡ self.now.bytes }
        ensures count { length self.now.bytes ≡ 64 }
    {
        &self.frame
    }

    /// Sets whether it may be written.
    pub fn set_writable(&mut self, writable: bool)
        ensures { self.new ≡ record self.old { writable = writable } }
    {
        self.writable = writable;
    }

    /// A page with the bytes from an offset on replaced, in a frame of its own; the patch must end
    /// within the page.
    ///
    /// NoMemory where a growth is refused.
    pub fn patched(&self, alloc: Global, offset: usize, patch: &[u8]) -> Result<Page, NoMemory>
        requires { offset + length patch.now ≤ 64 }
        ensures { IfOk result (λ page.
            page ≡ record self.now { bytes = overlaid self.now.bytes offset patch.now }) }
    {
        let frame = Arc::new(alloc, overlay(*self.bytes(), offset, patch))?;
        Ok(Page {
            writable: self.is_writable(),
            frame,
        })
    }
}

/// Writes some bytes over others.
fn overlay(mut bytes: [u8; PAGE_BYTES], offset: usize, patch: &[u8]) -> [u8; PAGE_BYTES]
    requires { offset + length patch.now ≤ 64 }
    ensures { result ≡ overlaid bytes offset patch.now }
{
    let end = offset + patch.len();
    bytes[offset..end].copy_from_slice(patch);
    bytes
}
