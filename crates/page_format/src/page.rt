ghost use Rattle.std.specs.Prelude.{◌≡◌, length, replicate, IfOk};
ghost use Rattle.std.specs.Borrow.{sem};
ghost use Rattle.page_format.specs.Fields.{page_size};
ghost use Rattle.page_format.specs.Lending.{LendsBytes};

use ds_base::NoMemory;
use std::alloc::Global;
use std::marker::Model;

/// How many bytes a page has.
pub const PAGE_SIZE: usize = 4096;

/// How many rows a page of a heap has room for.
pub const SLOTS_PER_PAGE: u16 = 31;

/// How many entries a page of an index has room for.
pub const ENTRIES_PER_PAGE: u16 = 252;

/// A page of the disk, which contracts see as the list of its 4,096 bytes.
#[derive(Drop)]
pub struct Page {
    bytes: Box<[u8; PAGE_SIZE]>,
}

impl Model for Page {
    ghost use Rattle.std.specs.Prelude.{ℕ, List, box_value};

    ghost Value = { List ℕ };

    ghost view = { λ p. box_value p.bytes };
}

impl Page {
    /// A page that was never written: all its bytes are zeros.
    pub fn zero(alloc: Global) -> Result<Page, NoMemory>
        ensures { IfOk result (λ page. page ≡ replicate page_size 0) }
    {
        Ok(Page {
            bytes: Box::new(alloc, [0; PAGE_SIZE])?,
        })
    }

    pub fn bytes(&self) -> &[u8; PAGE_SIZE]
        ensures value { result.now ≡ self.now }
        ensures length { length self.now ≡ page_size }
    {
        let bytes: &[u8; PAGE_SIZE] = &self.bytes;
        // A slice of the array tells the proof how long it is.
        let _all = &bytes[..];
        bytes
    }

    /// The bytes, to be changed in place.
    pub fn bytes_mut(&mut self) -> &mut [u8; PAGE_SIZE]
        ensures* writes_back { sem 𝓛 (LendsBytes self.entry result) }
        ensures value { result.now ≡ self.old }
    {
        &mut self.bytes
    }
}
