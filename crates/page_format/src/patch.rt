ghost use Rattle.std.specs.Prelude.{◌≡◌, ◌+◌, ◌≤◌, length};
ghost use Rattle.ds_base.specs.Ids.{IsLrsn};
ghost use Rattle.page_format.specs.Fields.{page_size, patched, set_version, set_lrsn, lrsn_of, is_old, renewed};

use crate::Page;
use crate::layout::{LRSN_AT, OLD_VERSION, VERSION, VERSION_AT};
use ds_base::{Bytes, LRSN_WIDTH, Lrsn, PageId, Sequence};

/// New bytes for a part of a page, from an offset on.
#[derive(Debug, Drop)]
pub struct Patch {
    pub page: PageId,
    pub offset: u16,
    pub bytes: Bytes,
}

/// A list of patches.
pub type Patches = Sequence<Patch>;

// Writes bytes over those from an offset on.
#[tactic(auto, unfolding(crate::specs::Fields::patched))]
pub fn overwrite(page: &mut [u8], offset: usize, bytes: &[u8])
    requires { offset + length bytes.now ≤ length page.old }
    ensures { page.new ≡ patched page.old offset bytes.now }
{
    page[offset..offset + bytes.len()].copy_from_slice(bytes);
}

// Writes the version.
#[tactic(auto, using(crate::proofs::Stamps::length_patched), unfolding(crate::specs::Fields::set_version))]
fn set_version(page: &mut [u8])
    requires { page_size ≤ length page.old }
    ensures bytes { page.new ≡ set_version page.old }
    ensures whole { length page.new ≡ length page.old }
{
    overwrite(page, VERSION_AT as usize, &[VERSION]);
}

// Writes the version, and the LRSN of the last change.
#[tactic(auto, unfolding(crate::specs::Fields::set_lrsn))]
fn stamp(page: &mut [u8], lrsn: Lrsn)
    requires { page_size ≤ length page.old }
    ensures bytes { page.new ≡ set_lrsn page.old lrsn }
    ensures whole { page_size ≤ length page.old }
    ensures range { IsLrsn lrsn }
{
    set_version(page);
    let number = lrsn.number().to_be_bytes();
    overwrite(
        page,
        LRSN_AT as usize,
        &number[number.len() - LRSN_WIDTH as usize..],
    );
}

impl Page {
    /// Writes bytes over those from an offset on, and then the version 2 and the LRSN of the change.
    pub fn write(&mut self, offset: usize, bytes: &[u8], lrsn: Lrsn)
        requires { offset + length bytes.now ≤ page_size }
        ensures bytes { self.new ≡ set_lrsn (patched self.old offset bytes.now) lrsn }
        ensures number { lrsn_of self.new ≡ lrsn }
    {
        let page = self.bytes_mut();
        overwrite(page, offset, bytes);
        stamp(page, lrsn);
    }

    /// Writes the patch's bytes, and then the version 2 and the LRSN of the change. Whose page it is isn't asked.
    pub fn apply(&mut self, patch: &Patch, lrsn: Lrsn)
        requires { patch.now.offset + length patch.now.bytes ≤ page_size }
        ensures bytes { self.new ≡ set_lrsn (patched self.old patch.now.offset patch.now.bytes) lrsn }
        ensures number { lrsn_of self.new ≡ lrsn }
    {
        self.write(patch.offset as usize, patch.bytes.as_slice(), lrsn);
    }

    /// Whether the page is of version 1. One of zeros is of none.
    pub fn is_old(&self) -> bool
        ensures { result ≡ is_old self.now }
    {
        self.bytes()[VERSION_AT as usize] == OLD_VERSION
    }

    /// Writes the version 2, and the LRSN of the last change in its width. Nothing else that the page says is changed.
    #[tactic(auto, unfolding(crate::specs::Fields::renewed))]
    pub fn renew(&mut self)
        ensures bytes { self.new ≡ renewed self.old }
        ensures number { lrsn_of self.new ≡ lrsn_of self.old }
    {
        let lrsn = self.lrsn();
        stamp(self.bytes_mut(), lrsn);
    }
}
