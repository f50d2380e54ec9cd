ghost use Rattle.std.specs.Prelude.{◌≡◌};
ghost use Rattle.page_format.specs.Header.{is_zeros};

use page_format::Page;

/// Whether all bytes of the page are zeros.
pub fn is_blank(page: &Page) -> bool
    ensures { result ≡ is_zeros page.now }
{
    page.bytes().iter().all(|byte| *byte == 0)
}
