//! What a call on pages puts in place.
use crate::page::Page;
use smallvec::SmallVec;

/// What a page number will have: a page, or nothing. A plan of a call makes it, and
/// `Space::swap_page` puts it in place.
#[derive(Default, Drop)]
pub struct NewPage {
    /// The page number: 0 to 15.
    pub number: usize,
    pub page: Option<Page>,
}

/// What some page numbers will have, the first to be put in place first. A plan of a store makes
/// it, and `Space::put_pages` puts all in place. Two are in the value itself, which are enough for
/// 64 bytes.
#[derive(Drop)]
pub struct NewPages {
    pub pages: SmallVec<NewPage, 2>,
}
