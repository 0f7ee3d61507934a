//! The pages of a process. Copies share their bytes, and a write always makes a new frame.
//!
//! Contracts see a `Page` as its flag and bytes, and a `Space` as the `Memory` of the definitions:
//! no contract says that frames are shared.
//!
//! A call that changes pages has two forms. `map`, `unmap`, `protect` and `store` do it. Their
//! plans (`plan_map`, ..) read, take all the memory, and answer what is put in place; `swap_page`
//! exchanges one page. Most stores lie on one page: `plan_store_on_page` answers that page, without
//! a list. Each outcome has its clause: which error comes exactly when, and that the pages are as
//! they were.
#![tactic(auto)]

mod access;
mod errors;
mod page;
mod plans;
mod space;

pub use access::Access;
pub use errors::PageError;
pub use page::Page;
pub use plans::{NewPage, NewPages};
pub use space::Space;
