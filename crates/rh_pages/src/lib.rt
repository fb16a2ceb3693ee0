//! A store whose areas all live on one ground: the trait `Store` of `rh_store` over scattered pages.
#![tactic(auto)]

mod backing;
mod lent;
mod native;
mod paged;
mod table;

pub use backing::Backing;
pub use lent::LentBacking;
pub use native::RegionBacking;
pub use paged::PagedStore;
pub use table::LISTS;
