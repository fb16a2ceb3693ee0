//! How many pages each area has, by its number: an area with few gives its lines to one that needs more.
use crate::rows::PAGE_WORDS;
use rh_defs::sizes::MAX_AREAS;
use std::alloc::{AllocError, Global};

/// The pages of each area. They choose whose lines are taken, and nothing is proved of them.
#[derive(Drop)]
pub struct Needs {
    pages: Vec<usize>,
}

impl Needs {
    /// No pages.
    pub fn new(alloc: Global) -> Result<Needs, AllocError> {
        let mut pages = Vec::new(alloc);
        pages.resize(MAX_AREAS, 0)?;
        Ok(Needs { pages })
    }

    /// How many words of lines an area needs.
    pub fn words(&self, id: usize) -> usize {
        match self.pages.get(id) {
            Some(pages) => pages.saturating_mul(PAGE_WORDS),
            None => 0,
        }
    }

    /// An area has got pages.
    pub fn add(&mut self, id: usize, more: usize) {
        if let Some(pages) = self.pages.get_mut(id) {
            *pages = pages.saturating_add(more);
        }
    }

    /// An area has lost pages.
    pub fn subtract(&mut self, id: usize, fewer: usize) {
        if let Some(pages) = self.pages.get_mut(id) {
            *pages = pages.saturating_sub(fewer);
        }
    }

    /// An area has lost all.
    pub fn clear(&mut self, id: usize) {
        if let Some(pages) = self.pages.get_mut(id) {
            *pages = 0;
        }
    }
}
