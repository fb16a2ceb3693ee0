//! The module area.

use rh_module::Module;
use rh_store::AreaId;

/// The module area, which is the store's area 1.
pub const MODULE: Module = Module { area: AreaId(1) };
