//! The laws of the transfers: what holds of the desk after every list of commands.
#![tactic(auto)]

mod laws;

pub use laws::{
    alternation_law, buffer_law, given_law, numbers_law, record_law, safe_law, scrap_law,
};
