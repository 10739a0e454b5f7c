//! The texts of what a caller chooses and of what an ordering tells. Source: AMD user guide.
#![tactic(auto)]

mod control_text;
mod info_text;

pub use crate::control_text::control;
pub use crate::info_text::{info, write_labelled};
