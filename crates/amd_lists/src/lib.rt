//! Lists in one workspace: the record of its slices and numbers (`work`), where each list stands (`specs/Layout`), the
//! lists by bound, doubly linked through the sides of rows (`chains`), and what a list of a class keeps when it is
//! renewed in its place (`renewal`). What is read through slices that are lent for writing is read by `lent`. Source:
//! Amestoy, Davis and Duff 1996 and 2004.
#![tactic(auto)]

pub mod chains;
pub mod lent;
pub mod renewal;
pub mod work;
