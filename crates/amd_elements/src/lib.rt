//! The element of a pivot: its rows gathered behind all lists (`element`, `making`) or in the place of the pivot's own
//! list (`own_place`), the room for them (`fitting`), the walk over the lists around a pivot (`around`), the compaction
//! of the workspace where there is no room (`compaction`), and these as one call for each way (`beginning`). Source:
//! Amestoy, Davis and Duff 1996 and 2004.
#![tactic(auto)]

pub mod around;
pub mod beginning;
pub mod compaction;
pub mod element;
pub mod fitting;
pub mod making;
pub mod own_place;
