//! The end of a round: classes of a front that are alike, found through buckets and merged (`merging`), the front put
//! back into the lists by bound (`restoring`), and the numbers of the new element (`closing`). Source: Amestoy, Davis
//! and Duff 1996 and 2004.
#![tactic(auto)]

pub mod buckets;
pub mod closing;
pub mod merging;
pub mod restoring;
