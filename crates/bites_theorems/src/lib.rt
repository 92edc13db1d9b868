//! What a user of `regex_bites` may rely on, as a caller proves it. [`headline`] is the page to open first.
//!
//! Each function makes a few public calls, and its contract is a fact that follows from the contracts of these calls
//! and from the laws of `bites_spec`. Nothing here is part of the engine.
#![tactic(auto)]

pub mod agreement;
pub mod bounds;
pub mod calls;
pub mod escaped;
pub mod headline;
pub mod refuted;
pub mod successive;
