// The net that a draft offers, and why it may have none to offer.
#![tactic(auto)]

pub mod refusal;
pub mod survey;
