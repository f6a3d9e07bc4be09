//! What a program that goes on with another one keeps of it, as what the checker finds and which literals it has: laws, with no code.
#![tactic(auto)]

mod laws;

pub use laws::{
    found_stays, literals_stay, longer_goes_on, places_stay, templates_stay, verdicts_stay,
};
