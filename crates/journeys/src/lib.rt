// Contacts and intervals as values. What journeys, cells and the add rule are stands in specs/, their laws in proofs/.
#![tactic(auto)]

// A contact (u, v, t): what it carries departs from u at t and is with v from t + δ on, δ being the carry time.
#[derive(Clone, Copy)]
pub struct Contact {
    pub from: u32,
    pub to: u32,
    pub tick: u32,
}

// An interval [departure, arrival].
#[derive(Clone, Copy, PartialEq, Eq)]
pub struct Interval {
    pub departure: u32,
    pub arrival: u32,
}
