// The prices of the flights' stretches, by the constraints of kind 5.
#![tactic(auto)]

pub mod gauging; // gauging.rt: the gauges of the constraints of kind 5, from scratch
pub mod pricing; // pricing.rt: the price of a flight's stretches, and of all flights
