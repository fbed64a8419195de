#![tactic(auto)]
// Which sets the station asks for: the setpoint held, and the configuration called.
pub mod commit;
pub mod configuration;
pub mod setpoint;
