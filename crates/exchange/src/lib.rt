#![tactic(auto)]
// What a program asks of the system, and what the system reports of it. A program that decides is a machine by value from events to
// actions; the page that performs them (`perform`) is the same for every program. `specs/World.antt` says what is asked of that page.
pub mod action;
pub mod event;
pub mod machine;
