// A program's machine between two actions, whatever its stages are and whatever it holds.
ghost use Rattle.std.specs.Prelude.{◌≡◌};
ghost use Rattle.exchange.specs.declared.action.Why.{Why};
ghost use Rattle.exchange.specs.Machines.{standing, moved_by};

use crate::action::Why;
use crate::event::Event;

// A stage that says what was asked for last, and at which a machine may stop without a complete answer.
pub trait Stage: Copy {
    ghost stop_at: { Why → Self };

    fn stop(why: Why) -> Self
        ensures { result ≡ stop_at why };
}

#[derive(Clone, Copy)]
pub struct Machine<S, H> {
    pub stage: S,
    pub held: H,
}

impl<S: Stage, H: Copy> Machine<S, H> {
    // Without a complete answer.
    pub fn stopped(held: H, why: Why) -> Machine<S, H>
        ensures { result ≡ standing (S.stop_at why) held }
    {
        Machine {
            stage: S::stop(why),
            held,
        }
    }

    // What comes next where what was asked for was done, and where it failed.
    pub fn moved(held: H, event: Event, done: S, failed: S) -> Machine<S, H>
        ensures { result ≡ moved_by S.stop_at event held done failed }
    {
        match event {
            Event::Done => Machine { stage: done, held },
            Event::Failed => Machine {
                stage: failed,
                held,
            },
            Event::Count(_) | Event::Read(_) | Event::End => Machine::stopped(held, Why::Broken),
        }
    }
}
