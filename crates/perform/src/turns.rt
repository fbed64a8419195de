// THE LOOP: performs what a program asks for, and hands it what came of that. It decides nothing, and is the same for every program.
ghost use Rattle.std.specs.Prelude.{ℕ, ◌≡◌, List};
ghost use Rattle.exchange.specs.declared.action.Action.{Action};
ghost use Rattle.exchange.specs.declared.event.Event.{Event};
ghost use Rattle.perform.specs.Turns.{Ends};

use crate::{Files, perform};
use exchange::action::{Action, Why, Word};
use exchange::event::Event;
use std::env::Env;
use std::fs;
use std::fs::File;
use std::io::{IsTerminal, Write};

// A program as decisions: where it begins, what each of its states asks for, and the step at what came of that.
pub trait Decisions {
    type State: Copy;

    ghost opens: { Self.State → Type 0 };

    ghost asks: { Self.State → Action };

    ghost steps: { Self.State → Event → List ℕ → List ℕ → Self.State → List ℕ → Type 0 };

    fn begin() -> Self::State
        ensures { opens result };

    fn asked(state: Self::State) -> Action
        ensures { result ≡ asks state };

    fn next(state: Self::State, event: Event, buf: &[u8], out: &mut [u8]) -> Self::State
        ensures { steps state event buf.now out.old result out.new };

    // Tells whoever watches how far the program has come, and answers what was told so far.
    fn tell<W: Write + IsTerminal>(err: &mut W, told: u64, state: Self::State) -> u64;
}

// What the program ended with, and where it and the files then stood.
#[derive(Drop)]
pub struct Ended<S, F = File> {
    pub word: Word,
    pub state: S,
    pub files: Files<F>,
}

// Progress is told before the action. So many turns no program comes to.
pub fn run<P: Decisions, R: fs::Files + Env + Print, W: Write + IsTerminal>(
    rt: &R,
    err: &mut W,
    paths: &mut [u8],
    buf: &mut [u8],
    out: &mut [u8],
) -> Ended<P::State, R::File>
    ensures { Ends P.opens P.asks P.steps buf.old out.old result.word result.state result.files.performed buf.new out.new }
{
    let mut told = 0;
    let mut state = P::begin();
    let mut files = Files::new();
    for turn in 0..u64::MAX {
        let action = P::asked(state);
        if let Action::Stop(word) = action {
            return Ended { word, state, files };
        }
        told = P::tell(err, told, state);
        let event = perform(rt, &mut files, action, paths, buf, out);
        state = P::next(state, event, buf, out);
    }
    Ended {
        word: Word::Nothing(Why::Broken),
        state,
        files,
    }
}
