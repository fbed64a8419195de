#![tactic(auto)]
// The program `run` with small buffers, so that the tests see the core fed by tiny chunks and its rows leave one by one; the seconds asked
// have to fit into the first.
fn main(rt: HostRuntime) {
    let mut space = [0u8; 11];
    let mut room = [0u8; 256];
    run_loop::program::run_program(&rt, &mut space, &mut room);
}
