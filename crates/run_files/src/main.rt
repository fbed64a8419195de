#![tactic(auto)]
// run STATION SAMPLES SECONDS: works a station's seconds. Standard output has the run's bytes alone; standard error has what else there
// is to say.
fn main(rt: HostRuntime) {
    let mut space = [0u8; 65536];
    let mut room = [0u8; 65536];
    run_loop::program::run_program(&rt, &mut space, &mut room);
}
