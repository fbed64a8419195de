// run STATION SAMPLES SECONDS, over buffers of the caller's.
use crate::end_words::say_end;
use crate::machine::Run;
use perform::turns::run;
use plain_words::heedless::Heedless;

// The whole program; `buf` is read into, at least 10 bytes at a time, and `out` written from, at least 256 bytes.
pub fn run_program(rt: &HostRuntime, buf: &mut [u8], out: &mut [u8]) {
    let mut paths = [0u8; 12288];
    let ended = run::<Run, _, _>(rt, &mut Heedless(rt.stderr()), &mut paths, buf, out);
    say_end(rt, ended, &paths);
}
