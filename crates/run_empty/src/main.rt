// boardtime on a stored run: no input.
#![tactic(auto)]

fn main(rt: HostRuntime) {
    program::serve(&mut rt.stdin(), &mut rt.stdout(), &mut rt.stderr());
}
