// boardtime on a stored run: short lines whose answers fill the output several times in one read.
#![tactic(auto)]

fn main(rt: HostRuntime) {
    program::serve(&mut rt.stdin(), &mut rt.stdout(), &mut rt.stderr());
}
