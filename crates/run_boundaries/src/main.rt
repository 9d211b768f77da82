// boardtime on a stored run: more than three reads of 64 KiB, with a command that moves the keeper across the end of each.
#![tactic(auto)]

fn main(rt: HostRuntime) {
    program::serve(&mut rt.stdin(), &mut rt.stdout(), &mut rt.stderr());
}
