// Bytes put at a place of a lent output.
ghost use Rattle.text.specs.Output.{Put};

// Puts bytes at a place of the output and gives the place after them. Where they do not fit, nothing is touched and the place stays.
pub fn put_bytes(out: &mut [u8], at: usize, s: &[u8]) -> usize
    ensures { Put out.old at s.now out.new result }
{
    if out.len() < s.len() || out.len() - s.len() < at {
        return at;
    }
    out[at..at + s.len()].copy_from_slice(s);
    at + s.len()
}
