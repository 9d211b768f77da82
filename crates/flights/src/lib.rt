// Flight times: document 02, order 7. Of each peer an out time and a back time, in nanoseconds: what a frame takes at the least to reach the peer,
// and the peer's answer to come back.
#![tactic(auto)]

ghost use Rattle.std.specs.Prelude.{◌≡◌};
ghost use Rattle.flights.specs.Flights.{flight_within, flights_kept};

pub const MOST_FLIGHT: u64 = 1000000000;

pub fn time_within(time: u64) -> bool
    ensures { result ≡ flight_within time }
{
    time <= MOST_FLIGHT
}

// Whether the times of every peer are within their limit. No peer ends the search, so that the compiler takes several places at once.
pub fn flights_kept<'a>(out: &'a [u32; 16], back: &'a [u32; 16]) -> bool
    ensures { result ≡ flights_kept out.now back.now }
{
    out.iter().zip(back).fold(
        true,
        |kept, (out, back)| kept & (time_within(u64::from(*out)) & time_within(u64::from(*back))),
    )
}
