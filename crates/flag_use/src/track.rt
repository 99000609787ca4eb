ghost use Rattle.std.specs.Prelude.{◌≡◌, ◌≤◌, ◌<◌, ◌^◌};
ghost use Rattle.flag_use.specs.Walk.{number_of, track_of, node_of};

use crate::flag::Flag;

/// What is asked of the paths that end at an address: whether there is one, or one that leaves the
/// flag undefined.
#[derive(Clone, Copy)]
pub(crate) enum Track {
    Any,
    Undefined(Flag),
}

/// The number of a track, below 5.
fn number_of(track: Track) -> u64
    ensures value { result ≡ number_of track }
    ensures small { result < 8 }
{
    match track {
        Track::Any => 0,
        Track::Undefined(Flag::Cf) => 1,
        Track::Undefined(Flag::Zf) => 2,
        Track::Undefined(Flag::Sf) => 3,
        Track::Undefined(Flag::Of) => 4,
    }
}

/// The track that has a number.
pub(crate) fn track_of(number: u64) -> Track
    ensures { result ≡ track_of number }
{
    match number {
        0 => Track::Any,
        1 => Track::Undefined(Flag::Cf),
        2 => Track::Undefined(Flag::Zf),
        3 => Track::Undefined(Flag::Sf),
        _ => Track::Undefined(Flag::Of),
    }
}

/// The node that asks for a track at an address.
pub(crate) fn node_of(address: u64, track: Track) -> u64
    requires { address ≤ 2 ^ 60 }
    ensures { result ≡ node_of address track }
{
    address * 8 + number_of(track)
}
