// One token for each node: its parts, and how it is put together.
ghost use Rattle.std.specs.Prelude.{◌≡◌, ◌+◌, ◌*◌, ◌<◌};
ghost use Rattle.tokens.specs.Token.{token_of, tag_in, depth_in, size_in, payload_in};

pub fn tag(token: u64) -> u64
    ensures { result ≡ tag_in token }
{
    token % 256
}

// The number of binders above the node.
pub fn depth(token: u64) -> u64
    ensures { result ≡ depth_in token }
{
    token / 256 % 256
}

// The number of nodes of the subterm.
pub fn size(token: u64) -> u64
    ensures { result ≡ size_in token }
{
    token / 65536 % 65536
}

pub fn payload(token: u64) -> u64
    ensures { result ≡ payload_in token }
{
    token / 4294967296
}

pub fn token(tag: u64, depth: usize, size: usize, payload: u64) -> u64
    requires { (tag < 256) × (depth < 256) × (size < 65536) × (payload < 4294967296) }
    ensures { result ≡ token_of tag depth size payload }
{
    tag + 256 * (depth as u64) + 65536 * (size as u64) + 4294967296 * payload
}

// Two numbers in one payload.
pub fn pair(low: u16, high: u16) -> u64
    ensures { (result ≡ low + 65536 * high) × (result < 4294967296) }
{
    u64::from(low) + 65536 * u64::from(high)
}
