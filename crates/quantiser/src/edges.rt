// The edges of a ladder: whether they rise, and how many a level reaches.
ghost use Rattle.std.specs.Prelude.{◌≤◌, ◌≡◌};
ghost use Rattle.take_format.specs.Samples.{zero_level, rising, edges_at_most};

// Whether each edge lies above the one before, the first above zero.
pub fn rise(edges: &[f32]) -> bool
    ensures { result ≡ rising zero_level edges.now }
{
    let mut below: f32 = 0.0;
    for &edge in edges {
        if below < edge {
            below = edge;
        } else {
            return false;
        }
    }
    true
}

// How many edges are at most the level. Each is looked at: so no branch depends on the level, as it would in a search, and nothing is asked
// of the edges' order.
pub fn count(edges: &[f32; 15], level: f32) -> u8
    ensures value { result ≡ edges_at_most level edges.now }
    ensures upper_bound { result ≤ 15 }
{
    edges.iter().map(|&edge| u8::from(edge <= level)).sum()
}
