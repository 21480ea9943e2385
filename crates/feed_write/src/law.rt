ghost use Rattle.feed_write.specs.Written.{RoundTrip};

/// Every feed of well-formed entries is accepted, and says those entries, in order, each at its place.
pub fn round_trip()
    ensures { RoundTrip }
{}
