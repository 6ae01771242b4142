//! Demands added to legs, and handed down to the arcs that the legs stand for.
ghost use Rattle.std.specs.Prelude.{◌≡◌, ◌+◌, ◌*◌, ◌<◌, ℕ, length, slice_index, slice_set, OnOk, OnErr, Some, All};
ghost use Rattle.ch_flows.specs.Handing.{AreParts, IsCount, IsExcess, IsExcessAlong, IsHanded, IsPassed, shares_of, weighed};

/// The greatest flow of an arc: 2^63.
pub const MOST_FLOW: u64 = 1 << 63;

/// A flow that is more than [`MOST_FLOW`].
#[derive(Debug, Clone, Copy)]
pub struct TooLarge;

/// The places of the two legs that a leg stands for.
#[derive(Debug, Clone, Copy)]
pub struct Halves {
    /// The place of the leg that is travelled first.
    pub first: usize,
    /// The place of the other leg.
    pub second: usize,
}

/// Hands the flows of all legs down to the arcs that they stand for. The halves of a leg come after it.
///
/// # Errors
/// `TooLarge` if a leg would get more than [`MOST_FLOW`].
pub fn hand_down(parts: &[Option<Halves>], flows: &mut [u64]) -> Result<(), TooLarge>
    requires parts { AreParts parts.now }
    requires long { length flows.old ≡ length parts.now }
    ensures long { length flows.new ≡ length flows.old }
    ensures counts { OnOk result ((j : ℕ) (count : ℕ → ℕ) → IsCount parts.now j count → slice_index flows.new j ≡ weighed count flows.old) }
    ensures excess { OnErr result (IsExcess parts.now flows.old) }
{
    for i in 0..parts.len() {
        hand(parts, i, flows)?;
    }
    Ok(())
}

/// Hands the flow of a leg to its halves, if it has some.
fn hand(parts: &[Option<Halves>], place: usize, flows: &mut [u64]) -> Result<(), TooLarge>
    requires parts { AreParts parts.now }
    requires long { length flows.old ≡ length parts.now }
    requires place { place < length parts.now }
    ensures long { length flows.new ≡ length flows.old }
    ensures handed { OnOk result (IsHanded parts.now place flows.old flows.new) }
    ensures excess { OnErr result (IsExcess parts.now flows.old) }
{
    let Some(halves) = parts[place] else {
        return Ok(());
    };
    let flow = flows[place];
    flows[place] = 0;
    add(flows, halves.first, flow)?;
    add(flows, halves.second, flow)
}

/// Adds a demand to each leg of a way.
///
/// # Errors
/// `TooLarge` if a leg would get more than [`MOST_FLOW`].
pub fn add_along(way: &[usize], demand: u64, flows: &mut [u64]) -> Result<(), TooLarge>
    requires { All (λ place. place < length flows.old) way.now }
    ensures long { length flows.new ≡ length flows.old }
    ensures added { OnOk result ((share : ℕ → ℕ) → weighed share flows.new ≡ weighed share flows.old + demand * shares_of share way.now) }
    ensures excess { OnErr result (IsExcessAlong way.now demand flows.old) }
{
    for place in way {
        add(flows, *place, demand)?;
    }
    Ok(())
}

/// Adds a demand to the flow of a leg.
///
/// # Errors
/// `TooLarge` if it would be more than [`MOST_FLOW`]. The flows are then as before.
pub(crate) fn add(flows: &mut [u64], place: usize, demand: u64) -> Result<(), TooLarge>
    requires { place < length flows.old }
    ensures added { OnOk result (flows.new ≡ slice_set flows.old place (slice_index flows.old place + demand)) }
    ensures long { length flows.new ≡ length flows.old }
    ensures passed { OnErr result (IsPassed flows.old place demand) }
    ensures same { OnErr result (flows.new ≡ flows.old) }
{
    match flows[place].checked_add(demand) {
        Some(flow) if flow <= MOST_FLOW => {
            flows[place] = flow;
            Ok(())
        }
        _ => Err(TooLarge),
    }
}
