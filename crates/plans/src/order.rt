ghost use Rattle.std.specs.Prelude.{◌≡◌, ◌<◌, ◌≤◌, length, take};
ghost use Rattle.model.specs.Orders.{place_in};
ghost use Rattle.plans.specs.Orders.{among, misplaced, misplaced_below};
ghost use Rattle.plans.specs.Results.{refusal};

use faults::fault::{Fault, Ground};

// Whether a pin stands at one of the first `k` positions.
fn is_among(order: &[u8], pin: u8, k: usize) -> bool
    requires { k ≤ length order.now }
    ensures { result ≡ among order.now pin k }
{
    order[..k].contains(&pin)
}

fn is_misplaced(order: &[u8], i: usize) -> bool
    requires { i < length order.now }
    ensures { result ≡ misplaced order.now i }
{
    usize::from(order[i]) >= order.len() || is_among(order, order[i], i)
}

// The first position at which a pin is too large or repeated.
pub(crate) fn check_order(order: &[u8]) -> Result<(), Fault>
    ensures { refusal result ≡ misplaced_below order.now (length order.now) }
{
    (0..order.len())
        .find(|i| is_misplaced(order, *i))
        .map_or(Ok(()), |i| Err(Ground::OrderPin.at(i)))
}

// The order in the room of a header.
pub(crate) fn padded(order: &[u8]) -> [u8; 20]
    requires { length order.now ≤ 20 }
    ensures { take (length order.now) result ≡ order.now }
{
    let mut room = [0; 20];
    room[..order.len()].copy_from_slice(order);
    room
}

// The place of a pin in an order; past its end if it is not there.
pub(crate) fn place_of_pin(order: &[u8], pin: u8) -> u8
    requires { length order.now ≤ 20 }
    ensures { result ≡ place_in order.now pin }
{
    let place = order.iter().position(|p| *p == pin);
    place.unwrap_or(order.len()) as u8
}
