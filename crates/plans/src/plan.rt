ghost use Rattle.std.specs.Prelude.{◌≡◌};

use crate::header::Header;
use std::marker::PhantomData;

// A plan is open, to be drawn on, or issued, to be listed.
#[derive(Drop)]
pub struct Plan<S> {
    pub(crate) header: Header,
    state: PhantomData<S>,
}

impl<S> Plan<S> {
    pub(crate) fn over(header: Header) -> Plan<S>
        ensures { result.header ≡ header }
    {
        Plan {
            header,
            state: PhantomData,
        }
    }
}
