ghost use Rattle.std.specs.Prelude.{◌≡◌};
ghost use Rattle.plans.specs.Plain.{work_size};

// How many numbers of work the calls on a plan with so many pins and nodes ask for.
pub fn work_for(pins: u8, nodes: u16) -> usize
    ensures { result ≡ work_size pins nodes }
{
    4 * (usize::from(pins) + 1) * (usize::from(nodes) + 2)
}
